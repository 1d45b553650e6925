// The damage check: a plain loop a rule, over a run of words or over two side by side. A thread's number goes beside the view with its bound, as an index does.
ghost use Rattle.std.specs.Prelude.{◌≡◌, not, ◌&&◌, ◌||◌, ℕ, ◌+◌, ◌*◌, ◌<◌, ◌≤◌, length, get_or, eqb, leb};
ghost use Rattle.rules.specs.Tests.{all};
ghost use Rattle.rules.specs.Settings as of;
ghost use Rattle.rules.specs.State.{entry, list_length};
ghost use Rattle.rules.specs.Image as whole;
ghost use Rattle.rules.specs.Damaged as image;
ghost use Rattle.rules.specs.Replies.{phase_number};
ghost use Rattle.image.specs.Views.{seen};

use super::view::View;
use rules::{Kind, Phase, Settings, Status};

// Each word of a run is at most b.
fn run_at_most(words: &[u32], b: u32) -> bool
    ensures { result ≡ all (length words.now) (λ i. leb (get_or words.now i 0) b) }
{
    let mut ok = true;
    for word in words {
        ok &= *word <= b;
    }
    ok
}

// Each word of two runs is at most b, two by two.
fn both_at_most(low: &[u32], high: &[u32], b: u32) -> bool
    requires { length low.now ≡ length high.now }
    ensures { result ≡ all (length low.now) (λ i. leb (get_or low.now i 0) b && leb (get_or high.now i 0) b) }
{
    let mut beyond = false;
    for (x, y) in low.iter().zip(high) {
        beyond = beyond | (b < *x) | (b < *y);
    }
    !beyond
}

// Each of the words is at most b. The halves are read side by side: four vectors a turn, not two.
fn at_most(words: &[u32], b: u32) -> bool
    ensures { result ≡ all (length words.now) (λ i. leb (get_or words.now i 0) b) }
{
    let half = words.len() / 2;
    let (low, rest) = words.split_at(half);
    let (high, last) = rest.split_at(half);
    both_at_most(low, high, b) & run_at_most(last, b)
}

// None of the words is 0. It and `run_at_most` are one loop each with another test: with a closure for the test the clause would speak of what a closure answers at each word, and not of the test.
fn none_zero(words: &[u32]) -> bool
    ensures { result ≡ all (length words.now) (λ i. not (eqb (get_or words.now i 0) 0)) }
{
    let mut ok = true;
    for word in words {
        ok &= *word != 0;
    }
    ok
}

// Each of the marks is 0, or the slot beside it isn't.
fn beside(marks: &[u32], slots: &[u32]) -> bool
    requires { length marks.now ≡ length slots.now }
    ensures { result ≡ all (length marks.now) (λ i. eqb (get_or marks.now i 0) 0 || not (eqb (get_or slots.now i 0) 0)) }
{
    let mut ok = true;
    for (mark, slot) in marks.iter().zip(slots) {
        ok &= (*mark == 0) | (*slot != 0);
    }
    ok
}

// What a thread's phase line is about: the length of its list, its phase, and u, v and w.
#[derive(Clone, Copy)]
struct Line {
    length: usize,
    phase: Phase,
    u: usize,
    v: usize,
    w: usize,
}

// Whether the line holds.
fn line_right(s: Settings, l: Line) -> bool
    requires { of.all_slots s ≤ 128 }
    ensures { result ≡ image.phase_line s l.length (phase_number l.phase) l.u l.v l.w }
{
    match l.phase {
        Phase::Idle => (l.u == 0) & (l.v == 0) & (l.w == 0),
        Phase::Loaded | Phase::Reserved => {
            (l.u < s.slots) & (l.v < s.cells) & (l.w <= s.records)
        }
        Phase::Collecting | Phase::Pinging | Phase::Waiting => {
            (1 <= l.length) & (l.u < s.threads) & (l.v == 0) & (l.w == 0)
        }
        Phase::Scanning => {
            (1 <= l.length) & (l.u < s.threads * s.slots) & (l.v == 0) & (l.w == 0)
        }
        Phase::Freeing => (1 <= l.length) & (l.u < l.length) & (l.v <= l.u) & (l.w == 0),
    }
}

impl View<'_> {
    // Each entry of each list is at most b. The loop over the threads is that of `threads_right`; a test handed to one loop would hide both in a closure's clause.
    fn lists_at_most(&self, b: u32) -> bool
        ensures { result ≡ all self.now.layout.settings.threads (λ t. all (of.room self.now.layout.settings) (λ i. leb (entry (seen self.now) t i) b)) }
    {
        let mut ok = true;
        for t in 0..self.layout.settings.threads {
            ok &= at_most(self.row(Kind::Entry, t), b);
        }
        ok
    }

    fn records_right(&self) -> bool
        ensures { result ≡ image.records_right self.now.layout.settings (seen self.now) }
    {
        let b = self.layout.settings.records as u32;
        at_most(self.section(Kind::Cell), b)
            & at_most(self.section(Kind::Private), b)
            & at_most(self.section(Kind::Published), b)
            & self.lists_at_most(b)
            & at_most(self.section(Kind::Scanned), b)
    }

    fn statuses_right(&self) -> bool
        ensures { result ≡ image.statuses_right self.now.layout.settings (seen self.now) }
    {
        at_most(self.section(Kind::Status), Status::Retired as u32)
    }

    fn marks_right(&self) -> bool
        ensures { result ≡ image.marks_right self.now.layout.settings (seen self.now) }
    {
        let marks = self.section(Kind::Held);
        at_most(marks, 1) & beside(marks, self.section(Kind::Private))
    }

    // No entry in use is 0: those below the length, but while the list is freed those below v and those from u on.
    fn entries_right(&self, t: usize, l: Line) -> bool
        requires { (t < self.now.layout.settings.threads) × (l.length ≤ self.now.layout.room) × (phase_number l.phase ≡ 7 → (l.u < l.length) × (l.v ≤ l.u)) }
        ensures { result ≡ all (of.room self.now.layout.settings) (λ i. not (image.in_use l.length (phase_number l.phase) l.u l.v i) || not (eqb (entry (seen self.now) t i) 0)) }
    {
        let entries = &self.row(Kind::Entry, t)[..l.length];
        match l.phase {
            Phase::Freeing => none_zero(&entries[..l.v]) & none_zero(&entries[l.u..]),
            _ => none_zero(entries),
        }
    }

    fn thread_right(&self, t: usize) -> bool
        requires { t < self.now.layout.settings.threads }
        ensures { result ≡ image.thread_right self.now.layout.settings (seen self.now) t }
    {
        let s = self.layout.settings;
        let Ok(phase) = Phase::try_from(self.word(Kind::Phase, t, 0)) else {
            return false;
        };
        let l = Line {
            length: self.word(Kind::Length, t, 0) as usize,
            phase,
            u: self.word(Kind::U, t, 0) as usize,
            v: self.word(Kind::V, t, 0) as usize,
            w: self.word(Kind::W, t, 0) as usize,
        };
        if (self.word(Kind::Pending, t, 0) <= 1)
            & (self.word(Kind::Handler, t, 0) as usize <= s.slots + 1)
            & (l.length <= self.layout.room)
            & line_right(s, l)
        {
            self.entries_right(t, l)
        } else {
            false
        }
    }

    fn threads_right(&self) -> bool
        ensures { result ≡ all self.now.layout.settings.threads (λ t. image.thread_right self.now.layout.settings (seen self.now) t) }
    {
        let mut ok = true;
        for t in 0..self.layout.settings.threads {
            ok &= self.thread_right(t);
        }
        ok
    }

    // Whether all words are right.
    #[tactic(auto, unfolding(rules::specs::Damaged::right))]
    pub fn right(&self) -> bool
        ensures { result ≡ image.right self.now.layout.settings (seen self.now) }
    {
        self.records_right() & self.statuses_right() & self.marks_right() & self.threads_right()
    }
}
