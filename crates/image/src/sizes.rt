// Settings within their limits, and how many words the sections of their image have.
ghost use Rattle.std.specs.Prelude.{◌≡◌};
ghost use Rattle.rules.specs.Tests as test;
ghost use Rattle.rules.specs.Settings as of;
ghost use Rattle.rules.specs.Image as whole;
ghost use Rattle.rules.proofs.Limits.{Limits};

use rules::Settings;

// The settings, and the words of each section, its count apart.
#[derive(Clone, Copy)]
pub struct Sizes {
    pub settings: Settings,
    pub sections: [usize; 11],
    // The settings are within their limits, and the sections are what they give.
    pub ghost limits: { Limits settings },
    pub ghost sections_are: { sections ≡ whole.sizes settings },
}

// x is from a to b. `(a..=b).contains(&x)` says no more, and its contract speaks of an order's answers in place of `≤`.
fn from_to(a: usize, b: usize, x: usize) -> bool
    ensures { result ≡ test.from_to a b x }
{
    (a <= x) & (x <= b)
}

// Whether each setting is within its limits.
#[tactic(auto, unfolding(rules::specs::Settings::legal))]
pub fn legal(s: Settings) -> bool
    ensures { result ≡ of.legal s }
{
    from_to(1, 16, s.threads)
        & from_to(1, 8, s.slots)
        & from_to(1, 256, s.cells)
        & from_to(1, 1024, s.records)
        & from_to(1, 256, s.threshold)
        & (s.start < 4294967296)
}

// The list room. It and the sections are worked out before there are sizes that could carry the limits.
#[tactic(auto, unfolding(rules::specs::Settings::room))]
pub(crate) fn room(s: Settings) -> usize
    requires { Limits s }
    ensures { result ≡ of.room s }
{
    s.threshold.max(s.threads * s.slots + 1)
}

// The words of each section.
pub fn sections(s: Settings) -> [usize; 11]
    requires { Limits s }
    ensures { result ≡ whole.sizes s }
{
    let t = s.threads;
    let all = t * s.slots;
    let l = room(s);
    [
        6,
        s.cells,
        s.records,
        all,
        all,
        all,
        t,
        t * 6,
        t * t,
        t * (l + 1),
        t * all,
    ]
}

impl Sizes {
    ghost use Rattle.std.specs.Prelude.{true, false, length, MatchOption};
    ghost use Rattle.rules.specs.Tests.{all};
    ghost use Rattle.rules.specs.Damaged as image;
    ghost use Rattle.rules.proofs.Shaped.{count_right};

    // Nothing where a setting is beyond its limit.
    pub fn of(settings: Settings) -> Option<Sizes>
        ensures { MatchOption result (of.legal settings ≡ false) (λ z. (z.settings ≡ settings) × (of.legal settings ≡ true)) }
    {
        if !legal(settings) {
            return None;
        }
        Some(Sizes {
            settings,
            sections: sections(settings),
        })
    }

    // How many words the image has: each section's after its count.
    pub fn total(&self) -> usize
        ensures { result ≡ whole.words self.now.settings }
    {
        let mut words = 0;
        for n in &self.sections {
            words += 1 + *n;
        }
        words
    }

    // Whether each section's count is right, in an image as long as the sizes give.
    fn counts_right(&self, words: &[u32]) -> bool
        requires { length words.now ≡ whole.words self.now.settings }
        ensures { result ≡ all whole.sections (count_right self.now.settings words.now) }
    {
        let mut ok = true;
        // where the next count stands
        let mut p = 0;
        for n in &self.sections {
            ok &= words[p] as usize == *n;
            p += 1 + *n;
        }
        ok
    }

    // Whether an image's length and counts are what the sizes give.
    pub fn laid(&self, words: &[u32]) -> bool
        ensures { result ≡ image.laid self.now.settings words.now }
    {
        words.len() == self.total() && self.counts_right(words)
    }
}
