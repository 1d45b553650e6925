// Where each word of an image stands, worked out once and passed on by value.
ghost use Rattle.std.specs.Prelude.{◌≡◌, ℕ, ◌≤◌, length, get_or};
ghost use Rattle.rules.specs.Settings as of;
ghost use Rattle.rules.specs.Image as whole;
ghost use Rattle.rules.proofs.Limits.{Limits};
ghost use Rattle.rules.proofs.Shaped.{Shaped};

use super::sizes::room;
use rules::{Kind, Settings};

// The settings, the list room, and for each section how many words stand before it; last, how many the image has.
#[derive(Clone, Copy)]
pub struct Layout {
    pub settings: Settings,
    pub room: usize,
    pub starts: [usize; 12],
    // The settings are within their limits, and room and starts are what they give.
    pub ghost limits: { Limits settings },
    pub ghost room_is: { room ≡ of.room settings },
    pub ghost starts_are: { (k : ℕ) → k ≤ whole.sections → get_or starts k 0 ≡ whole.start settings k },
}

// A line of the layout table: in which section a kind of words stands, the number of the first row, how wide a row is, where in a row they begin and how many there are in a row.
#[derive(Clone, Copy)]
pub(crate) struct Lay {
    pub(crate) section: usize,
    pub(crate) from: usize,
    pub(crate) width: usize,
    pub(crate) offset: usize,
    pub(crate) span: usize,
}

// The settings of an image: its words after the first count.
#[tactic(auto, unfolding(rules::specs::Settings::settings))]
pub fn settings(words: &[u32]) -> Settings
    requires { 7 ≤ length words.now }
    ensures { result ≡ of.settings words.now }
{
    Settings::from([words[1], words[2], words[3], words[4], words[5], words[6]])
}

// How many words stand before each section: the counts before it are added up. Each count tells where the next one stands, and is noted for its section, so that there is no part to walk.
fn starts(words: &[u32]) -> [usize; 12]
    requires { Shaped words.now }
    ensures { (k : ℕ) → k ≤ whole.sections → get_or result k 0 ≡ whole.start (of.settings words.now) k }
{
    let mut starts = [0usize; 12];
    let mut p = 0;
    for k in 0..11 {
        starts[k] = p;
        p += 1 + words[p] as usize;
    }
    starts[11] = p;
    starts
}

impl Layout {
    ghost use Rattle.std.specs.Prelude.{◌<◌, ◌*◌, ◌+◌};
    ghost use Rattle.rules.proofs.Places.{Valid};
    ghost use Rattle.image.specs.Stands.{At, Lays};

    // The layout of an image of which the settings are legal and the counts are right.
    pub fn of(words: &[u32]) -> Layout
        requires { Shaped words.now }
        ensures { (result.settings ≡ of.settings words.now) × (whole.words result.settings ≡ length words.now) }
    {
        let settings = settings(words);
        Layout {
            settings,
            room: room(settings),
            starts: starts(words),
        }
    }

    // The slots of all threads.
    pub fn all_slots(self) -> usize
        ensures { (result ≡ of.all_slots self.settings) × (result ≤ 128) }
    {
        self.settings.threads * self.settings.slots
    }

    // Slot s of thread t, counted over all threads. A number goes with its bound, as in the operations.
    #[inline]
    pub fn slot(self, t: usize, s: usize) -> usize
        requires { (t < self.settings.threads) × (s < self.settings.slots) }
        ensures { (result ≡ of.slot self.settings t s) × (result < of.all_slots self.settings) }
    {
        t * self.settings.slots + s
    }

    // The layout table. Sections are numbers here as in the definition's table: loops count over them, and an enum would be turned into its number at each use.
    #[inline]
    pub(crate) fn lay(self, kind: Kind) -> Lay
        ensures { Lays self.settings kind result.section result.from result.width result.offset result.span }
    {
        let (section, from, width, offset, span) = match kind {
            Kind::Cell => (1, 0, 1, 0, 1),
            Kind::Status => (2, 1, 1, 0, 1),
            Kind::Private => (3, 0, 1, 0, 1),
            Kind::Published => (4, 0, 1, 0, 1),
            Kind::Held => (5, 0, 1, 0, 1),
            Kind::Count => (6, 0, 1, 0, 1),
            Kind::Phase => (7, 0, 6, 0, 1),
            Kind::U => (7, 0, 6, 1, 1),
            Kind::V => (7, 0, 6, 2, 1),
            Kind::W => (7, 0, 6, 3, 1),
            Kind::Pending => (7, 0, 6, 4, 1),
            Kind::Handler => (7, 0, 6, 5, 1),
            Kind::Collected => (8, 0, self.settings.threads, 0, self.settings.threads),
            Kind::Length => (9, 0, self.room + 1, 0, 1),
            Kind::Entry => (9, 0, self.room + 1, 1, self.room),
            Kind::Scanned => (10, 0, self.all_slots(), 0, self.all_slots()),
        };
        Lay {
            section,
            from,
            width,
            offset,
            span,
        }
    }

    // Where the word of a kind at place j of row i stands: the three side by side, as the definitions `to` and `view` have them.
    #[inline]
    pub fn place(self, kind: Kind, i: usize, j: usize) -> usize
        requires { Valid self.settings kind i j }
        ensures { At self kind i j result }
    {
        let lay = self.lay(kind);
        self.starts[lay.section] + 1 + (i - lay.from) * lay.width + lay.offset + j
    }
}
