// What the machine is told and what it answers. The rules themselves are definitions, in specs/.
#![tactic(auto)]

ghost use Rattle.std.specs.Prelude.{◌≡◌, slice_index};
ghost use Rattle.rules.specs.Settings.{settings_of};
ghost use Rattle.rules.specs.Replies.{step_of, number_of, value_of, why_number, no_set_up_number, NamesOperation, NamesPhase};

// Document 01, Settings: T, H, C, R, F and S.
#[derive(Clone, Copy)]
pub struct Settings {
    pub threads: usize,
    pub slots: usize,
    pub cells: usize,
    pub records: usize,
    pub threshold: usize,
    pub start: usize,
}

// The settings as words, in their order.
impl From<[u32; 6]> for Settings {
    ghost from_gives = { λ ws s. s ≡ settings_of (slice_index ws 0) (slice_index ws 1) (slice_index ws 2) (slice_index ws 3) (slice_index ws 4) (slice_index ws 5) };

    fn from(words: [u32; 6]) -> Settings {
        let [threads, slots, cells, records, threshold, start] = words;
        Settings {
            threads: threads as usize,
            slots: slots as usize,
            cells: cells as usize,
            records: records as usize,
            threshold: threshold as usize,
            start: start as usize,
        }
    }
}

// Document 01, Steps: five words.
#[derive(Clone, Copy)]
pub struct Step {
    pub thread: u32,
    pub op: u32,
    pub a: u32,
    pub b: u32,
    pub c: u32,
}

// The five words in their order.
impl From<[u32; 5]> for Step {
    ghost from_gives = { λ ws s. s ≡ step_of (slice_index ws 0) (slice_index ws 1) (slice_index ws 2) (slice_index ws 3) (slice_index ws 4) };

    fn from(words: [u32; 5]) -> Step {
        let [thread, op, a, b, c] = words;
        Step {
            thread,
            op,
            a,
            b,
            c,
        }
    }
}

// Document 01, Steps: the operations 0 to 10.
#[derive(Clone, Copy, Debug, PartialEq, Eq)]
pub enum Operation {
    Allocate,
    Swap,
    Load,
    Reserve,
    Check,
    Use,
    Clear,
    Retire,
    Advance,
    Deliver,
    Handle,
}

// Document 01, Phases: 0 to 7.
#[derive(Clone, Copy, Debug, PartialEq, Eq)]
pub enum Phase {
    Idle,
    Loaded,
    Reserved,
    Collecting,
    Pinging,
    Waiting,
    Scanning,
    Freeing,
}

// Document 01, The image: the kinds of words; the six of a thread, and a list's length and entries, are a kind each.
#[derive(Clone, Copy, Debug, PartialEq, Eq)]
pub enum Kind {
    Cell,
    Status,
    Private,
    Published,
    Held,
    Count,
    Phase,
    U,
    V,
    W,
    Pending,
    Handler,
    Collected,
    Length,
    Entry,
    Scanned,
}

// Document 01, The image: what a record is.
#[derive(Clone, Copy, Debug, PartialEq, Eq)]
pub enum Status {
    Free,
    Live,
    Retired,
}

// Why a step is refused: document 01, Replies by number, 1 to 11.
#[derive(Clone, Copy, Debug, PartialEq, Eq)]
pub enum Why {
    Damaged = 1,
    NoSuchOperation,
    NoSuchThread,
    OperandBeyond,
    HandlerRunning,
    PhaseForbids,
    NoneFree,
    NotLive,
    CellNames,
    ListFull,
    NotHeld,
}

impl From<Why> for u32 {
    ghost from_gives = { λ why n. n ≡ why_number why };

    fn from(why: Why) -> u32 {
        why as u32
    }
}

// A number above 10 names no operation.
impl TryFrom<u32> for Operation {
    type Error = Why;

    ghost try_from_gives = { NamesOperation };

    fn try_from(op: u32) -> Result<Operation, Why> {
        match op {
            0 => Ok(Operation::Allocate),
            1 => Ok(Operation::Swap),
            2 => Ok(Operation::Load),
            3 => Ok(Operation::Reserve),
            4 => Ok(Operation::Check),
            5 => Ok(Operation::Use),
            6 => Ok(Operation::Clear),
            7 => Ok(Operation::Retire),
            8 => Ok(Operation::Advance),
            9 => Ok(Operation::Deliver),
            10 => Ok(Operation::Handle),
            _ => Err(Why::NoSuchOperation),
        }
    }
}

// A word above 7 is no phase, and an image that has it there is damaged. A line a name, as for the operations: no derive makes them, and a table would say the names twice.
impl TryFrom<u32> for Phase {
    type Error = Why;

    ghost try_from_gives = { NamesPhase };

    fn try_from(word: u32) -> Result<Phase, Why> {
        match word {
            0 => Ok(Phase::Idle),
            1 => Ok(Phase::Loaded),
            2 => Ok(Phase::Reserved),
            3 => Ok(Phase::Collecting),
            4 => Ok(Phase::Pinging),
            5 => Ok(Phase::Waiting),
            6 => Ok(Phase::Scanning),
            7 => Ok(Phase::Freeing),
            _ => Err(Why::Damaged),
        }
    }
}

// Why a set-up is refused: document 01, Replies by number, 12 and 13.
#[derive(Clone, Copy, Debug, PartialEq, Eq)]
pub enum NoSetUp {
    SettingBeyond = 12,
    WrongLength,
}

impl From<NoSetUp> for u32 {
    ghost from_gives = { λ why n. n ≡ no_set_up_number why };

    fn from(why: NoSetUp) -> u32 {
        why as u32
    }
}

// What a step answers: its value, or why it is refused.
pub type Reply = Result<u32, Why>;

// What the list question hands back: where in the image the part begins, and how many words it has.
#[derive(Clone, Copy)]
pub struct Part {
    pub from: u32,
    pub length: u32,
}

// The number of a reply, 0 where the step is done.
pub fn number(reply: Reply) -> u32
    ensures { result ≡ number_of reply }
{
    match reply {
        Ok(_) => 0,
        Err(why) => u32::from(why),
    }
}

// The value of a reply, 0 where the step is refused.
pub fn value(reply: Reply) -> u32
    ensures { result ≡ value_of reply }
{
    reply.unwrap_or(0)
}
