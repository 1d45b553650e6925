// The input's words: whether they are a schedule, its settings, its steps.
ghost use Rattle.std.specs.Prelude.{◌≡◌, ◌+◌, ◌*◌, ◌≤◌, length};
ghost use Rattle.rules.specs.Program as program;
ghost use Rattle.replay.specs.Steps.{Inside};

use image::sizes;
use rules::{Settings, Step};

// How many settings there are, the word that counts the steps, the words before them, the words of each, and the most steps.
const SETTINGS: u32 = 6;

const COUNT: usize = 7;

const BEFORE: usize = 8;

const STEP: usize = 5;

const MOST: usize = 1000;

// Word i of the input, from four bytes, the lowest first.
#[tactic(auto, unfolding(rules::specs::Program::word))]
pub fn word(input: &[u8], i: usize) -> u32
    requires { i * 4 + 4 ≤ length input.now }
    ensures { result ≡ program.word input.now i }
{
    let at = i * 4;
    u32::from_le_bytes([input[at], input[at + 1], input[at + 2], input[at + 3]])
}

// The settings that the input gives.
#[tactic(auto, unfolding(rules::specs::Program::given_settings))]
pub(crate) fn settings(input: &[u8]) -> Settings
    requires { program.before_steps * 4 ≤ length input.now }
    ensures { result ≡ program.given_settings input.now }
{
    Settings::from([
        word(input, 1),
        word(input, 2),
        word(input, 3),
        word(input, 4),
        word(input, 5),
        word(input, 6),
    ])
}

// How many steps the input says it has.
#[tactic(auto, unfolding(rules::specs::Program::given_count))]
pub fn count(input: &[u8]) -> usize
    requires { program.before_steps * 4 ≤ length input.now }
    ensures { result ≡ program.given_count input.now }
{
    word(input, COUNT) as usize
}

// Whether the input is a schedule: any length, any content.
#[tactic(auto, unfolding(rules::specs::Program::is_schedule))]
pub fn is_schedule(input: &[u8]) -> bool
    ensures { result ≡ program.is_schedule input.now }
{
    BEFORE * 4 <= input.len()
        && word(input, 0) == SETTINGS
        && count(input) <= MOST
        && input.len() == (BEFORE + count(input) * STEP) * 4
        && sizes::legal(settings(input))
}

// Step i of the schedule.
#[tactic(auto, unfolding(rules::specs::Program::given_step))]
pub fn step_at(input: &[u8], i: usize) -> Step
    requires { Inside input.now i }
    ensures { result ≡ program.given_step input.now i }
{
    let w = BEFORE + i * STEP;
    Step::from([
        word(input, w),
        word(input, w + 1),
        word(input, w + 2),
        word(input, w + 3),
        word(input, w + 4),
    ])
}
