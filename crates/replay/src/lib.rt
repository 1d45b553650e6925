// The schedule program's work: bytes in, bytes out.
#![tactic(auto)]

mod reader;
mod report;
mod run;
pub mod schedule;
mod text;

ghost use Rattle.std.specs.Prelude.{◌≡◌, cond, length, leb, Ok, Err};
ghost use Rattle.rules.specs.Program as program;
ghost use Rattle.replay.specs.Short.{too_short};

use reader::Schedule;
use text::Text;

// The buffer is too short for the text, and nothing was written.
#[derive(Clone, Copy, Debug, PartialEq, Eq)]
pub struct TooShort;

// What is written for any input, in place of what the text held.
#[tactic(auto, unfolding(rules::specs::Program::output, rules::specs::Program::ascii))]
fn output(input: &[u8], text: &mut Text)
    ensures { text.new.bytes ≡ program.output input.now }
{
    match Schedule::of(input) {
        Some(schedule) => run::report(schedule, text),
        None => text::begin(text, "bad input\n"),
    }
}

// A text at the start of a buffer, if it has room; how long the text is.
#[tactic(auto, unfolding(rules::specs::Program::shown))]
fn show(text: &[u8], out: &mut [u8]) -> Result<usize, TooShort>
    ensures { (result ≡ cond (leb (length text.now) (length out.old)) (Ok (length text.now)) (Err too_short)) × (out.new ≡ program.shown text.now out.old) }
{
    let n = text.len();
    if n <= out.len() {
        out[..n].copy_from_slice(text);
        Ok(n)
    } else {
        Err(TooShort)
    }
}

// Replays a schedule: any input, of any length. How long the text is that was written; a buffer that is too short is left as it is.
pub fn replay(input: &[u8], out: &mut [u8]) -> Result<usize, TooShort>
    ensures { (result ≡ cond (leb (length (program.output input.now)) (length out.old)) (Ok (length (program.output input.now))) (Err too_short)) × (out.new ≡ program.shown (program.output input.now) out.old) }
{
    let mut text = Text::new();
    output(input, &mut text);
    show(text.as_bytes(), out)
}
