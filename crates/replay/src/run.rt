// The run: set-up, a line a step, the total.
ghost use Rattle.std.specs.Prelude.{◌≡◌, ◌+◌, ◌*◌, ◌<◌, ◌≤◌, length};
ghost use Rattle.rules.specs.Image as whole;
ghost use Rattle.rules.specs.SetUp as rule;
ghost use Rattle.rules.specs.Program as program;
ghost use Rattle.replay.specs.Tally.{Low, Turned, Ran};

use super::reader::{Reader, Schedule};
use super::report::Report;
use super::text::Text;
use super::{schedule, text};
use rules::Step;

// Step i: it is carried out, its line written, and counted.
fn turn(image: &mut [u32], report: &mut Report<'_>, i: usize, step: Step)
    requires { (i < program.most_steps) × (length report.old.text.now.bytes + 44 ≤ program.longest) × Low report.old.tally }
    ensures same_reference { report.new.text.ghost_name ≡ report.old.text.ghost_name }
    ensures turned { Turned i step image.old image.new report.old report.new }
{
    let reply = machine::step(image, step);
    let number = rules::number(reply);
    let value = rules::value(reply);
    text::push_line(report.text, i as u32, step.op, number, value);
    report.tally.count(step.op, number, value);
}

// The header and the steps, one after another.
fn steps<'a>(schedule: Schedule, image: &mut [u32], text: &'a mut Text) -> Report<'a>
    ensures same_reference { result.text.ghost_name ≡ text.entry.ghost_name }
    ensures ran { Ran (program.given_steps schedule.entry.bytes.now) image.old result }
{
    let mut report = Report::new(text);
    for (i, step) in Reader::new(schedule).enumerate() {
        turn(image, &mut report, i, step);
    }
    report
}

// How many words an image of the schedule's settings has.
fn needed(schedule: Schedule) -> usize
    ensures { result ≡ whole.words (program.given_settings schedule.entry.bytes.now) }
{
    image::words_needed(schedule::settings(schedule.bytes))
}

// Sets an image up with the schedule's settings.
fn set_up(schedule: Schedule, image: &mut [u32])
    requires { length image.old ≡ whole.words (program.given_settings schedule.bytes.now) }
    ensures { image.new ≡ rule.fresh (program.given_settings schedule.entry.bytes.now) }
{
    image::set_up(image, schedule::settings(schedule.bytes)).unwrap();
}

// The report, on an image that is as long as the settings give.
fn run(schedule: Schedule, image: &mut [u32], text: &mut Text)
    requires { length image.old ≡ whole.words (program.given_settings schedule.bytes.now) }
    ensures { text.new.bytes ≡ program.report (program.given_settings schedule.entry.bytes.now) (program.given_steps schedule.entry.bytes.now) }
{
    set_up(schedule, image);
    steps(schedule, image, text).end();
}

// The report of a schedule. No image has more words than this buffer, of which a part is lent: a vector of fixed capacity would be filled with words first to lend as many.
pub fn report(schedule: Schedule, text: &mut Text)
    ensures { text.new.bytes ≡ program.report (program.given_settings schedule.entry.bytes.now) (program.given_steps schedule.entry.bytes.now) }
{
    let mut room = [0u32; 8209];
    let n = needed(schedule);
    run(schedule, &mut room[..n], text);
}
