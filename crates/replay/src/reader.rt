// The reader: it walks a schedule from step to step and remembers its place. The work is in schedule, by slice and number.
ghost use Rattle.std.specs.Prelude.{◌≡◌, ◌+◌, ◌-◌, ◌<◌, ◌≤◌, true, false, MatchOption};
ghost use Rattle.std.specs.Iterator.{at_most};
ghost use Rattle.rules.specs.Program as program;
ghost use Rattle.rules.proofs.Programs.{Says};

use super::schedule;
use rules::Step;

// An input that is a schedule.
#[derive(Clone, Copy)]
pub struct Schedule<'a> {
    pub bytes: &'a [u8],
    ghost says: { Says bytes.now },
}

impl<'a> Schedule<'a> {
    // The schedule that the input is, if it is one.
    pub fn of(input: &'a [u8]) -> Option<Schedule<'a>>
        ensures { MatchOption result (program.is_schedule input.now ≡ false) (λ s. (program.is_schedule input.now ≡ true) × (s.bytes.now ≡ input.now)) }
    {
        if schedule::is_schedule(input) {
            Some(Schedule { bytes: input })
        } else {
            None
        }
    }
}

// A place in a schedule: the number of the step that is read next. Document 01 names the form: a struct over the lent schedule with its place.
#[derive(Clone, Copy)]
pub struct Reader<'a> {
    schedule: Schedule<'a>,
    at: usize,
}

impl<'a> Reader<'a> {
    // Before the first step.
    pub fn new(schedule: Schedule<'a>) -> Reader<'a>
        ensures { (result.schedule ≡ schedule.entry) × (result.at ≡ 0) }
    {
        Reader { schedule, at: 0 }
    }
}

impl<'a> Iterator for Reader<'a> {
    type Item = Step;

    ghost next_gives = { λ r step r'. MatchOption step ((program.given_count r.schedule.bytes.now ≤ r.at) × (r' ≡ r))
        (λ s. (r.at < program.given_count r.schedule.bytes.now) × (s ≡ program.given_step r.schedule.bytes.now r.at) × (r'.schedule ≡ r.schedule) × (r'.at ≡ r.at + 1)) };

    ghost remaining = { λ r. at_most (program.given_count r.schedule.bytes.now - r.at) };

    // Reads the step at the reader's place, and moves on to the one behind it.
    fn next(&mut self) -> Option<Step> {
        let bytes = self.schedule.bytes;
        let i = self.at;
        if i < schedule::count(bytes) {
            self.at = i + 1;
            Some(schedule::step_at(bytes, i))
        } else {
            None
        }
    }
}
