// The report: its lines, and the sums of its last one.
ghost use Rattle.std.specs.Prelude.{◌≡◌, ◌++◌, ◌+◌, ◌≤◌, length};
ghost use Rattle.rules.specs.Program as program;
ghost use Rattle.replay.specs.Tally.{Low, counted_in, header, nothing};

use super::text;
use super::text::Text;
use rules::Operation;

// The sums of the total.
#[derive(Clone, Copy, Default)]
pub struct Tally {
    pub accepted: u32,
    pub refused: u32,
    pub freed: u32,
}

impl Tally {
    // One step more, by the three numbers that its line has: one that names no operation is counted too.
    #[tactic(auto, unfolding(crate::specs::Tally::counted_in))]
    pub fn count(&mut self, op: u32, number: u32, value: u32)
        requires { Low self.old }
        ensures { self.new ≡ counted_in self.old op number value }
    {
        self.accepted += u32::from(number == 0);
        self.refused += u32::from(number != 0);
        self.freed += u32::from(op == Operation::Advance as u32 && number == 0 && value == 3);
    }
}

// The report so far: the text that it is written to, and what its last line will say.
#[derive(Drop)]
pub struct Report<'a> {
    pub text: &'a mut Text,
    pub tally: Tally,
}

impl<'a> Report<'a> {
    // The header.
    #[tactic(auto, unfolding(rules::specs::Program::ascii))]
    pub fn new(text: &'a mut Text) -> Report<'a>
        ensures same_reference { result.text.ghost_name ≡ text.entry.ghost_name }
        ensures begun { (result.text.now.bytes ≡ header) × (result.tally ≡ nothing) }
    {
        text::begin(text, "step op code value\n");
        Report {
            text,
            tally: Tally::default(),
        }
    }

    // The total behind the lines.
    pub fn end(self)
        requires { length self.text.now.bytes + 56 ≤ program.longest }
        ensures { self.exit.0.now.bytes ≡ self.entry.text.now.bytes ++ program.total self.entry.tally.accepted self.entry.tally.refused self.entry.tally.freed }
    {
        let Report { text, tally } = self;
        text::push_total(text, tally.accepted, tally.refused, tally.freed);
    }
}
