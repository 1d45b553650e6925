// The output's text: `begin` starts it, and each other function adds its bytes at the end.
ghost use Rattle.std.specs.Prelude.{◌≡◌, ◌++◌, ◌+◌, ◌≤◌, length};
ghost use Rattle.rules.specs.Program as program;
ghost use Rattle.replay.specs.Line.{line_of};

use arrayvec::ArrayString;
use itoa::Buffer;

// A text that has room for the longest output. It is made once, in `replay`, and lent: a move would copy all its room.
pub type Text = ArrayString<44075>;

// Begins a text with a line: nothing of what it held stays.
pub fn begin(text: &mut Text, line: &str)
    requires { length line.now ≤ program.longest }
    ensures { text.new.bytes ≡ line.now }
{
    text.clear();
    text.push_str(line);
}

// A number's digits, and what ends it. Inlined, as the end is a constant at each call: it is stored then, where a call would copy it. No `write!`: that answers a Result of which no contract says that it is Ok, and a replay can't fail.
#[inline]
#[tactic(auto, using(crate::proofs::Numbers::printed_decimal))]
fn push_number(text: &mut Text, n: u32, end: &str)
    requires { length text.old.bytes + 10 + length end.now ≤ program.longest }
    ensures bytes { text.new.bytes ≡ text.old.bytes ++ program.decimal n ++ end.now }
    ensures room { length text.new.bytes ≤ length text.old.bytes + 10 + length end.now }
{
    let mut digits = Buffer::new();
    text.push_str(digits.format(n));
    text.push_str(end);
}

// The line of step i, from its four numbers as they stand there.
#[tactic(auto, unfolding(crate::specs::Line::line_of, rules::specs::Program::ascii))]
pub fn push_line(text: &mut Text, i: u32, op: u32, number: u32, value: u32)
    requires { length text.old.bytes + 44 ≤ program.longest }
    ensures { text.new.bytes ≡ text.old.bytes ++ line_of i op number value }
{
    push_number(text, i, " ");
    push_number(text, op, " ");
    push_number(text, number, " ");
    push_number(text, value, "\n");
}

// The last line.
#[tactic(auto, unfolding(rules::specs::Program::total, rules::specs::Program::ascii))]
pub fn push_total(text: &mut Text, accepted: u32, refused: u32, freed: u32)
    requires { length text.old.bytes + 56 ≤ program.longest }
    ensures { text.new.bytes ≡ text.old.bytes ++ program.total accepted refused freed }
{
    text.push_str("accepted ");
    push_number(text, accepted, " refused ");
    push_number(text, refused, " freed ");
    push_number(text, freed, "\n");
}
