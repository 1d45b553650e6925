// Of the refusals of the table of replies, 4 and 6: which operands and which phases an operation takes.
ghost use Rattle.std.specs.Prelude.{◌≡◌, ℕ, ◌<◌, slice_index};
ghost use Rattle.rules.specs.Phases as table;
ghost use Rattle.rules.specs.Replies.{op_number, phase_number};
ghost use Rattle.rules.proofs.Limits.{Limits};
ghost use Rattle.rules.proofs.Refused.{operand_wrong};
ghost use Rattle.machine.specs.Operands.{operand_limit};

use super::named::Named;
use rules::{Operation, Phase, Settings};

// Which phases allow each operation: a row an operation, a column a phase. Document 01 names the form: a constant table of tables.
const ALLOWED: [[bool; 8]; 11] = [
    [true, false, false, false, false, false, false, false],
    [true, false, false, false, false, false, false, false],
    [true, false, false, false, false, false, false, false],
    [false, true, false, false, false, false, false, false],
    [false, false, true, false, false, false, false, false],
    [true, false, false, false, false, false, false, false],
    [true, false, false, false, false, false, false, false],
    [true, false, false, false, false, false, false, false],
    [false, false, false, true, true, true, true, true],
    [true, true, true, true, true, true, true, true],
    [true, true, true, true, true, true, true, true],
];

// The phase allows the operation.
#[tactic(auto, unfolding(rules::specs::Phases::allows, rules::specs::Phases::allowed))]
pub fn allowed(op: Operation, phase: Phase) -> bool
    ensures { result ≡ table.allows (op_number op) (phase_number phase) }
{
    ALLOWED[op as usize][phase as usize]
}

// What the first, the second and the third operand must be below: one that isn't listed must be 0.
fn limits(s: Settings, op: Operation) -> [usize; 3]
    requires { Limits s }
    ensures first { slice_index result 0 ≡ operand_limit s (op_number op) 0 }
    ensures second { slice_index result 1 ≡ operand_limit s (op_number op) 1 }
    ensures third { slice_index result 2 ≡ operand_limit s (op_number op) 2 }
{
    match op {
        Operation::Swap => [s.cells, s.records + 1, s.records + 1],
        Operation::Load => [s.slots, s.cells, 1],
        Operation::Use | Operation::Clear => [s.slots, 1, 1],
        Operation::Retire => [s.records + 1, 1, 1],
        Operation::Allocate
        | Operation::Reserve
        | Operation::Check
        | Operation::Advance
        | Operation::Deliver
        | Operation::Handle => [1, 1, 1],
    }
}

// An operand is beyond its limit, one that isn't listed isn't 0, or it is a retire of 0. Of the settings no more is asked than their limits.
pub fn wrong_operand(s: Settings, named: Named) -> bool
    requires { Limits s }
    ensures { result ≡ operand_wrong s named.step }
{
    let Named { op, step } = named;
    let [first, second, third] = limits(s, op);
    let fit = ((step.a as usize) < first)
        & ((step.b as usize) < second)
        & ((step.c as usize) < third);
    !fit | (op == Operation::Retire) & (step.a == 0)
}
