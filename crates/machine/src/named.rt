// A step with its operation by name.
ghost use Rattle.std.specs.Prelude.{◌≡◌};
ghost use Rattle.rules.specs.Replies.{op_number};

use rules::{Operation, Step};

// The operation is the one whose number the step has.
#[derive(Clone, Copy)]
pub struct Named {
    pub op: Operation,
    pub step: Step,
    pub ghost same: { op_number op ≡ step.op },
}
