// A step on an image that is known to be undamaged. That it is, `Sound`, is asked for and no fact of the image: between the writes of an operation it doesn't hold.
ghost use Rattle.std.specs.Prelude.{◌≡◌, MatchResult};
ghost use Rattle.rules.specs.State.{refused};
ghost use Rattle.rules.specs.Replies.{op_number, why_number};
ghost use Rattle.rules.specs.Step as rule;
ghost use Rattle.rules.proofs.Sound.{Sound};
ghost use Rattle.image.specs.Views.{seen, state};
ghost use Rattle.machine.specs.Answers.{Answered};
ghost use Rattle.machine.specs.Admitted.{Admitted};

use super::named::Named;
use super::{advance, operations, refusals};
use image::view::{Image, View};
use rules::{Kind, Operation, Phase, Reply, Step, Why};

// The operation, past the rows of the table that belong to none: a match and no table of functions, as each takes its own operands.
fn perform(image: &mut Image<'_>, named: Named) -> Reply
    requires { (Sound image.old.layout.settings (state image.old)) × (Admitted image.old.layout.settings (state image.old) named.step) }
    ensures { Answered image.old image.new result (rule.answer image.old.layout.settings (state image.old) named.step) }
{
    let Named { op, step } = named;
    let t = step.thread as usize;
    match op {
        Operation::Allocate => operations::allocate(image),
        Operation::Swap => operations::swap(image, step.a, step.b, step.c),
        Operation::Load => operations::load(image, t, step.a, step.b),
        Operation::Reserve => operations::reserve(image, t),
        Operation::Check => operations::check(image, t),
        Operation::Use => operations::use_slot(&image.view(), t, step.a),
        Operation::Clear => operations::clear(image, t, step.a),
        Operation::Retire => operations::retire(image, t, step.a),
        Operation::Advance => advance::advance(image, t),
        Operation::Deliver => operations::deliver(image, t),
        Operation::Handle => operations::handle(image, t),
    }
}

// The rows 3 to 6 of the table of replies.
fn admit(view: &View<'_>, named: Named) -> Result<(), Why>
    requires { Sound view.now.layout.settings (seen view.now) }
    ensures { MatchResult result (λ _. Admitted view.now.layout.settings (seen view.now) named.step) (λ why. rule.answer view.now.layout.settings (seen view.now) named.step ≡ refused (why_number why)) }
{
    let t = named.step.thread as usize;
    if view.layout.settings.threads <= t {
        return Err(Why::NoSuchThread);
    }
    if refusals::wrong_operand(view.layout.settings, named) {
        return Err(Why::OperandBeyond);
    }
    if (view.word(Kind::Handler, t, 0) != 0) & (named.op != Operation::Handle) {
        return Err(Why::HandlerRunning);
    }
    // an undamaged image has a phase there, so that this `?` never answers
    let at = Phase::try_from(view.word(Kind::Phase, t, 0))?;
    if refusals::allowed(named.op, at) {
        Ok(())
    } else {
        Err(Why::PhaseForbids)
    }
}

// A step, number 1 apart.
pub fn step_on(image: &mut Image<'_>, step: Step) -> Reply
    requires { Sound image.old.layout.settings (state image.old) }
    ensures { Answered image.old image.new result (rule.answer image.old.layout.settings (state image.old) step) }
{
    let op = Operation::try_from(step.op)?;
    let named = Named { op, step };
    admit(&image.view(), named)?;
    perform(image, named)
}
