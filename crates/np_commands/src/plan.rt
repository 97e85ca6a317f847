//! The steps that the bytes of a plan spell.
ghost use Rattle.std.specs.Prelude.{◌≡◌, IfOk, IfErr};
ghost use Rattle.np_commands.specs.Plans.{SpellsPlan, IsNoPlan};
ghost use Rattle.np_commands.specs.Steps.{no_plan};

use np_answers::{Answer, File, Refusal};
use np_model::{Step, Task};
use np_plan::{PlanFault, read_plan};
use std::alloc::Global;

/// The steps that the bytes of a plan spell; where they spell none, or memory ran out, the answer that says so: the first cause.
pub fn steps_of(alloc: Global, task: &Task, bytes: &[u8]) -> Result<Vec<Step>, Answer>
    ensures plan { IfOk result (λ steps. SpellsPlan task.now bytes.now steps.items) }
    ensures refused { IfErr result (IsNoPlan task.now bytes.now) }
{
    match read_plan(alloc, task, bytes) {
        Ok(steps) => Ok(steps),
        Err(fault) => Err(no_plan(fault)),
    }
}

/// The answer where the bytes of a plan have this fault.
fn no_plan(fault: PlanFault) -> Answer
    ensures { result ≡ no_plan fault }
{
    match fault {
        PlanFault::At(place) => Answer::Refused(Refusal::Syntax(File::Plan, place)),
        PlanFault::NumberWide(place) => Answer::Refused(Refusal::NumberWide(File::Plan, place)),
        PlanFault::TooLong => Answer::Refused(Refusal::TooLong(File::Plan)),
        PlanFault::StampOrder(place) => Answer::Refused(Refusal::StampOrder(place)),
        PlanFault::UnknownStep(place) => Answer::Refused(Refusal::UnknownStep(place)),
        PlanFault::Memory => Answer::OutOfMemory,
    }
}
