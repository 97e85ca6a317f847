//! Reading a plan.

mod lines;
mod steps;
mod text;

ghost use Rattle.std.specs.Prelude.{◌≡◌, ◌≤◌, List, length, false, IfOk, IfErr};
ghost use Rattle.np_model.specs.declared.task.Step.{Step};
ghost use Rattle.np_plan.specs.Faults.{HasCause, is_memory};
ghost use Rattle.np_plan.specs.Plans.{Spells};

use crate::fault::PlanFault;
use np_model::{Step, Task};
use std::alloc::Global;
use steps::steps_of;
use text::read_text;

/// A plan has at most so many steps.
pub const MOST_STEPS: usize = 1 << 24;

/// Reads a plan of the task: the steps that the bytes spell. The whole text is read first: `At` at its first fault, or
/// `NumberWide` at a stamp of more than 38 digits before that. Then `TooLong` where it has more than 2^24 lines. Then the
/// first line that has a fault decides: `StampOrder` at its stamp, which isn't above the one before, or else `UnknownStep` at
/// its bracket, where it names no step of the task. `Memory` where memory ran out.
pub fn read_plan(alloc: Global, task: &Task, bytes: &[u8]) -> Result<Vec<Step>, PlanFault>
    ensures spelled { IfOk result (λ steps. Spells task.now bytes.now steps.items) }
    ensures few { IfOk result (λ steps. length steps.items ≤ MOST_STEPS) }
    ensures only { IfOk result (λ steps. (other : List Step) → Spells task.now bytes.now other → other ≡ steps.items) }
    ensures cause { IfErr result (HasCause task.now bytes.now) }
    ensures refused { IfErr result (λ fault. is_memory fault ≡ false → (other : List Step) → Spells task.now bytes.now other → length other ≤ MOST_STEPS → ⊥) }
{
    let text = read_text(alloc, bytes)?;
    if text.lines.len() > MOST_STEPS {
        return Err(PlanFault::TooLong);
    }
    steps_of(alloc, task.parts(), text.lines.as_slice())
}
