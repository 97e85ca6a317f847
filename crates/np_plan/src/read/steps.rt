//! The steps that the lines of a plan name.

ghost use Rattle.std.specs.Prelude.{◌≡◌, ◌↔◌, IsTrue, All, IfOk, IfErr, OnOk};
ghost use Rattle.np_model.specs.Tasks.{IsTask};
ghost use Rattle.np_plan.specs.Faults.{IsLineFault, IsLinesFault};
ghost use Rattle.np_plan.specs.Plans.{stamp_of, IsAbove, Rise, NameAll, HasValue};

use crate::fault::PlanFault;
use crate::numbers::Directory;
use crate::plan::PlanLine;
use np_frac::Frac;
use np_model::{Step, TaskParts};
use std::alloc::Global;
use std::cmp::Ordering;

/// Whether a stamp is above the one before, where there are both.
fn is_above(before: &Option<Frac>, stamp: &Option<Frac>) -> bool
    ensures { IsTrue result ↔ IsAbove before.now stamp.now }
{
    match (before, stamp) {
        (Some(before), Some(stamp)) => before.order(stamp) == Ordering::Less,
        _ => true,
    }
}

/// What the stamp of a line stands for. A fault where it isn't above the one before.
fn stamp_after(before: Option<Frac>, line: &PlanLine) -> Result<Option<Frac>, PlanFault>
    requires { HasValue line.now }
    ensures value { IfOk result (λ stamp. stamp ≡ stamp_of line.now) }
    ensures above { OnOk result (IsAbove before (stamp_of line.now)) }
    ensures fault { IfErr result (IsLineFault before line.now) }
{
    let Some(stamp) = &line.stamp else {
        return Ok(None);
    };
    let value = stamp.value();
    if !is_above(&before, &value) {
        return Err(PlanFault::StampOrder(stamp.place));
    }
    Ok(value)
}

/// The steps that the lines name, where their stamps rise.
pub fn steps_of(alloc: Global, task: &TaskParts, lines: &[PlanLine]) -> Result<Vec<Step>, PlanFault>
    requires task { IsTask task.now }
    requires values { All HasValue lines.now }
    ensures rise { OnOk result (Rise lines.now) }
    ensures named { IfOk result (λ steps. NameAll task.now lines.now steps.items) }
    ensures fault { IfErr result (IsLinesFault task.now lines.now) }
{
    let directory = Directory::new(alloc, task)?;
    let mut steps = Vec::with_capacity(alloc, lines.len())?;
    let mut before = None;
    for line in lines {
        before = stamp_after(before, line)?;
        let Some(step) = directory.step_of(alloc, line)? else {
            return Err(PlanFault::UnknownStep(line.place));
        };
        steps.push(step)?;
    }
    Ok(steps)
}
