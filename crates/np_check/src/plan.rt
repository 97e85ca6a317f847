//! The check of a plan.
ghost use Rattle.std.specs.Prelude.{◌≤◌, ◌^◌, length, IfOk};
ghost use Rattle.np_check.specs.PlanEnds.{IsPlanEnd};

use crate::numbers::StepNumbers;
use crate::plan_end::PlanEnd;
use crate::walk::Walk;
use np_flat::Flat;
use np_model::Step;
use std::alloc::{AllocError, Global};

/// Checks a list of steps of at most 2^24: whether it is a flat plan, with its cost; else that the goal doesn't hold at its end,
/// or the first step that isn't applicable. Out of memory is an error.
pub fn check_plan(alloc: Global, flat: &Flat, steps: &[Step]) -> Result<PlanEnd, AllocError>
    requires { length steps.now ≤ 2 ^ 24 }
    ensures { IfOk result (λ end. IsPlanEnd flat.now steps.now end) }
{
    let numbers = StepNumbers::new(alloc, flat.parts().steps.as_slice())?;
    let mut walk = Walk::new(alloc, flat)?;
    for (number, step) in steps.iter().enumerate() {
        if !walk.take(alloc, flat, &numbers, step)? {
            return Ok(PlanEnd::Stuck(number as u64 + 1));
        }
    }
    if flat.is_goal(&walk.state) {
        Ok(PlanEnd::Goal(walk.cost))
    } else {
        Ok(PlanEnd::NoGoal)
    }
}
