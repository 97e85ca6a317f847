//! The bound task of a task.
ghost use Rattle.std.specs.Prelude.{◌≡◌, ◌<◌, ◌^◌, [], IfOk, length};
ghost use Rattle.np_model.specs.Plans.{start_values};
ghost use Rattle.np_linear.specs.Answers.{Gives};
ghost use Rattle.np_bind.specs.Answers.{Answers};
ghost use Rattle.np_bind.specs.Grounding.{left_of_condition, or_never, left_of_goal, linear_metric};
ghost use Rattle.np_bind.specs.Binding.{at_spot, bound_from, bind_task};
ghost use Rattle.np_bind.specs.Trying.{steps_and_goal};

use crate::bound::{BindFault, BoundCond, BoundParts, BoundStep, BoundTask, Spot};
use crate::counting::has_too_many;
use crate::enumerating::kept_steps;
use crate::grounding::left_of_condition;
use crate::known::Known;
use crate::starting::start_values;
use np_frac::Frac;
use np_linear::{Finding, Halt, Linear};
use np_model::{Atom, Cond, Task, TaskParts, Term};
use sqlite_items::Items;
use std::alloc::{AllocError, Global};

/// The metric as a linear sum.
fn linear_metric(alloc: Global, known: &Known<'_>) -> Result<Option<Linear>, Halt<Finding>>
    ensures { Gives result (linear_metric known.now.task known.now.values known.now.task.metric) }
{
    match &known.task().metric {
        None => Ok(None),
        Some(metric) => {
            let linear = known.linear_of(alloc, &[], metric)?;
            Ok(Some(linear))
        }
    }
}

/// The metric as a linear sum, or the fault.
fn metric_or_fault(alloc: Global, known: &Known<'_>) -> Result<Option<Linear>, BindFault>
    ensures { Answers result (at_spot Spot.Metric BindFault.MetricUndefined (linear_metric known.now.task known.now.values known.now.task.metric)) }
{
    match linear_metric(alloc, known) {
        Ok(metric) => Ok(metric),
        Err(Halt::Cause(Finding::Fails)) => Err(BindFault::MetricUndefined),
        Err(Halt::Cause(Finding::Missing)) => Err(BindFault::MetricUndefined),
        Err(Halt::Cause(Finding::NotLinear)) => Err(BindFault::NotLinear(Spot::Metric)),
        Err(Halt::Cause(Finding::Wide)) => Err(BindFault::NumberWide(Spot::Metric)),
        Err(Halt::Memory) => Err(BindFault::Memory),
    }
}

/// What is left of a condition of the goal; one that holds in no state stays as `Never`.
fn left_or_never(
    alloc: Global,
    known: &Known<'_>,
    condition: &Cond,
) -> Result<Items<BoundCond>, Halt<Finding>>
    ensures { Gives result (or_never (left_of_condition known.now.task known.now.values [] condition.now)) }
{
    match left_of_condition(alloc, known, &[], condition) {
        Ok(left) => Ok(left),
        Err(Halt::Cause(Finding::Fails)) => {
            let mut never = Items::new(alloc);
            never.push(BoundCond::Never)?;
            Ok(never)
        }
        Err(Halt::Cause(Finding::Missing)) => Err(Halt::Cause(Finding::Missing)),
        Err(Halt::Cause(Finding::NotLinear)) => Err(Halt::Cause(Finding::NotLinear)),
        Err(Halt::Cause(Finding::Wide)) => Err(Halt::Cause(Finding::Wide)),
        Err(Halt::Memory) => Err(Halt::Memory),
    }
}

/// What is left of the goal.
fn left_of_goal(alloc: Global, known: &Known<'_>) -> Result<Items<BoundCond>, Halt<Finding>>
    ensures { Gives result (left_of_goal known.now.task known.now.values) }
{
    let mut all = Items::new(alloc);
    for condition in known.task().goal.as_slice() {
        let left = left_or_never(alloc, known, condition)?;
        all.append(left)?;
    }
    Ok(all)
}

/// What is left of the goal, or the fault.
fn goal_or_fault(alloc: Global, known: &Known<'_>) -> Result<Items<BoundCond>, BindFault>
    ensures { Answers result (at_spot Spot.Goal BindFault.GoalUndefined (left_of_goal known.now.task known.now.values)) }
{
    match left_of_goal(alloc, known) {
        Ok(goal) => Ok(goal),
        Err(Halt::Cause(Finding::Fails)) => Err(BindFault::GoalUndefined),
        Err(Halt::Cause(Finding::Missing)) => Err(BindFault::GoalUndefined),
        Err(Halt::Cause(Finding::NotLinear)) => Err(BindFault::NotLinear(Spot::Goal)),
        Err(Halt::Cause(Finding::Wide)) => Err(BindFault::NumberWide(Spot::Goal)),
        Err(Halt::Memory) => Err(BindFault::Memory),
    }
}

/// The steps that are kept, and what is left of the goal.
fn steps_and_goal(
    alloc: Global,
    task: &TaskParts,
    values: &[(Term, Frac)],
) -> Result<(Items<BoundStep>, Items<BoundCond>), BindFault>
    requires objects { length task.now.objects < 2 ^ 32 }
    requires actions { length task.now.actions < 2 ^ 32 }
    ensures { Answers result (steps_and_goal task.now values.now) }
{
    let known = Known::new(alloc, task, values)?;
    let metric = metric_or_fault(alloc, &known)?;
    let steps = kept_steps(alloc, &known, &metric)?;
    let goal = goal_or_fault(alloc, &known)?;
    Ok((steps, goal))
}

/// A copy of atoms.
fn copy_atoms(alloc: Global, atoms: &[Atom]) -> Result<Items<Atom>, AllocError>
    ensures { IfOk result (λ copy. copy ≡ atoms.now) }
{
    let mut copy = Items::new(alloc);
    for atom in atoms {
        copy.push(atom.copy(alloc)?)?;
    }
    Ok(copy)
}

/// The parts of the bound task for these values at the start.
fn bound_from(
    alloc: Global,
    task: &TaskParts,
    values: Items<(Term, Frac)>,
) -> Result<BoundParts, BindFault>
    requires objects { length task.now.objects < 2 ^ 32 }
    requires actions { length task.now.actions < 2 ^ 32 }
    ensures { Answers result (bound_from task.now values) }
{
    let (steps, goal) = steps_and_goal(alloc, task, values.as_slice())?;
    let atoms = copy_atoms(alloc, task.atoms.as_slice())?;
    Ok(BoundParts {
        atoms,
        values,
        steps,
        goal,
    })
}

/// The parts of the bound task.
#[tactic(auto, unfolding(crate::specs::Binding::bind_task))]
fn bind_parts(alloc: Global, task: &TaskParts) -> Result<BoundParts, BindFault>
    requires objects { length task.now.objects < 2 ^ 32 }
    requires actions { length task.now.actions < 2 ^ 32 }
    ensures { Answers result (bind_task task.now) }
{
    if has_too_many(task) {
        return Err(BindFault::TooManyTuples);
    }
    let values = start_values(alloc, task)?;
    bound_from(alloc, task, values)
}

/// The bound task of a task. A fault is the first in order: the number of bindings, then the metric, then the bindings in order of
/// actions and objects, each by the first finding in order of text, then the goal. `Memory` may come at any call, and is the only fault where none of these is.
pub fn bind(alloc: Global, task: &Task) -> Result<BoundTask, BindFault>
    ensures { Answers result (bind_task task.now) }
{
    let parts = bind_parts(alloc, task.parts())?;
    Ok(BoundTask::new(parts))
}
