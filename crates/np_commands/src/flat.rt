//! The flat task of a task, or why it has none.
ghost use Rattle.std.specs.Prelude.{◌≡◌, ◌++◌, Some, IfOk, IfErr, string_bytes, codes};
ghost use Rattle.np_bind.specs.declared.bound.Spot.TheVariants as at;
ghost use Rattle.np_scale.specs.Scaling.{IsFlatTaskOf};
ghost use Rattle.np_list.specs.Names.{term_text, step_text};
ghost use Rattle.np_answers.specs.declared.answer.refusal.Refusal.TheVariants as refusal;
ghost use Rattle.np_answers.specs.declared.answer.Answer.TheVariants as answer;
ghost use Rattle.np_commands.specs.FlatTasks.{spot_text, bind_refusal, scale_refusal, IsNotFlat};
ghost use Rattle.np_commands.specs.Steps.{IsRefusal};

use np_answers::{Answer, Refusal, SpotReason, TaskReason, Text};
use np_bind::{BindFault, Spot, bind};
use np_flat::Flat;
use np_list::{push_step, push_term};
use np_model::{Step, Task, TaskParts, Term};
use np_scale::{ScaleFault, scale};
use std::alloc::{AllocError, Global};

/// The flat task of a task; where it has none, or memory ran out, the answer that says so: the first fault of binding, or else of
/// scaling.
pub fn flat_task(alloc: Global, task: &Task) -> Result<Flat, Answer>
    ensures flat { IfOk result (IsFlatTaskOf task.now) }
    ensures refused { IfErr result (IsNotFlat task.now) }
{
    let bound = match bind(alloc, task) {
        Ok(bound) => bound,
        Err(fault) => return Err(unbound(alloc, task.parts(), &fault)),
    };
    match scale(alloc, &bound) {
        Ok(flat) => Ok(flat),
        Err(fault) => Err(unscaled(alloc, task.parts(), &fault)),
    }
}

/// The answer where a task isn't bound.
fn unbound(alloc: Global, task: &TaskParts, fault: &BindFault) -> Answer
    ensures { IsRefusal (bind_refusal task.now fault.now) result }
{
    match fault {
        BindFault::TooManyTuples => of_task(TaskReason::TooManyBindings),
        BindFault::TooManySteps => of_task(TaskReason::TooManySteps),
        BindFault::NotLinear(spot) => at_spot(alloc, task, SpotReason::NotLinear, spot),
        BindFault::GoalUndefined => of_task(TaskReason::GoalUndefined),
        BindFault::MetricUndefined => of_task(TaskReason::MetricUndefined),
        BindFault::NumberWide(spot) => at_spot(alloc, task, SpotReason::NumberWide, spot),
        BindFault::Memory => Answer::OutOfMemory,
    }
}

/// The answer where a bound task isn't scaled.
fn unscaled(alloc: Global, task: &TaskParts, fault: &ScaleFault) -> Answer
    ensures { IsRefusal (scale_refusal task.now fault.now) result }
{
    match fault {
        ScaleFault::TooManyFacts => of_task(TaskReason::TooManyFacts),
        ScaleFault::TooManyValues => of_task(TaskReason::TooManyValues),
        ScaleFault::TooManySubgoals => of_task(TaskReason::TooManySubgoals),
        ScaleFault::UnitWide => of_task(TaskReason::UnitWide),
        ScaleFault::NumberWide(spot) => at_spot(alloc, task, SpotReason::NumberWide, spot),
        ScaleFault::FormLong(spot) => at_spot(alloc, task, SpotReason::FormLong, spot),
        ScaleFault::CostNegative(step) => at_step(alloc, task, SpotReason::CostNegative, step),
        ScaleFault::CostNotWhole(step) => at_step(alloc, task, SpotReason::CostNotWhole, step),
        ScaleFault::CostWide(step) => at_step(alloc, task, SpotReason::CostWide, step),
        ScaleFault::Memory => Answer::OutOfMemory,
    }
}

/// The refusal of a task for this reason.
fn of_task(reason: TaskReason) -> Answer
    ensures { result ≡ answer.Refused (refusal.Task reason) }
{
    Answer::Refused(Refusal::Task(reason))
}

/// The refusal of a task for this reason at a spot.
fn at_spot(alloc: Global, task: &TaskParts, reason: SpotReason, spot: &Spot) -> Answer
    ensures { IsRefusal (Some (refusal.AtSpot reason (spot_text task.now spot.now))) result }
{
    match spot_text(alloc, task, spot) {
        Ok(text) => Answer::Refused(Refusal::AtSpot(reason, Text::new(text))),
        Err(_) => Answer::OutOfMemory,
    }
}

/// The refusal of a task for this reason at a step.
fn at_step(alloc: Global, task: &TaskParts, reason: SpotReason, step: &Step) -> Answer
    ensures { IsRefusal (Some (refusal.AtSpot reason (spot_text task.now (at.Step step.now)))) result }
{
    match step_spot(alloc, task, step) {
        Ok(text) => Answer::Refused(Refusal::AtSpot(reason, Text::new(text))),
        Err(_) => Answer::OutOfMemory,
    }
}

/// The words for a spot, by the names of the task. Out of memory is the only error.
fn spot_text(alloc: Global, task: &TaskParts, spot: &Spot) -> Result<String, AllocError>
    ensures { IfOk result (λ text. string_bytes text ≡ spot_text task.now spot.now) }
{
    match spot {
        Spot::Step(step) => step_spot(alloc, task, step),
        Spot::Value(term) => term_spot(alloc, task, term),
        Spot::Goal => String::from_str(alloc, "goal"),
        Spot::Metric => String::from_str(alloc, "metric"),
    }
}

/// The words for a step. Out of memory is the only error.
fn step_spot(alloc: Global, task: &TaskParts, step: &Step) -> Result<String, AllocError>
    ensures { IfOk result (λ text. string_bytes text ≡ codes "step " ++ step_text task.now step.now) }
{
    let mut text = String::from_str(alloc, "step ")?;
    push_step(&mut text, task, step)?;
    Ok(text)
}

/// The words for a term. Out of memory is the only error.
fn term_spot(alloc: Global, task: &TaskParts, term: &Term) -> Result<String, AllocError>
    ensures { IfOk result (λ text. string_bytes text ≡ codes "value " ++ term_text task.now term.now) }
{
    let mut text = String::from_str(alloc, "value ")?;
    push_term(&mut text, task, term)?;
    Ok(text)
}
