//! Running a list of steps.
ghost use Rattle.std.specs.Prelude.{◌≡◌, [], All, IsTrue, IfOk};
ghost use Rattle.std.specs.Option.{option_copied};
ghost use Rattle.np_model.specs.Steps.{is_step};
ghost use Rattle.np_model.specs.Plans.{start_of};
ghost use Rattle.np_run.specs.Kept.{kept, progress};
ghost use Rattle.np_run.specs.Computing.{computed_all_hold};
ghost use Rattle.np_run.specs.declared.halt.Pause.TheVariants.{Stuck, NoCost};
ghost use Rattle.np_run.specs.Taking.{or_pause, computed_metric, with_cost, with_difference, paid, computed_next, with_action, with_step, goal_answer, run_on, metric_at_start, outcome_of, IsOutcome};
ghost use Rattle.np_run.specs.RunAnswers.{IsAnswer};
ghost use Rattle.np_run.specs.CodeAnswers.{Gives, GivesNew, stopped, halted, ended};

use crate::answers::{RunEnd, RunFault};
use crate::changing::{change, sums_where_applicable};
use crate::computing::{added, all_hold, subtracted, value_of};
use crate::halt::{Halt, Lack, Pause};
use crate::kept_state::KeptState;
use np_frac::{Frac, Scalar};
use np_model::{Action, Step, Sum, Task, TaskParts};
use std::alloc::Global;

/// How far a run has come.
#[derive(Drop)]
pub(crate) struct Running {
    /// The state.
    pub(crate) state: KeptState,
    /// The metric's value there; None where it has none, and without a metric.
    pub(crate) metric: Option<Frac>,
    /// The cost of the steps so far.
    pub(crate) cost: Frac,
}

/// What stops a step, where a missing value stops it with this.
fn stopped(pause: Pause, halt: Halt<Lack>) -> Halt<Pause>
    ensures { result ≡ stopped pause halt }
{
    match halt {
        Halt::Cause(Lack::Missing) => Halt::Cause(pause),
        Halt::Cause(Lack::Wide) => Halt::Cause(Pause::Wide),
        Halt::Memory => Halt::Memory,
    }
}

/// The metric's value; None where it has none, and without a metric.
fn metric_value(
    alloc: Global,
    metric: Option<&Sum>,
    state: &KeptState,
) -> Result<Option<Frac>, Halt<Lack>>
    ensures { Gives result (computed_metric (option_copied metric.entry) (kept state.now)) }
{
    let Some(metric) = metric else {
        return Ok(None);
    };
    match value_of(alloc, &[], state, metric) {
        Ok(value) => Ok(Some(value)),
        Err(Halt::Cause(Lack::Missing)) => Ok(None),
        Err(Halt::Cause(Lack::Wide)) => Err(Halt::Cause(Lack::Wide)),
        Err(Halt::Memory) => Err(Halt::Memory),
    }
}

/// A number, where a missing one stops a step without a cost.
fn or_no_cost(number: Result<Frac, Halt<Lack>>) -> Result<Frac, Halt<Pause>>
    ensures { result ≡ halted NoCost number }
{
    match number {
        Ok(number) => Ok(number),
        Err(halt) => Err(stopped(Pause::NoCost, halt)),
    }
}

/// Adds the cost of a step.
#[tactic(auto, using(crate::proofs::Stopping::gives_halted))]
fn add_cost(run: &mut Running, metric: Option<Frac>, more: &Frac) -> Result<(), Halt<Pause>>
    ensures { GivesNew result (progress run.new) (with_cost (progress run.old) metric more.now) }
{
    run.cost = or_no_cost(added(&run.cost, more))?;
    run.metric = metric;
    Ok(())
}

/// Adds the metric after a step less the metric before it.
#[tactic(auto, using(crate::proofs::Stopping::gives_halted))]
fn add_difference(
    alloc: Global,
    run: &mut Running,
    metric: &Sum,
    before: &Frac,
) -> Result<(), Halt<Pause>>
    ensures { GivesNew result (progress run.new) (with_difference (progress run.old) metric.now before.now) }
{
    let after = or_no_cost(value_of(alloc, &[], &run.state, metric))?;
    let more = or_no_cost(subtracted(&after, before))?;
    add_cost(run, Some(after), &more)
}

/// Adds what a step cost that led to this state.
fn pay(alloc: Global, run: &mut Running, metric: Option<&Sum>) -> Result<(), Halt<Pause>>
    ensures { GivesNew result (progress run.new) (paid (progress run.old) (option_copied metric.entry)) }
{
    let Some(metric) = metric else {
        return add_cost(run, None, &Frac::one());
    };
    let Some(before) = run.metric else {
        return Err(Halt::Cause(Pause::NoCost));
    };
    add_difference(alloc, run, metric, &before)
}

/// Changes a state as a step of the action does, where it is applicable.
fn apply(
    alloc: Global,
    action: &Action,
    objects: &[u32],
    state: &mut KeptState,
) -> Result<(), Halt<Lack>>
    ensures { GivesNew result (kept state.new) (computed_next action.now objects.now (kept state.old)) }
{
    let sums = sums_where_applicable(alloc, action, objects, state)?;
    change(alloc, action, objects, state, &sums)
}

/// The same, where a step that isn't applicable is stuck.
#[tactic(auto, using(crate::proofs::Stopping::stops_paused))]
fn apply_or_stuck(
    alloc: Global,
    action: &Action,
    objects: &[u32],
    state: &mut KeptState,
) -> Result<(), Halt<Pause>>
    ensures { GivesNew result (kept state.new) (or_pause Stuck (computed_next action.now objects.now (kept state.old))) }
{
    match apply(alloc, action, objects, state) {
        Ok(()) => Ok(()),
        Err(halt) => Err(stopped(Pause::Stuck, halt)),
    }
}

/// Goes on by a step of an action.
fn take_action(
    alloc: Global,
    task: &TaskParts,
    action: &Action,
    objects: &[u32],
    run: &mut Running,
) -> Result<(), Halt<Pause>>
    ensures { GivesNew result (progress run.new) (with_action task.now action.now objects.now (progress run.old)) }
{
    apply_or_stuck(alloc, action, objects, &mut run.state)?;
    pay(alloc, run, task.metric.as_ref())
}

/// Goes on by a step.
fn take_step(
    alloc: Global,
    task: &TaskParts,
    step: &Step,
    run: &mut Running,
) -> Result<(), Halt<Pause>>
    ensures { GivesNew result (progress run.new) (with_step task.now step.now (progress run.old)) }
{
    match task.actions.as_slice().get(step.action as usize) {
        Some(action) => take_action(alloc, task, action, step.objects.as_slice(), run),
        None => Err(Halt::Cause(Pause::Stuck)),
    }
}

/// The answer where the step of this number stops the run.
fn ended(number: u64, halt: Halt<Pause>) -> Result<RunEnd, RunFault>
    ensures { result ≡ ended number halt }
{
    match halt {
        Halt::Cause(Pause::Stuck) => Ok(RunEnd::Stuck(number)),
        Halt::Cause(Pause::NoCost) => Ok(RunEnd::NoCost(number)),
        Halt::Cause(Pause::Wide) => Err(RunFault::Wide(number)),
        Halt::Memory => Err(RunFault::Memory),
    }
}

/// The answer at the end of the steps, where the goal has this number.
fn goal_answer(
    alloc: Global,
    task: &TaskParts,
    number: u64,
    run: &Running,
) -> Result<RunEnd, RunFault>
    ensures { IsOutcome result (goal_answer number run.now.cost (computed_all_hold [] (progress run.now).state task.now.goal)) }
{
    match all_hold(alloc, &[], &run.state, task.goal.as_slice()) {
        Ok(true) => Ok(RunEnd::Goal(run.cost)),
        Ok(false) => Ok(RunEnd::NoGoal),
        Err(Halt::Cause(Lack::Missing)) => Ok(RunEnd::NoGoal),
        Err(Halt::Cause(Lack::Wide)) => Err(RunFault::Wide(number)),
        Err(Halt::Memory) => Err(RunFault::Memory),
    }
}

/// Runs all of the steps.
#[tactic(auto, using(crate::proofs::Stopping::ends_paused))]
fn run_all(
    alloc: Global,
    task: &TaskParts,
    steps: &[Step],
    run: Running,
) -> Result<RunEnd, RunFault>
    ensures { IsOutcome result (run_on task.now 1 steps.now (progress run)) }
{
    let mut run = run;
    for (number, step) in steps.iter().enumerate() {
        if let Err(halt) = take_step(alloc, task, step, &mut run) {
            return ended(number as u64 + 1, halt);
        }
    }
    goal_answer(alloc, task, steps.len() as u64 + 1, &run)
}

/// The metric at the start, which belongs to step 1. Without steps it isn't computed.
fn metric_at_start(
    alloc: Global,
    task: &TaskParts,
    steps: &[Step],
    start: &KeptState,
) -> Result<Option<Frac>, Halt<Lack>>
    requires { kept start.now ≡ start_of task.now }
    ensures { Gives result (metric_at_start task.now steps.now) }
{
    if steps.is_empty() {
        return Ok(None);
    }
    metric_value(alloc, task.metric.as_ref(), start)
}

/// Runs a list of steps from the start of the task, and says what it comes to.
///
/// Each step is to be one of the task's. `Goal` is for a plan, with its cost. Else the first step that isn't applicable
/// (`Stuck`) or has no cost (`NoCost`) decides, and where all steps run and have costs, the goal doesn't hold at the end
/// (`NoGoal`). `Wide` is for the first step, in the order of computing, in which a number gets too wide; the other answers
/// yield to it. A step costs what the metric grows by, or 1 without a metric.
///
/// # Errors
///
/// `Wide` and `Memory`, as said above and in [`RunFault`].
pub fn run(alloc: Global, task: &Task, steps: &[Step]) -> Result<RunEnd, RunFault>
    requires { All (λ step. IsTrue (is_step task.now step)) steps.now }
    ensures computed { IsOutcome result (outcome_of task.now steps.now) }
    ensures answer { IfOk result (λ end. IsAnswer task.now steps.now end) }
{
    run_parts(alloc, task.parts(), steps)
}

/// The same of the parts of a task, also where they don't make a task, or steps aren't the task's. What the answer says in
/// the words of planning is promised where each step is one of the task's.
///
/// # Errors
///
/// As for [`run`].
#[tactic(auto, using(crate::proofs::Outcomes::answer_from_outcome))]
pub fn run_parts(alloc: Global, task: &TaskParts, steps: &[Step]) -> Result<RunEnd, RunFault>
    ensures computed { IsOutcome result (outcome_of task.now steps.now) }
    ensures answer { All (λ step. IsTrue (is_step task.now step)) steps.now → IfOk result (λ end. IsAnswer task.now steps.now end) }
{
    run_from_start(alloc, task, steps)
}

/// What the parts of a task and a list of steps come to.
fn run_from_start(alloc: Global, task: &TaskParts, steps: &[Step]) -> Result<RunEnd, RunFault>
    ensures { IsOutcome result (outcome_of task.now steps.now) }
{
    let state = KeptState::start(alloc, task)?;
    let metric = match metric_at_start(alloc, task, steps, &state) {
        Ok(metric) => metric,
        Err(Halt::Cause(Lack::Missing)) => None,
        Err(Halt::Cause(Lack::Wide)) => return Err(RunFault::Wide(1)),
        Err(Halt::Memory) => return Err(RunFault::Memory),
    };
    let run = Running {
        state,
        metric,
        cost: Frac::zero(),
    };
    run_all(alloc, task, steps, run)
}
