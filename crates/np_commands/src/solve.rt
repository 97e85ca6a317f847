//! The command `solve`.
ghost use Rattle.std.specs.Prelude.{◌≡◌, ◌<◌, ◌≤◌, ◌^◌, All, Some, length, IfOk};
ghost use Rattle.np_flat.specs.Plans.{step_at};
ghost use Rattle.np_scale.specs.Scaling.{IsFlatTaskOf};
ghost use Rattle.np_commands.specs.Solving.{IsWorkOn};
ghost use Rattle.np_commands.specs.Steps.{StandFor, ArePlanned, IsPrinted, answer_of};

use np_answers::SolveAnswer;
use np_evidence::{End, solve_flat};
use np_flat::{Flat, Parts};
use np_model::{Step, Task};
use np_plan::print_plan;
use std::alloc::{AllocError, Global};

/// What the work on a task comes to.
#[derive(Drop)]
pub struct Work {
    /// The text of the certificate.
    pub certificate: Vec<u8>,
    /// The text of a cheapest plan, where one was found; else it is empty.
    pub plan: Vec<u8>,
    /// The answer, once both are put.
    pub answer: SolveAnswer,
}

/// Searches for a cheapest plan of a task over its flat task, expanding at most so many states, and writes the certificate of what
/// was expanded. Out of memory is the only error.
pub fn solve_task(alloc: Global, task: &Task, flat: &Flat, nodes: u32) -> Result<Work, AllocError>
    requires flat { IsFlatTaskOf task.now flat.now }
    requires few { nodes ≤ 2 ^ 24 }
    ensures { IfOk result (IsWorkOn task.now flat.now nodes) }
{
    // For the proof, which learns by this call that the task is well-formed.
    let _parts = task.parts();
    let outcome = solve_flat(alloc, flat, nodes)?;
    let plan = plan_text(alloc, task, flat.parts(), &outcome.end)?;
    Ok(Work {
        certificate: outcome.text,
        plan,
        answer: answer_of(&outcome.end, nodes),
    })
}

/// The text of the plan that a search has found; empty where it has found none. Out of memory is the only error.
fn plan_text(alloc: Global, task: &Task, flat: &Parts, end: &End) -> Result<Vec<u8>, AllocError>
    requires { ArePlanned task.now flat.now end.now }
    ensures { IfOk result (λ text. IsPrinted task.now flat.now end.now text.items) }
{
    match end {
        End::Plan(numbers, _) => {
            let steps = numbered_steps(alloc, flat, numbers.as_slice())?;
            print_plan(alloc, task, steps.as_slice())
        }
        End::NoPlan | End::Spent(_) => Ok(Vec::new(alloc)),
    }
}

/// The steps that numbers stand for. Out of memory is the only error.
fn numbered_steps(alloc: Global, flat: &Parts, numbers: &[u32]) -> Result<Vec<Step>, AllocError>
    requires { All (λ n. n < length flat.now.steps) numbers.now }
    ensures { IfOk result (λ steps. StandFor flat.now numbers.now steps.items) }
{
    let mut steps = Vec::with_capacity(alloc, numbers.len())?;
    for number in numbers {
        steps.push(step_of(alloc, flat, *number)?)?;
    }
    Ok(steps)
}

/// The step that a number stands for. Out of memory is the only error.
fn step_of(alloc: Global, flat: &Parts, number: u32) -> Result<Step, AllocError>
    requires { number < length flat.now.steps }
    ensures { IfOk result (λ step. step_at flat.now number ≡ Some step) }
{
    flat.steps.as_slice()[number as usize].step.copy(alloc)
}

/// The answer after such an end of a search with this budget.
fn answer_of(end: &End, nodes: u32) -> SolveAnswer
    ensures { result ≡ answer_of nodes end.now }
{
    match end {
        End::Plan(_, cost) => SolveAnswer::Optimal(*cost),
        End::NoPlan => SolveAnswer::Unsolvable,
        End::Spent(bound) => SolveAnswer::Spent(nodes, *bound),
    }
}
