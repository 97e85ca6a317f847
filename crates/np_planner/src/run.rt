//! The command `run`.
ghost use Rattle.np_answers.specs.Words.{running};
ghost use Rattle.np_answers.specs.CommandSteps.{told_run};
ghost use Rattle.np_planner.specs.RightAnswers.{IsRightTo};

use crate::given_files::held_plan;
use crate::task_files::held_task;
use np_answers::{Answer, Run};
use np_commands::run_steps;
use np_io::Shelf;
use std::alloc::Global;

/// Runs the plan that the words name, on the pair of files that they name.
pub fn run<S: Shelf>(alloc: Global, command: &Run<'_>, shelf: &mut S) -> Answer
    ensures { IsRightTo (running (told_run command.now)) (S.seen shelf.old) (S.seen shelf.new) result }
{
    let task = match held_task(alloc, &command.inputs, shelf) {
        Ok(task) => task,
        Err(answer) => return answer,
    };
    match held_plan(alloc, &task, command.plan, shelf) {
        Ok(steps) => run_steps(alloc, &task, steps.as_slice()),
        Err(answer) => answer,
    }
}
