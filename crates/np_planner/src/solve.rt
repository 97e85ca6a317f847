//! The command `solve`.
ghost use Rattle.std.specs.Prelude.{◌≡◌, ◌≤◌, ◌^◌, false, IfErr, OnOk};
ghost use Rattle.std.specs.Str.{bytes_eq};
ghost use Rattle.np_answers.specs.Words.{solving};
ghost use Rattle.np_answers.specs.CommandSteps.{told_solve};
ghost use Rattle.np_planner.specs.RightAnswers.{IsRightTo};
ghost use Rattle.np_planner.specs.SolveSteps.{WasPut, IsNotPut, Concludes, Finishes};

use crate::task_files::held_flat;
use np_answers::{Answer, File, Solve, SolveAnswer};
use np_commands::{Work, solve_task};
use np_io::{Give, Shelf};
use std::alloc::Global;

/// Searches for a cheapest plan of the pair of files that the words name, and puts its certificate, and then the plan.
pub fn solve<S: Shelf>(alloc: Global, command: &Solve<'_>, shelf: &mut S) -> Answer
    requires few_nodes { command.now.nodes ≤ 2 ^ 24 }
    requires apart { bytes_eq command.now.plan.now command.now.certificate.now ≡ false }
    ensures { IsRightTo (solving (told_solve command.now)) (S.seen shelf.old) (S.seen shelf.new) result }
{
    let pair = match held_flat(alloc, &command.inputs, shelf) {
        Ok(pair) => pair,
        Err(answer) => return answer,
    };
    match solve_task(alloc, &pair.task, &pair.flat, command.nodes) {
        Ok(work) => put_work(command, &work, shelf),
        Err(_) => Answer::OutOfMemory,
    }
}

/// Puts the certificate, then the plan, if there is one, and gives the answer.
fn put_work<S: Shelf>(command: &Solve<'_>, work: &Work, shelf: &mut S) -> Answer
    ensures { Finishes (told_solve command.now) work.now (S.seen shelf.old) (S.seen shelf.new) result }
{
    let text = work.certificate.as_slice();
    match put(shelf, command.certificate, text, File::Certificate) {
        Ok(()) => put_plan(command, work, shelf),
        Err(answer) => answer,
    }
}

/// Puts the plan, if there is one, and gives the answer.
fn put_plan<S: Shelf>(command: &Solve<'_>, work: &Work, shelf: &mut S) -> Answer
    ensures { Concludes command.now.plan.now work.now.plan.items work.now.answer (S.seen shelf.old) (S.seen shelf.new) result }
{
    match work.answer {
        SolveAnswer::Optimal(_) => {
            match put(shelf, command.plan, work.plan.as_slice(), File::Plan) {
                Ok(()) => Answer::Solved(work.answer),
                Err(answer) => answer,
            }
        }
        answer => Answer::Solved(answer),
    }
}

/// Puts a text under a name, or gives the answer where it can't be put.
fn put<S: Shelf>(shelf: &mut S, name: &str, text: &[u8], file: File) -> Result<(), Answer>
    ensures put { OnOk result (WasPut name.now text.now (S.seen shelf.old) (S.seen shelf.new)) }
    ensures unput { IfErr result (IsNotPut file name.now text.now (S.seen shelf.old) (S.seen shelf.new)) }
{
    match shelf.put(name, text) {
        Ok(()) => Ok(()),
        Err(Give::Failed) => Err(Answer::CannotWrite(file)),
        Err(Give::Memory) => Err(Answer::OutOfMemory),
    }
}
