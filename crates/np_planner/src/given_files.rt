//! The certificate and the plan that a command is given.
ghost use Rattle.std.specs.Prelude.{IfOk, IfErr};
ghost use Rattle.np_planner.specs.GivenFiles.{IsWithoutPlan};
ghost use Rattle.np_planner.specs.GivenSteps.{FindsCertificate, IsPlanFound};

use crate::inputs::read_whole;
use np_answers::{Answer, File};
use np_cert::Certificate;
use np_commands::{certificate_of, steps_of};
use np_io::Shelf;
use np_model::{Step, Task};
use std::alloc::Global;

/// The certificate under a name, or the answer where there is none, or none that is judged so far.
pub fn held_certificate<S: Shelf>(
    alloc: Global,
    name: &str,
    shelf: &mut S,
) -> Result<Certificate, Answer>
    ensures { FindsCertificate name.now (S.seen shelf.old) (S.seen shelf.new) result }
{
    match read_whole(alloc, shelf, name, File::Certificate) {
        Ok(bytes) => certificate_of(alloc, bytes.as_slice()),
        Err(answer) => Err(answer),
    }
}

/// The steps of the task that are under a name, or the answer where there are none.
pub fn held_plan<S: Shelf>(
    alloc: Global,
    task: &Task,
    name: &str,
    shelf: &mut S,
) -> Result<Vec<Step>, Answer>
    ensures found { IfOk result (λ steps. IsPlanFound task.now name.now (S.seen shelf.old) (S.seen shelf.new) steps.items) }
    ensures refused { IfErr result (IsWithoutPlan task.now name.now (S.seen shelf.old) (S.seen shelf.new)) }
{
    match read_whole(alloc, shelf, name, File::Plan) {
        Ok(bytes) => steps_of(alloc, task, bytes.as_slice()),
        Err(answer) => Err(answer),
    }
}
