//! What the planner says.
ghost use Rattle.std.specs.Prelude.{◌≡◌, ◌≤◌, ◌⊎◌};
ghost use Rattle.np_answers.specs.Texts.{status_of};
ghost use Rattle.np_answers.specs.Output.{IsAnsweredBy, IsPushed};

use crate::answer::Answer;
use np_io::{Give, Sink};
use std::alloc::Global;

/// Pushes an answer, and gives the status to end with.
pub fn say<O: Sink>(alloc: Global, answer: Answer, out: &mut O) -> u8
    ensures given { IsAnsweredBy answer (O.seen out.old) (O.seen out.new) result }
    ensures later { (O.seen out.old).faults ≤ (O.seen out.new).faults }
{
    let status = answer.status();
    match answer.text(alloc) {
        Ok(text) => push(text.as_bytes(), status, out),
        Err(_) => push(b"Out of memory\n", 7, out),
    }
}

/// Pushes a text that goes with a status, and gives the status to end with.
fn push<O: Sink>(text: &[u8], status: u8, out: &mut O) -> u8
    ensures given { IsPushed text.now status (O.seen out.old) (O.seen out.new) result }
    ensures later { (O.seen out.old).faults ≤ (O.seen out.new).faults }
{
    match out.push(text) {
        Ok(()) => status,
        Err(Give::Failed) => 5,
        Err(Give::Memory) => 7,
    }
}
