//! The command `list`.
ghost use Rattle.np_answers.specs.Words.{listing};
ghost use Rattle.np_answers.specs.CommandSteps.{told_inputs};
ghost use Rattle.np_planner.specs.RightAnswers.{IsRightTo};

use crate::task_files::held_flat;
use np_answers::{Answer, Inputs};
use np_commands::list_flat;
use np_io::Shelf;
use std::alloc::Global;

/// Gives the text of the flat task of the pair of files that the words name.
pub fn list<S: Shelf>(alloc: Global, inputs: &Inputs<'_>, shelf: &mut S) -> Answer
    ensures { IsRightTo (listing (told_inputs inputs.now)) (S.seen shelf.old) (S.seen shelf.new) result }
{
    match held_flat(alloc, inputs, shelf) {
        Ok(pair) => list_flat(alloc, &pair.task, &pair.flat),
        Err(answer) => answer,
    }
}
