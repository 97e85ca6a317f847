//! The command `list`.
ghost use Rattle.np_scale.specs.Scaling.{IsFlatTaskOf};
ghost use Rattle.np_commands.specs.Listing.{IsListed};

use np_answers::{Answer, Text};
use np_flat::Flat;
use np_list::list_text;
use np_model::Task;
use std::alloc::Global;

/// The answer of `list` to a task and its flat task.
pub fn list_flat(alloc: Global, task: &Task, flat: &Flat) -> Answer
    ensures { IsListed task.now flat.now result }
{
    match list_text(alloc, task.parts(), flat) {
        Ok(text) => Answer::Listed(Text::new(text)),
        Err(_) => Answer::OutOfMemory,
    }
}
