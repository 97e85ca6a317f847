//! A task.
ghost use Rattle.std.specs.Prelude.{◌≡◌};
ghost use Rattle.np_model.specs.Tasks.{IsTask};

use crate::task::TaskParts;
use std::marker::Model;

/// A well-formed task, which contracts see as its parts. Each number in it names an item of its list, names of a list are
/// distinct, arguments fit, each list has fewer than 2^32 items, and expressions are at most 256 operators deep.
#[derive(Debug, Drop)]
pub struct Task {
    parts: TaskParts,
}

impl Model for Task {
    ghost use Rattle.np_model.specs.declared.task.TaskParts.{TaskParts};
    ghost use Rattle.np_model.specs.Tasks.{IsTask};
    ghost use Rattle.std.specs.Coded.{codes};
    ghost use Rattle.np_model.specs.contracts.task.Sum as sum;

    ghost Value = { TaskParts };

    ghost coded = { Prim.hlevel (codes, sum.the_row.coded) };

    ghost view = { λ t. t.parts };

    ghost invariant = { λ t. IsTask t.parts };
}

impl Task {
    /// The task with these parts.
    pub fn new(parts: TaskParts) -> Task
        requires { IsTask parts }
        ensures { result ≡ parts }
    {
        Task { parts }
    }

    /// Its parts, which are well-formed.
    pub fn parts(&self) -> &TaskParts
        ensures parts { result.now ≡ self.now }
        ensures kept { IsTask self.now }
    {
        &self.parts
    }
}
