//! The numbers of steps.
ghost use Rattle.std.specs.Prelude.{◌≡◌, length, IfOk, MatchOption};

use indexmap::IndexMap;
use np_flat::FlatStep;
use np_model::Step;
use std::alloc::{AllocError, Global};
use std::marker::Model;

/// The steps of a flat task, with the number of each step that they stand for. Contracts see the steps.
#[derive(Drop)]
pub struct StepNumbers<'a> {
    steps: &'a [FlatStep],
    numbers: IndexMap<&'a Step, usize>,
}

impl<'a> Model for StepNumbers<'a> {
    ghost use Rattle.std.specs.Prelude.{List, length};
    ghost use Rattle.np_flat.specs.declared.parts.FlatStep.{FlatStep};
    ghost use Rattle.np_check.specs.Walks.{AreNumbered};

    ghost Value = { List FlatStep };

    ghost view = { λ n. n.steps.now };

    ghost invariant = { λ n. AreNumbered n.numbers n.steps.now (length n.steps.now) };
}

impl<'a> StepNumbers<'a> {
    ghost use Rattle.np_check.specs.Walks.{IsNumberOf, HasNoNumber};

    /// The numbers of these steps. Out of memory is an error.
    pub fn new(alloc: Global, steps: &'a [FlatStep]) -> Result<StepNumbers<'a>, AllocError>
        ensures { IfOk result (λ n. n ≡ steps.now) }
    {
        let mut numbers = IndexMap::with_capacity(alloc, steps.len())?;
        for number in 0..steps.len() {
            numbers.insert(&steps[number].step, number)?;
        }
        Ok(StepNumbers { steps, numbers })
    }

    /// A number that stands for a step; None where none does.
    pub fn number(&self, step: &Step) -> Option<usize>
        ensures { MatchOption result (HasNoNumber self.now (length self.now) step.now) (IsNumberOf self.now step.now) }
    {
        self.numbers.get(&step).copied()
    }
}
