//! A run of steps, one after the other.
ghost use Rattle.std.specs.Prelude.{◌≡◌, ◌<◌, [], length, IfOk};
ghost use Rattle.np_flat.specs.Flats.{IsFlat};
ghost use Rattle.np_check.specs.Walks.{IsReady, HasRun, IsNumberTaken, IsTaken};

use crate::numbers::StepNumbers;
use np_flat::{Flat, FlatState};
use np_model::Step;
use sqlite_items::Items;
use std::alloc::{AllocError, Global};
use std::mem;

/// What a run has come to.
#[derive(Drop)]
pub struct Walk {
    /// The state that it has led to.
    pub state: FlatState,
    /// What its steps cost together.
    pub cost: u64,
    // Memory for the next state, whatever it holds.
    spare: FlatState,
}

impl Walk {
    /// The run of no steps. Out of memory is an error.
    pub fn new(alloc: Global, flat: &Flat) -> Result<Walk, AllocError>
        ensures { IfOk result (HasRun flat.now []) }
    {
        let start = &flat.parts().start;
        let facts = Items::from_slice(alloc, start.facts.as_slice())?;
        let values = Items::from_slice(alloc, start.values.as_slice())?;
        Ok(Walk {
            state: FlatState { facts, values },
            cost: 0,
            spare: FlatState {
                facts: Items::new(alloc),
                values: Items::new(alloc),
            },
        })
    }

    /// Goes on by a step, where it is one of the flat task that is applicable; else the answer is no. Out of memory is an error.
    pub fn take(
        &mut self,
        alloc: Global,
        flat: &Flat,
        numbers: &StepNumbers<'_>,
        step: &Step,
    ) -> Result<bool, AllocError>
        requires flat { IsFlat flat.now }
        requires ready { IsReady flat.now self.old }
        requires numbers { numbers.now ≡ flat.now.steps }
        ensures { IfOk result (IsTaken flat.now step.now self.old self.new) }
    {
        match numbers.number(step) {
            Some(number) => self.take_number(alloc, flat, number),
            None => Ok(false),
        }
    }

    /// Goes on by the step of this number, where it is applicable; else the answer is no. Out of memory is an error.
    fn take_number(&mut self, alloc: Global, flat: &Flat, number: usize) -> Result<bool, AllocError>
        requires ready { IsReady flat.now self.old }
        requires number { number < length flat.now.steps }
        ensures { IfOk result (IsNumberTaken flat.now number self.old self.new) }
    {
        let steps = flat.parts().steps.as_slice();
        let step = number as u32;
        if !flat.applicable(step, &self.state) {
            return Ok(false);
        }
        flat.after_in(alloc, step, &self.state, &mut self.spare)?;
        mem::swap(&mut self.state, &mut self.spare);
        self.cost += steps[number].cost;
        Ok(true)
    }
}
