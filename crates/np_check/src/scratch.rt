//! What is used again from step to step.

use crate::tables::Tables;
use np_flat::FlatState;
use sqlite_items::Items;
use std::alloc::{AllocError, Global};

/// Memory for a state, and guesses where entries are. Whatever they hold, the verdict is the same, so no clause speaks of
/// them.
#[derive(Drop)]
pub struct Scratch {
    /// The state that the last step led to.
    pub after: FlatState,
    /// For tables.
    pub tables: Tables,
    // By step, 1 more than the number of the entry that it last led to. Where entries are in the order of a search, the same
    // step from the next entry mostly leads there.
    guesses: Vec<usize>,
}

impl Scratch {
    /// For so many steps. Out of memory is an error.
    pub fn new(alloc: Global, steps: usize) -> Result<Scratch, AllocError> {
        Ok(Scratch {
            after: FlatState {
                facts: Items::new(alloc),
                values: Items::new(alloc),
            },
            tables: Tables::new(alloc),
            guesses: vec![in alloc; 0; steps]?,
        })
    }

    /// The guess for a step; 0 for a number that is no step's.
    pub fn guess(&self, step: usize) -> usize {
        self.guesses.get(step).copied().unwrap_or(0)
    }

    /// Notes the guess for a step.
    pub fn note(&mut self, step: usize, guess: usize) {
        if step < self.guesses.len() {
            self.guesses[step] = guess;
        }
    }
}
