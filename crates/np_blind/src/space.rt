//! The space of a flat task's states.
ghost use Rattle.std.specs.Prelude.{◌≡◌, IfOk};
ghost use Rattle.np_frac.specs.Fractions.{whole};
ghost use Rattle.np_state.specs.States.{value_of};
ghost use Rattle.np_space.specs.Runs.{IsReached};
ghost use Rattle.np_flat.specs.Flats.{IsStateOf};
ghost use Rattle.np_blind.specs.Readings.{flat_of, state_of};
ghost use Rattle.np_blind.specs.Spaces.{first_of, next_of};

use crate::after::after;
use crate::holds::all_hold;
use crate::reading::{bits_of, numbers_of};
use np_flat::{Flat, FlatState};
use np_space::{Bound, Judged, Reason, Space};
use np_state::State;
use sqlite_items::Items;
use std::alloc::{AllocError, Global};
use std::marker::Model;

/// A flat task as a space of states, which contracts see as the task's parts. A state has a bit for each fact, and the scaled
/// values as its cells. The bound at each state is 0.
#[derive(Debug, Drop)]
pub struct BlindSpace<'a> {
    flat: &'a Flat,
}

impl<'a> Model for BlindSpace<'a> {
    ghost use Rattle.np_flat.specs.declared.parts.Parts.{Parts};

    ghost Value = { Parts };

    ghost view = { λ s. s.flat.now };
}

impl<'a> BlindSpace<'a> {
    /// The space of the flat task.
    pub fn new(flat: &'a Flat) -> BlindSpace<'a>
        ensures { result ≡ flat.now }
    {
        BlindSpace { flat }
    }

    /// The flat state that a reached state is the reading of. Out of memory is an error.
    pub fn flat_state(&self, alloc: Global, s: &State<i128>) -> Result<FlatState, AllocError>
        requires { IsReached (next_of self.now) (first_of self.now) (value_of whole s.now) }
        ensures flat { IfOk result (λ t. t ≡ flat_of (value_of whole s.now)) }
        ensures reading { IfOk result (λ t. state_of self.now t ≡ value_of whole s.now) }
        ensures state_of { IfOk result (IsStateOf self.now) }
    {
        let count = self.flat.parts().facts.len() as u32;
        let facts = numbers_of(alloc, &s.facts, count)?;
        let values = Items::from_slice(alloc, s.cells.as_slice())?;
        Ok(FlatState {
            facts: Items::from_vec(facts),
            values,
        })
    }
}

impl Space for BlindSpace<'_> {
    ghost use Rattle.std.specs.Prelude.{length};
    ghost use Rattle.np_blind.specs.Spaces.{first_of, is_goal_at, next_of, IsBlind, bounded};

    type C = i128;

    ghost first = { first_of };

    ghost goal = { is_goal_at };

    ghost count = { λ task. length task.steps };

    ghost next_of = { next_of };

    ghost fits = { λ task s j. IsBlind j };

    ghost bounded = { bounded };

    fn start(&self, alloc: Global) -> Result<State<i128>, AllocError> {
        let parts = self.flat.parts();
        let facts = bits_of(alloc, parts.facts.len(), parts.start.facts.as_slice())?;
        let cells = Vec::from_slice(alloc, parts.start.values.as_slice())?;
        Ok(State { facts, cells })
    }

    fn is_goal(&self, s: &State<i128>) -> bool {
        let parts = self.flat.parts();
        all_hold(parts, s, parts.goal.as_slice())
    }

    fn steps(&self) -> u32 {
        self.flat.parts().steps.len() as u32
    }

    fn next(
        &self,
        alloc: Global,
        s: &State<i128>,
        step: u32,
    ) -> Result<Option<(State<i128>, u64)>, AllocError> {
        let parts = self.flat.parts();
        let step = &parts.steps.as_slice()[step as usize];
        if !all_hold(parts, s, step.needs.as_slice()) {
            return Ok(None);
        }
        Ok(Some((after(alloc, step, s)?, step.cost)))
    }

    fn judge(&mut self, _alloc: Global, _s: &State<i128>) -> Result<Judged, AllocError> {
        Ok(Judged {
            bound: Bound::AtLeast(0),
            why: Reason::Zero,
            weak: false,
        })
    }
}
