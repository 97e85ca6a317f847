//! Distinct states by number.
ghost use Rattle.std.specs.Prelude.{◌≡◌, ◌<◌, [], length, Some, slice_get, IfOk, OnErr};
ghost use Rattle.np_state.specs.States.{value_of};
ghost use Rattle.np_state.specs.Interning.{IsNumberOf, AreDistinct};

use crate::cell::Cell;
use crate::state::State;
use indexmap::IndexSet;
use std::alloc::{AllocError, Global};
use std::marker::Model;

/// Distinct states, which contracts see as the list of what they say. A state's number is its place.
#[derive(Drop)]
pub struct StateStore<C: Cell> {
    states: IndexSet<State<C>>,
}

impl<C: Cell> Model for StateStore<C> {
    ghost use Rattle.std.specs.Prelude.{List, map};
    ghost use Rattle.std.specs.Coded.{coded_list};
    ghost use Rattle.np_state.specs.StateValues.{StateValue, state_value_code};
    ghost use Rattle.np_state.specs.States.{value_of};

    ghost Value = { List StateValue };

    ghost coded = { coded_list state_value_code };

    ghost view = { λ s. map (value_of C.value) s.states.keys };
}

impl<C: Cell> StateStore<C> {
    /// A store without states.
    pub fn new(alloc: Global) -> StateStore<C>
        ensures { result ≡ [] }
    {
        StateStore {
            states: IndexSet::new(alloc),
        }
    }

    /// The number of the equal state and false where there is one, else the next number and true. After out of memory the store is
    /// as before.
    pub fn intern(&mut self, s: State<C>) -> Result<(usize, bool), AllocError>
        ensures ok { IfOk result (λ r. IsNumberOf self.old self.new (value_of C.value s) r.0 r.1) }
        ensures err { OnErr result (self.new ≡ self.old) }
    {
        Ok(self.states.insert_full(s)?)
    }

    /// The state of a number.
    pub fn get(&self, i: usize) -> &State<C>
        requires { i < length self.now }
        ensures { slice_get self.now i ≡ Some (value_of C.value result.now) }
    {
        &self.states.as_slice()[i]
    }

    /// How many states there are.
    pub fn len(&self) -> usize
        ensures len { result ≡ length self.now }
        ensures distinct { AreDistinct self.now }
    {
        self.states.len()
    }
}
