//! Spaces of states.
ghost use Rattle.std.specs.Prelude.{◌≡◌, ℕ, ◌<◌, ◌≤◌, ◌^◌, Bool, None, Option, IfOk};
ghost use Rattle.np_state.specs.StateValues.{StateValue};
ghost use Rattle.np_state.specs.States.{value_of};
ghost use Rattle.np_space.specs.Runs.{Next, IsReachedWithin, HasSmallCost};
ghost use Rattle.np_space.specs.Bounds.{IsBoundAt, IsSmallBound};
ghost use Rattle.np_space.specs.Successors.{successor_of};
ghost use Rattle.np_space.specs.declared.judged.Judged.{Judged};

use crate::judged::Judged;
use np_state::{Cell, State};
use std::alloc::{AllocError, Global};

/// A space of states with numbered steps, each of a cost, and lower bounds.
///
/// A call that takes a state has the condition that the state is reached from the start by at most `2^24` steps.
pub trait Space {
    /// The numbers of its states.
    type C: Cell;

    /// The start.
    ghost first: { Self → StateValue };

    /// Which states are goals.
    ghost goal: { Self → StateValue → Bool };

    /// How many steps there are.
    ghost count: { Self → ℕ };

    /// The state after a step and the step's cost, where the step is applicable.
    ghost next_of: { Self → Next StateValue };

    /// What is known of a bound at a state, besides that it is one.
    ghost fits: { Self → StateValue → Judged → Type 0 };

    /// The start.
    fn start(&self, alloc: Global) -> Result<State<Self::C>, AllocError>
        ensures { IfOk result (λ s. value_of Self.C.value s ≡ first self.now) };

    /// Whether the state is a goal.
    fn is_goal(&self, s: &State<Self::C>) -> bool
        requires { IsReachedWithin (next_of self.now) (first self.now) (2 ^ 24) (value_of Self.C.value s.now) }
        ensures { result ≡ goal self.now (value_of Self.C.value s.now) };

    /// How many steps there are. Their numbers are those below.
    fn steps(&self) -> u32
        ensures { result ≡ count self.now };

    /// The state after a step and the step's cost, which is below `2^32`. `None` exactly where the step isn't applicable.
    fn next(
        &self,
        alloc: Global,
        s: &State<Self::C>,
        step: u32,
    ) -> Result<Option<(State<Self::C>, u64)>, AllocError>
        requires reached { IsReachedWithin (next_of self.now) (first self.now) (2 ^ 24) (value_of Self.C.value s.now) }
        requires step { step < count self.now }
        ensures successor { IfOk result (λ t. successor_of Self.C.value t ≡ next_of self.now (value_of Self.C.value s.now) step) }
        ensures cost { IfOk result HasSmallCost };

    /// A lower bound on the cost of every plan from the state, at most `2^61` if it is a number.
    ///
    /// It changes nothing of the space but the proofs that it keeps. What was known of earlier bounds stays known, also after out of
    /// memory.
    fn judge(&mut self, alloc: Global, s: &State<Self::C>) -> Result<Judged, AllocError>
        requires reached { IsReachedWithin (next_of self.old) (first self.old) (2 ^ 24) (value_of Self.C.value s.now) }
        ensures bound { IfOk result (λ j. IsBoundAt (next_of self.old) (goal self.old) (value_of Self.C.value s.now) j.bound) }
        ensures small { IfOk result (λ j. IsSmallBound j.bound) }
        ensures fits { IfOk result (λ j. fits self.new (value_of Self.C.value s.now) j) }
        ensures keeps { (t : StateValue) (j : Judged) → fits self.old t j → fits self.new t j }
        ensures first { first self.new ≡ first self.old }
        ensures goal { goal self.new ≡ goal self.old }
        ensures count { count self.new ≡ count self.old }
        ensures next_of { next_of self.new ≡ next_of self.old };

    /// There are no steps but those that are counted.
    ghost bounded: { (x : Self) (s : StateValue) (step : ℕ) → count x ≤ step → next_of x s step ≡ None };
}
