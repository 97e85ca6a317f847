//! Laws of the definitions, for proofs: a call gives the caller's proof the law.
ghost use Rattle.np_bind.specs.Laws.{BoundIsBound, SameRuns, SamePlans, DroppedNeverGoes};

/// The bound task of a well-formed task keeps what every bound task keeps.
pub fn bound_is_bound()
    ensures { BoundIsBound }
{}

/// After the same steps from the start a task and its bound task are in the same state, at the same cost, or neither list runs;
/// and the goal holds in both there or in none.
pub fn same_runs()
    ensures { SameRuns }
{}

/// A list of steps is a plan of a task exactly where it is one of its bound task, at the same cost.
pub fn same_plans()
    ensures { SamePlans }
{}

/// A step that isn't kept is applicable in no state that a run from the start ends in.
pub fn dropped_never_goes()
    ensures { DroppedNeverGoes }
{}
