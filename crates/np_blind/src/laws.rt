//! Laws of the definitions, for proofs: a call gives the caller's proof the law.
ghost use Rattle.np_blind.specs.Laws.{SameRuns, SamePlans, ReachedAreReadings, ReadingsApart};

/// The same lists of steps run from the first state and from the flat start, at the same cost, to a state and its reading.
pub fn same_runs()
    ensures { SameRuns }
{}

/// A list of steps is a plan of the space exactly where it is a flat plan, at the same cost.
pub fn same_plans()
    ensures { SamePlans }
{}

/// A state that is reached is the reading of a flat state, which is reached at the same cost.
pub fn reached_are_readings()
    ensures { ReachedAreReadings }
{}

/// Flat states of the task with equal readings are equal, and so are states that are reached, if they are read as one flat state.
pub fn readings_apart()
    ensures { ReadingsApart }
{}
