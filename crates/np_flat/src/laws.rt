//! Laws of the definitions, for proofs: a call gives the caller's proof the law.
ghost use Rattle.np_flat.specs.Laws.{StepAddsNet, KeptOrAchieved, StartedRunsAreSmall};

/// A step adds exactly its net change to the value of a form.
pub fn step_adds_net()
    ensures { StepAddsNet }
{}

/// A subgoal that holds after a step held before it, or the step achieves it.
pub fn kept_or_achieved()
    ensures { KeptOrAchieved }
{}

/// After so many steps from the start, the values are below `CHANGE_SIZE` times one more.
pub fn started_runs_are_small()
    ensures { StartedRunsAreSmall }
{}
