//! Laws of the definitions, for proofs: a call gives the caller's proof the law.
ghost use Rattle.np_scale.specs.Laws.{FactorMakesWhole, FlatIsFlat, PlansCostWhole, SamePlans, SameRuns, StandsForOne, UnitIsUnit};

/// The unit is the least number that makes the start values of terms that comparisons read, and the net changes on them, whole.
pub fn unit_is_unit()
    ensures { UnitIsUnit }
{}

/// The factor of coefficients that aren't 0 makes each a whole number of the same sign, and no number but 1 divides all of these.
pub fn factor_makes_whole()
    ensures { FactorMakesWhole }
{}

/// The flat task of a bound task keeps what every flat task keeps.
pub fn flat_is_flat()
    ensures { FlatIsFlat }
{}

/// Each run of a task from its start is one of its flat task, to a flat state that stands for the state, at the same cost, and the
/// other way round; and the goal holds in both or in none.
pub fn same_runs()
    ensures { SameRuns }
{}

/// Two flat states that stand for one state are the same.
pub fn stands_for_one()
    ensures { StandsForOne }
{}

/// A list of steps is a plan of a task exactly where it is one of its flat task, at the same cost.
pub fn same_plans()
    ensures { SamePlans }
{}

/// What a plan of a task that has a flat task costs is a whole number.
pub fn plans_cost_whole()
    ensures { PlansCostWhole }
{}
