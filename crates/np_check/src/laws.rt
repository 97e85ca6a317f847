//! Laws of the definitions: what a valid certificate says, and that a certificate has at most one verdict and a plan one end.
ghost use Rattle.np_check.specs.Bounds.{ClaimBounds};
ghost use Rattle.np_check.specs.Laws.{FaultIsNoYes, OnePlanEnd, OneVerdict};

/// A valid certificate's claim bounds every plan.
pub fn claim_bounds()
    ensures { ClaimBounds }
{}

/// A certificate with a fault isn't valid.
pub fn fault_is_no_yes()
    ensures { FaultIsNoYes }
{}

/// A certificate has at most one verdict, unless memory ran out.
pub fn one_verdict()
    ensures { OneVerdict }
{}

/// A list of steps comes to one end at most.
pub fn one_plan_end()
    ensures { OnePlanEnd }
{}
