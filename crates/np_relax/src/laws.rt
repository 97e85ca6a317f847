//! Laws of the definitions, for proofs: a call gives the caller's proof the law.
ghost use Rattle.np_relax.specs.Closed.{RunsStayIn};

/// What holds after a run of steps that aren't removed is in each closed set, and so in the least.
pub fn runs_stay_in()
    ensures { RunsStayIn }
{}
