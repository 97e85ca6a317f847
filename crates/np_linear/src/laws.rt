//! Laws of the definitions, for proofs: a call gives the caller's proof the law.
ghost use Rattle.np_linear.specs.Laws.{LinearMeans, MissingMeans, LinearIsProper};

/// An expression that is read as a linear sum has that sum's value in every state that has the static values of the start, and a
/// value for exactly the terms that have one there.
pub fn linear_means()
    ensures { LinearMeans }
{}

/// An expression in which something is found missing has no value in any such state.
pub fn missing_means()
    ensures { MissingMeans }
{}

/// The terms of a linear sum that is read are distinct, each has a start value, and no coefficient is 0.
pub fn linear_is_proper()
    ensures { LinearIsProper }
{}
