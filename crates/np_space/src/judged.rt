//! What a space says of a state.
use crate::bound::Bound;

/// Why a bound is right.
#[derive(Debug, Drop)]
pub enum Reason {
    /// Every cost is at least 0.
    Zero,
    /// The proof of this number, of those that the space keeps.
    Proof(usize),
    /// A table of subgoals, each with the least cost of reaching it.
    Table(Vec<(u32, Bound)>),
}

/// A bound at a state, with its reason.
#[derive(Debug, Drop)]
pub struct Judged {
    pub bound: Bound,
    pub why: Reason,
    /// Whether the space gave up on a better bound.
    pub weak: bool,
}
