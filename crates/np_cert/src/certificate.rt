//! Certificates: a claim on the cost of all plans, and what it rests on.
use np_count::Proof;
use np_flat::FlatState;
use sqlite_items::Items;

/// A certificate. Proofs and entries are numbered from 0.
#[derive(Debug, Drop)]
pub struct Certificate {
    /// No plan costs less than this.
    pub claim: Limit,
    /// Counting proofs that entries name.
    pub proofs: Items<Proof>,
    /// States with bounds.
    pub entries: Items<Entry>,
}

/// A state, a bound on what a plan from there costs, and why the bound is true.
#[derive(Debug, Drop)]
pub struct Entry {
    pub state: FlatState,
    pub bound: Limit,
    pub why: Why,
}

/// A least cost. It isn't scaled.
#[derive(Clone, Copy, Debug, PartialEq, Eq)]
pub enum Limit {
    /// No plan costs less than this.
    Number(u128),
    /// There is no plan. It is above every number.
    Absent,
}

/// Why a bound is true.
#[derive(Debug, Drop)]
pub enum Why {
    /// By the bounds of the states that one step leads to.
    Expanded,
    /// By the proof of this number.
    Proof(u128),
    /// By a table: numbers for ascending subgoals; the others have 0.
    Table(Items<(u128, Limit)>),
}
