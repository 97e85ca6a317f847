//! Which subgoals of a flat task can come to hold when what steps make false is forgotten.
//!
//! The least set of subgoals that has each one that holds in a state, and each one that a step achieves whose needs are all
//! in the set (Bonet and Geffner 2001, the relaxed problem), forms among them (Hoffmann 2003).
#![tactic(auto)]

mod laws;
mod needing;
mod reached;

pub use laws::runs_stay_in;
pub use needing::Needing;
pub use reached::{Reached, reach};
