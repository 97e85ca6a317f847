//! The search for a cheapest plan of a flat task, and the certificate of what it has expanded.
#![tactic(auto)]

mod evidence;
mod outcome;
mod solve;
mod way_back;

pub use outcome::{End, Outcome};
pub use solve::solve_flat;
