//! A flat task as a space of states with the bound 0 everywhere: what a blind search is given.
#![tactic(auto)]

mod after;
mod holds;
mod laws;
mod reading;
mod space;

pub use laws::{reached_are_readings, readings_apart, same_plans, same_runs};
pub use space::BlindSpace;
