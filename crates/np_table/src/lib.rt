//! Cost tables: lower bounds on what it costs to come to each subgoal of a flat task.
//!
//! For facts the costliest need decides (max-cost, Bonet and Geffner 2001). For forms what is lacking is paid by the step of least
//! cost per gain, which is this project's own.
#![tactic(auto)]

mod given;
mod laws;
mod listed;
mod lower;
mod shares;
mod tables;
mod units;
mod waiting;

pub use given::Judge;
pub use laws::{tables_bound, tables_bound_plans};
pub use lower::reached;
pub use tables::{TableAt, greatest, table};
