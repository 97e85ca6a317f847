//! Scaling: the flat task of a bound task.
//!
//! Facts, values and subgoals get numbers by first reading, all numbers become whole, and comparisons become forms that are to be
//! at least 0. The flat task has the plans of the task, at the same costs.
#![tactic(auto)]

mod fault;
mod form;
mod laws;
mod numbering;
mod place;
mod reading;
mod scaling;
mod step;
mod subgoal;
mod unit;
mod whole;

pub use fault::ScaleFault;
pub use laws::{
    factor_makes_whole, flat_is_flat, plans_cost_whole, same_plans, same_runs, stands_for_one,
    unit_is_unit,
};
pub use scaling::scale;
