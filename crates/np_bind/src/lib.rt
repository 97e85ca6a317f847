//! Binding: the steps that objects make of a task's actions, with what no step changes put in.
//!
//! Static atoms, equalities of objects and constant comparisons are settled, expressions are linear sums, and each step's changes
//! and cost are numbers. A bound task has the plans of its task, at the same costs.
#![tactic(auto)]

mod binding;
mod bound;
mod counting;
mod enumerating;
mod grounding;
mod known;
mod laws;
mod limits;
mod looking;
mod net;
mod starting;

pub use binding::bind;
pub use bound::{BindFault, BoundCond, BoundParts, BoundStep, BoundTask, Spot};
pub use laws::{bound_is_bound, dropped_never_goes, same_plans, same_runs};
pub use limits::{MOST_BINDINGS, MOST_STEPS};
