//! Typing: a domain and a problem as the task that they stand for, or the first fault.
#![tactic(auto)]

mod numbers;
mod scope;
mod task;
mod uses;

pub use np_declared::{Source, TypeFault, TypeWhy};
pub use task::resolve;
