//! The top call of the planner.
#![tactic(auto)]

mod check;
mod entry;
mod given_files;
mod inputs;
mod list;
mod run;
mod solve;
mod task_files;

pub use entry::planner;
