//! Running a list of steps on a task: is it a plan, and what does it cost?
//!
//! Arithmetic is in 128 bits. Where a number gets too wide, the answer names the step, so the order of computing is part of
//! the meaning: it is defined in `specs/`, and so is what each answer says in the words of planning.
#![tactic(auto)]

mod answers;
mod changing;
mod computing;
mod halt;
mod kept_state;
mod running;

pub use answers::{RunEnd, RunFault};
pub use running::{run, run_parts};
