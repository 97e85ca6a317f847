//! What each command answers of a task: over values and bytes alone, without files.
#![tactic(auto)]

mod check;
mod flat;
mod laws;
mod list;
mod plan;
mod run;
mod solve;

pub use check::{certificate_of, judge, judge_with_plan};
pub use flat::flat_task;
pub use laws::{one_answer, one_reason};
pub use list::list_flat;
pub use plan::steps_of;
pub use run::run_steps;
pub use solve::{Work, solve_task};
