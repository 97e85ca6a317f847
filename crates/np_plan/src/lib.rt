//! Plan files: the steps that a text names, and the text of steps.
#![tactic(auto)]

mod fault;
mod numbers;
mod plan;
mod print;
mod read;

pub use fault::PlanFault;
pub use plan::{PlanLine, PlanText};
pub use print::print_plan;
pub use read::{MOST_STEPS, read_plan};
