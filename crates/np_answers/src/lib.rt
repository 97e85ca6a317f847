//! What the planner is told and what it answers: the words of its commands, its answers with their texts and statuses, and how an
//! answer is given.
#![tactic(auto)]

mod answer;
mod output;
mod text;
mod words;

pub use answer::{Answer, CheckAnswer, Fault, File, Refusal, SolveAnswer, SpotReason, TaskReason};
pub use output::say;
pub use text::Text;
pub use words::{Check, Command, Inputs, Run, Solve, command_words};
