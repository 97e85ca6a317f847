//! The program's command line, above the planner's top call.
#![tactic(auto)]

mod command_line;

pub use command_line::program;
