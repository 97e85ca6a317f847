//! The outside of the planner: a shelf of named files, a sink for what is printed, and counts of their faults.
//!
//! `MemoryShelf` and `MemorySink` keep all in memory and fail at chosen calls, for tests. `FileShelf` and `OutSink`
//! reach real files and standard output; they tell no content, so no contract speaks of it.
#![tactic(auto)]

mod failing;
mod failure;
mod file_shelf;
mod memory_shelf;
mod memory_sink;
mod out_sink;
mod shelf;
mod sink;
mod stream;

pub use failure::Failure;
pub use file_shelf::FileShelf;
pub use memory_shelf::MemoryShelf;
pub use memory_sink::MemorySink;
pub use out_sink::OutSink;
pub use shelf::{Fetch, Give, Shelf};
pub use sink::Sink;
