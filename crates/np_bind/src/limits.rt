//! The limits of binding, this project's own.

/// The most bindings that the actions of a task have together.
pub const MOST_BINDINGS: usize = 1 << 22;

/// The most steps that are kept.
pub const MOST_STEPS: usize = 1 << 16;
