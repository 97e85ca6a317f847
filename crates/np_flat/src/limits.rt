//! The limits of flat tasks, this project's own. They are chosen so that no sum of the planner passes 128 bits.

/// The most facts that a task has.
pub const MOST_FACTS: usize = 1 << 14;

/// The most values.
pub const MOST_VALUES: usize = 1 << 10;

/// The most subgoals.
pub const MOST_SUBGOALS: usize = 1 << 16;

/// The most steps.
pub const MOST_STEPS: usize = 1 << 16;

/// The most terms of a form.
pub const MOST_TERMS: usize = 64;

/// The unit, each start value and each change of a step is below this in size.
pub const CHANGE_SIZE: u128 = 1 << 62;

/// Each coefficient of a form is below this in size.
pub const COEFFICIENT_SIZE: u128 = 1 << 31;

/// The constant of a form is below this in size.
pub const CONSTANT_SIZE: u128 = 1 << 100;

/// The cost of a step is below this.
pub const COST_SIZE: u64 = 1 << 32;

/// Values are below this in size in a state of a certificate, and where the state after a step is computed.
pub const VALUE_SIZE: u128 = 1 << 87;
