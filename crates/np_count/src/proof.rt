//! A counting proof as it is written.
use sqlite_items::Items;

/// A row, by its kind and the numbers that it names.
#[derive(Debug, Drop)]
pub enum Row {
    /// A form of the goal asks for its rise.
    Demand(u64),
    /// The steps that make a fact true and don't need it, less those that need it and make it false, are at least 1 where the
    /// goal has the fact, less 1 where it is true in the state. A step that needs the fact and makes it true counts 0.
    Flow(u64),
    /// The same of the negation of a fact.
    FlowNot(u64),
    /// A form stays at or above a number.
    Floor(u64, i128),
    /// One of these subgoals, ascending, has to be achieved by a step that needs none of them.
    Cut(Items<u64>),
}

/// A proof: weighted rows over a divisor.
#[derive(Debug, Drop)]
pub struct Proof {
    /// What the weighted right sides are divided by; with 0 they say that there is no plan.
    pub divisor: u64,
    /// Each row with its weight.
    pub items: Items<(u64, Row)>,
}
