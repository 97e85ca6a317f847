//! What a search comes to.

/// How a search for a cheapest plan ended. Costs aren't scaled.
#[derive(Drop)]
pub enum End {
    /// The numbers of a cheapest plan's steps, and what they cost together.
    Plan(Vec<u32>, u64),
    /// There is no plan.
    NoPlan,
    /// The budget is spent, and no plan costs less than this.
    Spent(u64),
}

/// What a search for a cheapest plan comes to.
#[derive(Drop)]
pub struct Outcome {
    /// How it ended.
    pub end: End,
    /// The text of the certificate of what was expanded.
    pub text: Vec<u8>,
}
