//! What a list of steps comes to on a flat task.

/// What a list of steps comes to on a flat task.
#[derive(Clone, Copy, Debug, PartialEq, Eq)]
pub enum PlanEnd {
    /// The steps are a flat plan of this cost.
    Goal(u64),
    /// All the steps run, and the goal doesn't hold at the end.
    NoGoal,
    /// The step of this number, counted from 1, isn't a step of the flat task, or isn't applicable after those before it.
    Stuck(u64),
}
