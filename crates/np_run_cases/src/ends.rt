//! Answers about lists of steps, in numbers that a table can hold.
ghost use Rattle.std.specs.Prelude.{◌<◌};

use np_run::{RunEnd, RunFault};

/// An answer about a list of steps. A cost is a numerator and a denominator.
#[derive(Clone, Copy, PartialEq, Eq)]
pub enum End {
    Goal(i128, u128),
    NoGoal,
    Stuck(u64),
    NoCost(u64),
    Wide(u64),
}

impl End {
    /// The number of its kind.
    pub fn kind(self) -> usize
        ensures { result < 5 }
    {
        match self {
            End::Goal(_, _) => 0,
            End::NoGoal => 1,
            End::Stuck(_) => 2,
            End::NoCost(_) => 3,
            End::Wide(_) => 4,
        }
    }
}

/// What a run comes to.
fn named(end: RunEnd) -> End {
    match end {
        RunEnd::Goal(cost) => End::Goal(cost.num(), cost.den()),
        RunEnd::NoGoal => End::NoGoal,
        RunEnd::Stuck(number) => End::Stuck(number),
        RunEnd::NoCost(number) => End::NoCost(number),
    }
}

/// The answer of a run; None where memory ran out.
pub fn end_of(answer: Result<RunEnd, RunFault>) -> Option<End> {
    match answer {
        Ok(end) => Some(named(end)),
        Err(RunFault::Wide(number)) => Some(End::Wide(number)),
        Err(RunFault::Memory) => None,
    }
}
