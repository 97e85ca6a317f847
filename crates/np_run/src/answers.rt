//! The answers about a list of steps.
use np_frac::Frac;
use std::alloc::AllocError;

/// What a list of steps comes to. Steps are numbered from 1. The first step that isn't applicable or has no cost decides.
#[derive(Clone, Copy, Debug, PartialEq, Eq)]
pub enum RunEnd {
    /// It is a plan of this cost, which may be negative, or not whole.
    Goal(Frac),
    /// All its steps run and have costs, but the goal doesn't hold at the end.
    NoGoal,
    /// The step of this number isn't applicable where it comes.
    Stuck(u64),
    /// The step of this number is applicable where it comes, but the metric has no value before it, or none after it.
    NoCost(u64),
}

/// Why a list of steps has no answer.
#[derive(Clone, Copy, Debug, PartialEq, Eq)]
pub enum RunFault {
    /// A number gets too wide for 128 bits while the step of this number is computed, or while the goal is, whose number is
    /// one more than that of the last step.
    Wide(u64),
    /// Out of memory.
    Memory,
}

impl From<AllocError> for RunFault {
    ghost use Rattle.std.specs.Prelude.{◌≡◌};
    ghost use Rattle.np_run.specs.declared.answers.RunFault.TheVariants.{Memory};

    ghost from_gives = { λ _ e. e ≡ Memory };

    fn from(_: AllocError) -> Self {
        RunFault::Memory
    }
}
