//! What stops a computation.
use std::alloc::{AllocError, AllocFailed};

/// Why an expression has no number.
#[derive(Debug, Drop)]
pub(crate) enum Lack {
    /// It reads a term without a value, or divides by 0.
    Missing,
    /// An operation on fractions doesn't answer, and not for a division by 0.
    Wide,
}

/// Why a run doesn't go on after a step.
#[derive(Debug, Drop)]
pub(crate) enum Pause {
    /// The step isn't applicable.
    Stuck,
    /// The step has no cost.
    NoCost,
    /// An operation on fractions doesn't answer.
    Wide,
}

/// What stops the code: a cause, or that memory has run out.
#[derive(Debug, Drop)]
pub(crate) enum Halt<C> {
    /// The cause.
    Cause(C),
    /// Out of memory.
    Memory,
}

impl<C> From<AllocError> for Halt<C> {
    ghost use Rattle.std.specs.Prelude.{◌≡◌};
    ghost use Rattle.np_run.specs.declared.halt.Halt.TheVariants.{Memory};

    ghost from_gives = { λ _ e. e ≡ Memory };

    fn from(_: AllocError) -> Self {
        Halt::Memory
    }
}

impl<C, T: Drop> From<AllocFailed<T>> for Halt<C> {
    ghost use Rattle.std.specs.Prelude.{◌≡◌};
    ghost use Rattle.np_run.specs.declared.halt.Halt.TheVariants.{Memory};

    ghost from_gives = { λ _ e. e ≡ Memory };

    fn from(_: AllocFailed<T>) -> Self {
        Halt::Memory
    }
}
