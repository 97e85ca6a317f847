//! What is found where an expression or a condition isn't read to its end.
use std::alloc::{AllocError, AllocFailed};

/// Why reading an expression or a condition ends.
#[derive(Debug, Drop)]
pub enum Finding {
    /// A condition is false in every state that a run reaches.
    Fails,
    /// A term that is read has no start value, or a divisor is 0.
    Missing,
    /// Two sums that aren't constant are multiplied, or a divisor isn't constant.
    NotLinear,
    /// An operation on fractions doesn't answer.
    Wide,
}

/// What stops the code: a cause, or that memory has run out.
#[derive(Debug, Drop)]
pub enum Halt<C> {
    /// The cause.
    Cause(C),
    /// Out of memory.
    Memory,
}

impl<C> From<AllocError> for Halt<C> {
    ghost use Rattle.std.specs.Prelude.{◌≡◌};
    ghost use Rattle.np_linear.specs.declared.finding.Halt.TheVariants.{Memory};

    ghost from_gives = { λ _ e. e ≡ Memory };

    fn from(_: AllocError) -> Self {
        Halt::Memory
    }
}

impl<C, T: Drop> From<AllocFailed<T>> for Halt<C> {
    ghost use Rattle.std.specs.Prelude.{◌≡◌};
    ghost use Rattle.np_linear.specs.declared.finding.Halt.TheVariants.{Memory};

    ghost from_gives = { λ _ e. e ≡ Memory };

    fn from(_: AllocFailed<T>) -> Self {
        Halt::Memory
    }
}
