//! Why a bound task has no flat task.
use np_bind::Spot;
use np_model::Step;
use std::alloc::{AllocError, AllocFailed};

/// Why a bound task has no flat task.
#[derive(Debug, Drop)]
pub enum ScaleFault {
    /// Conditions read more than 2^14 atoms.
    TooManyFacts,
    /// Comparisons read more than 2^10 terms.
    TooManyValues,
    /// There are more than 2^16 different subgoals.
    TooManySubgoals,
    /// The unit isn't below 2^62.
    UnitWide,
    /// An operation on fractions there doesn't answer, or a number there is past its limit.
    NumberWide(Spot),
    /// A comparison there has more than 64 terms.
    FormLong(Spot),
    /// This step's cost is below 0.
    CostNegative(Step),
    /// This step's cost isn't a whole number.
    CostNotWhole(Step),
    /// This step's cost isn't below 2^32.
    CostWide(Step),
    /// Out of memory.
    Memory,
}

impl From<AllocError> for ScaleFault {
    ghost use Rattle.std.specs.Prelude.{◌≡◌};
    ghost use Rattle.np_scale.specs.declared.fault.ScaleFault.TheVariants.{Memory};

    ghost from_gives = { λ _ fault. fault ≡ Memory };

    fn from(_: AllocError) -> Self {
        ScaleFault::Memory
    }
}

impl<T: Drop> From<AllocFailed<T>> for ScaleFault {
    ghost use Rattle.std.specs.Prelude.{◌≡◌};
    ghost use Rattle.np_scale.specs.declared.fault.ScaleFault.TheVariants.{Memory};

    ghost from_gives = { λ _ fault. fault ≡ Memory };

    fn from(_: AllocFailed<T>) -> Self {
        ScaleFault::Memory
    }
}
