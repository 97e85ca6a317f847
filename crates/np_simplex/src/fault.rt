//! Why a linear program isn't answered.
ghost use Rattle.std.specs.Prelude.{◌≡◌};
ghost use Rattle.np_simplex.specs.declared.fault.LpFault.TheVariants as fault;
ghost use Rattle.np_simplex.specs.declared.fault.Halt.TheVariants as halt;
ghost use Rattle.np_simplex.specs.Faults.{fault_of};

use np_frac::Refused;
use std::alloc::{AllocError, AllocFailed};

/// Why a linear program isn't answered.
#[derive(Debug, Clone, Copy)]
pub enum LpFault {
    /// Rows times columns are above `2^20`.
    TooLarge,
    /// The arithmetic refused a number or an operation, and counted it.
    Wide,
    /// The run makes more than `64 + 8 * (rows + columns)` pivots.
    Pivots,
    /// There was no memory.
    Memory,
}

/// Why a part of the work stops.
#[derive(Debug, Clone, Copy)]
pub enum Halt {
    /// The arithmetic refused.
    Wide,
    /// There was no memory.
    Memory,
}

impl From<Halt> for LpFault {
    ghost from_gives = { λ h e. e ≡ fault_of h };

    fn from(halt: Halt) -> LpFault {
        match halt {
            Halt::Wide => LpFault::Wide,
            Halt::Memory => LpFault::Memory,
        }
    }
}

impl From<Refused> for LpFault {
    ghost from_gives = { λ _ e. e ≡ fault.Wide };

    fn from(_refused: Refused) -> LpFault {
        LpFault::Wide
    }
}

impl From<AllocError> for LpFault {
    ghost from_gives = { λ _ e. e ≡ fault.Memory };

    fn from(_error: AllocError) -> LpFault {
        LpFault::Memory
    }
}

impl From<Refused> for Halt {
    ghost from_gives = { λ _ e. e ≡ halt.Wide };

    fn from(_refused: Refused) -> Halt {
        Halt::Wide
    }
}

impl From<AllocError> for Halt {
    ghost from_gives = { λ _ e. e ≡ halt.Memory };

    fn from(_error: AllocError) -> Halt {
        Halt::Memory
    }
}

impl<T: Drop> From<AllocFailed<T>> for Halt {
    ghost from_gives = { λ _ e. e ≡ halt.Memory };

    fn from(_error: AllocFailed<T>) -> Halt {
        Halt::Memory
    }
}
