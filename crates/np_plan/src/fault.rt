//! Why no plan is read.

ghost use Rattle.std.specs.Prelude.{◌≡◌};
ghost use Rattle.np_plan.specs.declared.fault.PlanFault.TheVariants.{Memory};
ghost use Rattle.np_plan.specs.Faults.{from_text};

use np_lex::Place;
use np_words::ReadFault;
use std::alloc::{AllocError, AllocFailed};
use thiserror::Error;

/// Why no plan was read.
#[derive(Clone, Copy, Debug, PartialEq, Eq, Error)]
pub enum PlanFault {
    /// The text spells no plan. The place is that of the first fault: a token, a bad byte or the end.
    #[error("syntax")]
    At(Place),
    /// A stamp of more than 38 digits is at this place, before any fault of the text.
    #[error("number wide")]
    NumberWide(Place),
    /// The plan has more than 2^24 steps.
    #[error("plan too long")]
    TooLong,
    /// The stamp at this place isn't above the one before.
    #[error("stamp order")]
    StampOrder(Place),
    /// The line whose opening bracket is at this place names no step of the task.
    #[error("unknown step")]
    UnknownStep(Place),
    /// Memory ran out.
    #[error("out of memory")]
    Memory,
}

impl From<ReadFault> for PlanFault {
    ghost from_gives = { λ fault gives. gives ≡ from_text fault };

    fn from(fault: ReadFault) -> PlanFault {
        match fault {
            ReadFault::At(place) => PlanFault::At(place),
            ReadFault::NumberWide(place) => PlanFault::NumberWide(place),
            ReadFault::Memory => PlanFault::Memory,
        }
    }
}

impl From<AllocError> for PlanFault {
    ghost from_gives = { λ _ fault. fault ≡ Memory };

    fn from(_error: AllocError) -> PlanFault {
        PlanFault::Memory
    }
}

impl<T: Drop> From<AllocFailed<T>> for PlanFault {
    ghost from_gives = { λ _ fault. fault ≡ Memory };

    fn from(_error: AllocFailed<T>) -> PlanFault {
        PlanFault::Memory
    }
}
