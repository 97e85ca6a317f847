//! Why a domain and a problem make no task.

ghost use Rattle.std.specs.Prelude.{◌≡◌};
ghost use Rattle.np_names.specs.declared.fault.TypeFault.TheVariants.{Memory};

use np_lex::Place;
use std::alloc::{AllocError, AllocFailed};

/// Why two texts make no task.
#[derive(Clone, Copy, Debug, PartialEq, Eq)]
pub enum TypeFault {
    /// The first fault: in which text, at which place, and why.
    At(Source, Place, TypeWhy),
    /// Memory ran out.
    Memory,
}

/// One of the two texts.
#[derive(Clone, Copy, Debug, PartialEq, Eq)]
pub enum Source {
    /// The domain.
    Domain,
    /// The problem.
    Problem,
}

/// Which rule a text breaks.
#[derive(Clone, Copy, Debug, PartialEq, Eq)]
pub enum TypeWhy {
    /// A section other than `:action` comes again.
    SectionTwice,
    /// The problem has no `:domain` or no `:goal`.
    SectionMissing,
    /// The problem names another domain.
    OtherDomain,
    /// A name comes again among those of its kind.
    NameTwice,
    /// A type is under itself, or `object` is under a type.
    TypeCycle,
    /// A type, outside `:types`, that isn't declared.
    UnknownType,
    /// A predicate that isn't declared.
    UnknownPredicate,
    /// A function that isn't declared.
    UnknownFunction,
    /// An object that isn't declared.
    UnknownName,
    /// A variable that isn't a parameter.
    Unbound,
    /// A predicate or function with too few or too many arguments.
    WrongArity,
    /// An argument whose type is neither the parameter's nor under it, or a side of an equality of objects that is no object.
    WrongType,
    /// A term with a second value in `:init`.
    ValueTwice,
    /// The amount of an effect reads a function that isn't static.
    AmountNotStatic,
}

impl From<AllocError> for TypeFault {
    ghost from_gives = { λ _ fault. fault ≡ Memory };

    fn from(_error: AllocError) -> TypeFault {
        TypeFault::Memory
    }
}

impl<T: Drop> From<AllocFailed<T>> for TypeFault {
    ghost from_gives = { λ _ fault. fault ≡ Memory };

    fn from(_error: AllocFailed<T>) -> TypeFault {
        TypeFault::Memory
    }
}
