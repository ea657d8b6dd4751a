//! Why the types of a program are refused.

ghost use Rattle.std.specs.Prelude.{◌≡◌};

use std::alloc::{AllocError, AllocFailed};
use thiserror::Error;

/// Why the types of a program are refused, each with its source position, a byte offset.
#[derive(Debug, Clone, Copy, PartialEq, Eq, Drop, Error)]
pub enum TypeFault {
    /// The shape is not the wanted one, or a truth value is in the place of a number.
    #[error("type mismatch")]
    Mismatch(u32),
    /// A factor or both sides of a comparison have no type of their own.
    #[error("needs a cast")]
    NeedsCast(u32),
    /// A literal that is out of the range of its type.
    #[error("literal out of range")]
    Literal(u32),
    /// A number in the place of a truth value.
    #[error("not a truth value")]
    NotBool(u32),
    /// Out of memory.
    #[error("no memory")]
    Memory,
}

impl<T: Drop> From<AllocFailed<T>> for TypeFault {
    ghost use Rattle.type_rules.specs.declared.fault.TypeFault.TheVariants.{Memory};

    ghost from_gives = { λ _ fault. fault ≡ Memory };

    fn from(_: AllocFailed<T>) -> TypeFault {
        TypeFault::Memory
    }
}

impl From<AllocError> for TypeFault {
    ghost use Rattle.type_rules.specs.declared.fault.TypeFault.TheVariants.{Memory};

    ghost from_gives = { λ _ fault. fault ≡ Memory };

    fn from(_: AllocError) -> TypeFault {
        TypeFault::Memory
    }
}
