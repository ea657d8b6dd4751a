//! Why names are refused, and why a manifest number has no value.

ghost use Rattle.std.specs.Prelude.{◌≡◌};

use std::alloc::{AllocError, AllocFailed};
use thiserror::Error;

/// Why the names of a program are refused, each with its source position, a byte offset.
#[derive(Debug, Clone, Copy, PartialEq, Eq, Drop, Error)]
pub enum NameFault {
    /// An undefined name: nothing that may be used there has it.
    #[error("unknown name")]
    Unknown(u32),
    /// A duplicate definition: the name is taken already.
    #[error("declared twice")]
    Twice(u32),
    /// The first function that can reach itself by calls.
    #[error("recursive function")]
    Recursive(u32),
    /// No function is called `main`.
    #[error("no main")]
    NoMain,
    /// An arity mismatch: another number of words, subscripts, arguments or results than is declared, or an array that
    /// is not passed whole.
    #[error("wrong count")]
    Arity(u32),
    /// A size that is out of range.
    #[error("bad size")]
    Size(u32),
    /// Out of memory.
    #[error("no memory")]
    Memory,
}

/// Why a manifest constant has no value.
#[derive(Debug, Clone, Copy, PartialEq, Eq, Drop, Error)]
pub enum ManifestFault {
    /// An intermediate value is below -2^31 or above 2^31-1.
    #[error("manifest number out of range")]
    Overflow,
    /// No loop around the place has the index.
    #[error("unknown index")]
    Unbound,
}

impl<T: Drop> From<AllocFailed<T>> for NameFault {
    ghost use Rattle.name_rules.specs.declared.fault.NameFault.TheVariants.{Memory};

    ghost from_gives = { λ _ fault. fault ≡ Memory };

    fn from(_: AllocFailed<T>) -> NameFault {
        NameFault::Memory
    }
}

impl From<AllocError> for NameFault {
    ghost use Rattle.name_rules.specs.declared.fault.NameFault.TheVariants.{Memory};

    ghost from_gives = { λ _ fault. fault ≡ Memory };

    fn from(_: AllocError) -> NameFault {
        NameFault::Memory
    }
}
