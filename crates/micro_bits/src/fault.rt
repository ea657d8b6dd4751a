//! Why an image has no file, and bits no number.

ghost use Rattle.std.specs.Prelude.{◌≡◌};

use std::alloc::AllocError;
use thiserror::Error;

/// Why an image could not be encoded.
#[derive(Clone, Copy, Debug, PartialEq, Eq, Error)]
pub enum CodeFault {
    /// No memory was left.
    #[error("no memory")]
    Memory,
}

impl From<AllocError> for CodeFault {
    ghost use Rattle.micro_bits.specs.declared.fault.CodeFault.TheVariants.{Memory};

    ghost from_gives = { λ _ fault. fault ≡ Memory };

    fn from(_: AllocError) -> CodeFault {
        CodeFault::Memory
    }
}

/// Why a number could not be read.
#[derive(Clone, Copy, Debug, PartialEq, Eq, Error)]
pub enum BitFault {
    /// The bits end before it is whole.
    #[error("too few bits")]
    Short,
}
