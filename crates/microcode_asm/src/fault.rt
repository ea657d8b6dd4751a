//! Why there is no image or text.

use std::alloc::{AllocError, AllocFailed};
use thiserror::Error;

/// Why there is no image or text.
#[derive(Debug, Clone, Copy, PartialEq, Eq, Drop, Error)]
pub enum AsmFault {
    /// Out of memory.
    #[error("no memory")]
    Memory,
}

impl<T: Drop> From<AllocFailed<T>> for AsmFault {
    ghost use Rattle.std.specs.Prelude.{◌≡◌};
    ghost use Rattle.microcode_asm.specs.declared.fault.AsmFault.TheVariants.{Memory};

    ghost from_gives = { λ _ fault. fault ≡ Memory };

    fn from(_: AllocFailed<T>) -> AsmFault {
        AsmFault::Memory
    }
}

impl From<AllocError> for AsmFault {
    ghost use Rattle.std.specs.Prelude.{◌≡◌};
    ghost use Rattle.microcode_asm.specs.declared.fault.AsmFault.TheVariants.{Memory};

    ghost from_gives = { λ _ fault. fault ≡ Memory };

    fn from(_: AllocError) -> AsmFault {
        AsmFault::Memory
    }
}
