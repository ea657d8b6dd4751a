//! Why there are no lifetimes.

use std::alloc::{AllocError, AllocFailed};
use thiserror::Error;

/// Why there are no lifetimes.
#[derive(Debug, Clone, Copy, PartialEq, Eq, Drop, Error)]
pub enum ArcFault {
    /// Out of memory.
    #[error("no memory")]
    Memory,
}

impl<T: Drop> From<AllocFailed<T>> for ArcFault {
    ghost use Rattle.std.specs.Prelude.{◌≡◌};
    ghost use Rattle.cyclic_life.specs.declared.fault.ArcFault.TheVariants.{Memory};

    ghost from_gives = { λ _ fault. fault ≡ Memory };

    fn from(_: AllocFailed<T>) -> ArcFault {
        ArcFault::Memory
    }
}

impl From<AllocError> for ArcFault {
    ghost use Rattle.std.specs.Prelude.{◌≡◌};
    ghost use Rattle.cyclic_life.specs.declared.fault.ArcFault.TheVariants.{Memory};

    ghost from_gives = { λ _ fault. fault ≡ Memory };

    fn from(_: AllocError) -> ArcFault {
        ArcFault::Memory
    }
}
