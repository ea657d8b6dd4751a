//! Why there are no registers.

use std::alloc::{AllocError, AllocFailed};
use thiserror::Error;

/// Why there are no registers.
#[derive(Debug, Clone, Copy, PartialEq, Eq, Drop, Error)]
pub enum FileFault {
    /// The first lifetime, by unit, port, the cycle of its write, then node, of which a copy finds no register in
    /// its file.
    #[error("file full {unit}.{port} at node {node}")]
    Full { unit: u8, port: u8, node: u32 },
    /// Out of memory.
    #[error("no memory")]
    Memory,
}

impl<T: Drop> From<AllocFailed<T>> for FileFault {
    ghost use Rattle.std.specs.Prelude.{◌≡◌};
    ghost use Rattle.reg_alloc.specs.declared.fault.FileFault.TheVariants.{Memory};

    ghost from_gives = { λ _ fault. fault ≡ Memory };

    fn from(_: AllocFailed<T>) -> FileFault {
        FileFault::Memory
    }
}

impl From<AllocError> for FileFault {
    ghost use Rattle.std.specs.Prelude.{◌≡◌};
    ghost use Rattle.reg_alloc.specs.declared.fault.FileFault.TheVariants.{Memory};

    ghost from_gives = { λ _ fault. fault ≡ Memory };

    fn from(_: AllocError) -> FileFault {
        FileFault::Memory
    }
}
