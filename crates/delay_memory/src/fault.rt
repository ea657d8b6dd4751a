//! Why a node has no delay line.

use std::alloc::{AllocError, AllocFailed};
use thiserror::Error;

/// Why the long delays of a graph are not in memory: the first node that needs a delay line and gets none. Nodes have
/// the numbers of the graph.
#[derive(Debug, Clone, Copy, PartialEq, Eq, Drop, Error)]
pub enum LineFault {
    /// The datapath has no ram.
    #[error("no ram for node {0}")]
    NoRam(u32),
    /// No ram has so many cells left.
    #[error("no ram cells for node {0}")]
    LinesFull(u32),
    /// No acu addresses the first ram that has room.
    #[error("no acu for ram {ram} at node {node}")]
    NoAcu { ram: u8, node: u32 },
    /// Out of memory.
    #[error("no memory")]
    Memory,
}

impl<T: Drop> From<AllocFailed<T>> for LineFault {
    ghost use Rattle.std.specs.Prelude.{◌≡◌};
    ghost use Rattle.delay_memory.specs.declared.fault.LineFault.TheVariants.{Memory};

    ghost from_gives = { λ _ fault. fault ≡ Memory };

    fn from(_: AllocFailed<T>) -> LineFault {
        LineFault::Memory
    }
}

impl From<AllocError> for LineFault {
    ghost use Rattle.std.specs.Prelude.{◌≡◌};
    ghost use Rattle.delay_memory.specs.declared.fault.LineFault.TheVariants.{Memory};

    ghost from_gives = { λ _ fault. fault ≡ Memory };

    fn from(_: AllocError) -> LineFault {
        LineFault::Memory
    }
}
