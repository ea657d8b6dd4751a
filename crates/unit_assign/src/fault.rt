//! Why a node has no unit.

ghost use Rattle.std.specs.Prelude.{◌≡◌};

use datapath::Kind;
use std::alloc::{AllocError, AllocFailed};
use thiserror::Error;

/// Why the first node without a unit has none.
#[derive(Debug, Clone, Copy, PartialEq, Eq, Error)]
pub enum UnitFault {
    /// The node has more bits than a word of the datapath.
    #[error("node {0} too wide")]
    TooWide(u32),
    /// No unit is of the kind that does the node's operation, or is meant for its ram.
    #[error("no unit {} for node {node}", kind.name())]
    NoUnit { kind: Kind, node: u32 },
    /// No unit of the right kind has all routes, and the first of them has none to or from this port.
    #[error("no route to {unit}.{port} for node {node}")]
    NoRoute { unit: u8, port: u8, node: u32 },
    /// Out of memory.
    #[error("no memory")]
    Memory,
}

impl<T: Drop> From<AllocFailed<T>> for UnitFault {
    ghost use Rattle.unit_assign.specs.declared.fault.UnitFault.TheVariants.{Memory};

    ghost from_gives = { λ _ fault. fault ≡ Memory };

    fn from(_: AllocFailed<T>) -> UnitFault {
        UnitFault::Memory
    }
}

impl From<AllocError> for UnitFault {
    ghost use Rattle.unit_assign.specs.declared.fault.UnitFault.TheVariants.{Memory};

    ghost from_gives = { λ _ fault. fault ≡ Memory };

    fn from(_: AllocError) -> UnitFault {
        UnitFault::Memory
    }
}
