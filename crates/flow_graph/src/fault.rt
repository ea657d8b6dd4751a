//! Why a flat program has no graph.

ghost use Rattle.std.specs.Prelude.{◌≡◌};

use std::alloc::{AllocError, AllocFailed};
use thiserror::Error;

/// Why a flat program has no graph.
#[derive(Debug, Clone, Copy, PartialEq, Eq, Drop, Error)]
pub enum GraphFault {
    /// The first element that depends on itself without a delay.
    #[error("delayless loop")]
    Loop(u32),
    /// Out of memory.
    #[error("no memory")]
    Memory,
}

impl<T: Drop> From<AllocFailed<T>> for GraphFault {
    ghost use Rattle.flow_graph.specs.declared.fault.GraphFault.TheVariants.{Memory};

    ghost from_gives = { λ _ fault. fault ≡ Memory };

    fn from(_: AllocFailed<T>) -> GraphFault {
        GraphFault::Memory
    }
}

impl From<AllocError> for GraphFault {
    ghost use Rattle.flow_graph.specs.declared.fault.GraphFault.TheVariants.{Memory};

    ghost from_gives = { λ _ fault. fault ≡ Memory };

    fn from(_: AllocError) -> GraphFault {
        GraphFault::Memory
    }
}
