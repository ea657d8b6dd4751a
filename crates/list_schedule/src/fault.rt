//! Why a node has no cycle.

use bus_alloc::TableFault;
use std::alloc::{AllocError, AllocFailed};
use thiserror::Error;

/// Why there is no schedule.
#[derive(Debug, Clone, Copy, PartialEq, Eq, Drop, Error)]
pub enum PeriodFault {
    /// The first node, in the order in which nodes are placed, for which no cycle of the period is left.
    #[error("period exceeded at node {0}")]
    Period(u32),
    /// Out of memory.
    #[error("no memory")]
    Memory,
}

impl<T: Drop> From<AllocFailed<T>> for PeriodFault {
    ghost use Rattle.std.specs.Prelude.{◌≡◌};
    ghost use Rattle.list_schedule.specs.declared.fault.PeriodFault.TheVariants.{Memory};

    ghost from_gives = { λ _ fault. fault ≡ Memory };

    fn from(_: AllocFailed<T>) -> PeriodFault {
        PeriodFault::Memory
    }
}

impl From<AllocError> for PeriodFault {
    ghost use Rattle.std.specs.Prelude.{◌≡◌};
    ghost use Rattle.list_schedule.specs.declared.fault.PeriodFault.TheVariants.{Memory};

    ghost from_gives = { λ _ fault. fault ≡ Memory };

    fn from(_: AllocError) -> PeriodFault {
        PeriodFault::Memory
    }
}

impl From<TableFault> for PeriodFault {
    ghost use Rattle.std.specs.Prelude.{◌≡◌};
    ghost use Rattle.list_schedule.specs.declared.fault.PeriodFault.TheVariants.{Memory};

    ghost from_gives = { λ _ fault. fault ≡ Memory };

    fn from(_: TableFault) -> PeriodFault {
        PeriodFault::Memory
    }
}
