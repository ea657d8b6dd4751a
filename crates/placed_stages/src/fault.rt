//! Why there is no plan over several stages with the places that are given.

use bus_alloc::TableFault;
use cyclic_life::ArcFault;
use delay_memory::LineFault;
use reg_alloc::FileFault;
use std::alloc::{AllocError, AllocFailed};
use thiserror::Error;

/// Why there is no plan over several stages with the places that are given. At `Line` nodes have the numbers of the
/// graph, at the others those of the lowered list.
#[derive(Debug, Clone, Copy, PartialEq, Eq, Drop, Error)]
pub enum StagePlaceFault {
    /// The first node that needs a delay line and gets none, and why. Want of memory is an error of its own and never
    /// comes in here.
    #[error(transparent)]
    Line(LineFault),
    /// The first node without a place.
    #[error("no place for node {0}")]
    Missing(u32),
    /// The first place without a node.
    #[error("no node {0}")]
    Surplus(u32),
    /// The first node that cannot be on its unit: it has more bits than a word of the datapath.
    #[error("node {0} too wide")]
    TooWide(u32),
    /// The first node that cannot be on its unit: it is not there, does not do the node's operation, or is not meant
    /// for its ram.
    #[error("wrong unit for node {0}")]
    WrongUnit(u32),
    /// The first node, in the order in which nodes are placed, that cannot be issued in its cycle: an operand of the
    /// same sample is not there.
    #[error("operand late at node {0}")]
    Late(u32),
    /// As before: operands are there, and it does not end in its stages.
    #[error("stages exceeded at node {0}")]
    Past(u32),
    /// As before: it ends in its stages, and its unit is not free, or not free again a period later.
    #[error("unit busy at node {0}")]
    Busy(u32),
    /// As before: its unit is free, and its result can't be transferred to every port that reads it, since the port's
    /// file is written or no bus to it is free.
    #[error("no transfer from node {0}")]
    Blocked(u32),
    /// The first node that is not in its stages: an input behind the first one, an output that ends before the last
    /// one, or a store that ends after its word is loaded.
    #[error("wrong stage for node {0}")]
    Unstaged(u32),
    /// The first lifetime, by unit, port, the cycle of its write, then node, of which a copy shares cycles with others
    /// in every register of its file.
    #[error("file full {unit}.{port} at node {node}")]
    FileFull { unit: u8, port: u8, node: u32 },
    /// Out of memory.
    #[error("no memory")]
    Memory,
}

impl<T: Drop> From<AllocFailed<T>> for StagePlaceFault {
    ghost use Rattle.std.specs.Prelude.{◌≡◌};
    ghost use Rattle.placed_stages.specs.declared.fault.StagePlaceFault.TheVariants.{Memory};

    ghost from_gives = { λ _ fault. fault ≡ Memory };

    fn from(_: AllocFailed<T>) -> StagePlaceFault {
        StagePlaceFault::Memory
    }
}

impl From<AllocError> for StagePlaceFault {
    ghost use Rattle.std.specs.Prelude.{◌≡◌};
    ghost use Rattle.placed_stages.specs.declared.fault.StagePlaceFault.TheVariants.{Memory};

    ghost from_gives = { λ _ fault. fault ≡ Memory };

    fn from(_: AllocError) -> StagePlaceFault {
        StagePlaceFault::Memory
    }
}

impl From<TableFault> for StagePlaceFault {
    ghost use Rattle.std.specs.Prelude.{◌≡◌};
    ghost use Rattle.placed_stages.specs.declared.fault.StagePlaceFault.TheVariants.{Memory};

    ghost from_gives = { λ _ fault. fault ≡ Memory };

    fn from(_: TableFault) -> StagePlaceFault {
        StagePlaceFault::Memory
    }
}

impl From<LineFault> for StagePlaceFault {
    ghost use Rattle.std.specs.Prelude.{◌≡◌};
    ghost use Rattle.placed_stages.specs.Private.Errors.{of_line};

    ghost from_gives = { λ fault stage_fault. stage_fault ≡ of_line fault };

    fn from(fault: LineFault) -> StagePlaceFault {
        match fault {
            LineFault::Memory => StagePlaceFault::Memory,
            fault => StagePlaceFault::Line(fault),
        }
    }
}

impl From<ArcFault> for StagePlaceFault {
    ghost use Rattle.std.specs.Prelude.{◌≡◌};
    ghost use Rattle.placed_stages.specs.declared.fault.StagePlaceFault.TheVariants.{Memory};

    ghost from_gives = { λ _ fault. fault ≡ Memory };

    fn from(_: ArcFault) -> StagePlaceFault {
        StagePlaceFault::Memory
    }
}

impl From<FileFault> for StagePlaceFault {
    ghost use Rattle.std.specs.Prelude.{◌≡◌};
    ghost use Rattle.placed_stages.specs.Private.Errors.{of_file};

    ghost from_gives = { λ fault stage_fault. stage_fault ≡ of_file fault };

    fn from(fault: FileFault) -> StagePlaceFault {
        match fault {
            FileFault::Full { unit, port, node } => StagePlaceFault::FileFull { unit, port, node },
            FileFault::Memory => StagePlaceFault::Memory,
        }
    }
}
