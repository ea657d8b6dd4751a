//! Why nodes cannot stand at the places that are given.

use bus_alloc::TableFault;
use cyclic_life::ArcFault;
use delay_memory::LineFault;
use given_registers::RegisterFault;
use reg_alloc::FileFault;
use std::alloc::{AllocError, AllocFailed};
use thiserror::Error;

/// Why these places have no plan. At `Line` nodes have the numbers of the graph, at the others those of the lowered
/// list. Another choice of places, of buses or of registers may have a plan all the same.
#[derive(Debug, Clone, Copy, PartialEq, Eq, Drop, Error)]
pub enum PlaceFault {
    /// The first node that needs a delay line and gets none, and why. Want of memory is an error of its own and never
    /// comes in here.
    #[error(transparent)]
    Line(LineFault),
    /// The first node without a place.
    #[error("no place for node {0}")]
    Missing(u32),
    /// The first place without a node.
    #[error("no node {0}")]
    Surplus(u32),
    /// The first node that cannot be on its unit: it has more bits than a word of the datapath.
    #[error("node {0} too wide")]
    TooWide(u32),
    /// The first node that cannot be on its unit: it is not there, does not do the node's operation, or is not meant
    /// for its ram.
    #[error("wrong unit for node {0}")]
    WrongUnit(u32),
    /// The first node, in the order in which nodes are placed, that cannot be issued in its cycle: `operand` is the
    /// first node that it reads of the same sample whose result is not there. It is there from the cycle `from` on.
    #[error("operand {operand} of node {node} is there from cycle {from}")]
    Late { node: u32, operand: u32, from: u16 },
    /// As before: operands are there, and it does not end in the period.
    #[error("period exceeded at node {0}")]
    Past(u32),
    /// As before: it ends in the period, and its unit is not free.
    #[error("unit busy at node {0}")]
    Busy(u32),
    /// As before: its unit is free. This port is the first, by unit, then port, to which its result has to go and
    /// cannot: the port's register file is written in that cycle.
    #[error("file written {unit}.{port} at node {node}")]
    FileWritten { unit: u8, port: u8, node: u32 },
    /// As before, but the port's register file is not written, and no bus from the node's unit to the port is free.
    #[error("no bus to {unit}.{port} at node {node}")]
    NoBus { unit: u8, port: u8, node: u32 },
    /// The first lifetime, by unit, port, the cycle of its write, then node, of which a copy shares cycles with others
    /// in every register of its file.
    #[error("file full {unit}.{port} at node {node}")]
    FileFull { unit: u8, port: u8, node: u32 },
    /// Out of memory.
    #[error("no memory")]
    Memory,
}

impl<T: Drop> From<AllocFailed<T>> for PlaceFault {
    ghost use Rattle.std.specs.Prelude.{◌≡◌};
    ghost use Rattle.placed_plan.specs.declared.fault.PlaceFault.TheVariants.{Memory};

    ghost from_gives = { λ _ fault. fault ≡ Memory };

    fn from(_: AllocFailed<T>) -> PlaceFault {
        PlaceFault::Memory
    }
}

impl From<AllocError> for PlaceFault {
    ghost use Rattle.std.specs.Prelude.{◌≡◌};
    ghost use Rattle.placed_plan.specs.declared.fault.PlaceFault.TheVariants.{Memory};

    ghost from_gives = { λ _ fault. fault ≡ Memory };

    fn from(_: AllocError) -> PlaceFault {
        PlaceFault::Memory
    }
}

impl From<TableFault> for PlaceFault {
    ghost use Rattle.std.specs.Prelude.{◌≡◌};
    ghost use Rattle.placed_plan.specs.declared.fault.PlaceFault.TheVariants.{Memory};

    ghost from_gives = { λ _ fault. fault ≡ Memory };

    fn from(_: TableFault) -> PlaceFault {
        PlaceFault::Memory
    }
}

impl From<LineFault> for PlaceFault {
    ghost use Rattle.std.specs.Prelude.{◌≡◌};
    ghost use Rattle.placed_plan.specs.Private.Errors.{of_line};

    ghost from_gives = { λ fault place_fault. place_fault ≡ of_line fault };

    fn from(fault: LineFault) -> PlaceFault {
        match fault {
            LineFault::Memory => PlaceFault::Memory,
            fault => PlaceFault::Line(fault),
        }
    }
}

impl From<ArcFault> for PlaceFault {
    ghost use Rattle.std.specs.Prelude.{◌≡◌};
    ghost use Rattle.placed_plan.specs.declared.fault.PlaceFault.TheVariants.{Memory};

    ghost from_gives = { λ _ fault. fault ≡ Memory };

    fn from(_: ArcFault) -> PlaceFault {
        PlaceFault::Memory
    }
}

impl From<FileFault> for PlaceFault {
    ghost use Rattle.std.specs.Prelude.{◌≡◌};
    ghost use Rattle.placed_plan.specs.Private.Errors.{of_file};

    ghost from_gives = { λ fault place_fault. place_fault ≡ of_file fault };

    fn from(fault: FileFault) -> PlaceFault {
        match fault {
            FileFault::Full { unit, port, node } => PlaceFault::FileFull { unit, port, node },
            FileFault::Memory => PlaceFault::Memory,
        }
    }
}

/// Why there is no plan with these places and these registers.
#[derive(Debug, Clone, Copy, PartialEq, Eq, Drop, Error)]
pub enum GivenPlanFault {
    /// The places have none, whatever the registers are. `FileFull` and `Memory` never come in here.
    #[error(transparent)]
    Place(PlaceFault),
    /// Each node stands at its place, and the copies of lifetimes have no registers around those that are given.
    /// `Memory` never comes in here.
    #[error(transparent)]
    Registers(RegisterFault),
    /// Out of memory.
    #[error("no memory")]
    Memory,
}

impl From<AllocError> for GivenPlanFault {
    ghost use Rattle.std.specs.Prelude.{◌≡◌};
    ghost use Rattle.placed_plan.specs.declared.fault.GivenPlanFault.TheVariants.{Memory};

    ghost from_gives = { λ _ fault. fault ≡ Memory };

    fn from(_: AllocError) -> GivenPlanFault {
        GivenPlanFault::Memory
    }
}

impl From<PlaceFault> for GivenPlanFault {
    ghost use Rattle.std.specs.Prelude.{◌≡◌};
    ghost use Rattle.placed_plan.specs.Private.Errors.{of_place};

    ghost from_gives = { λ fault given_fault. given_fault ≡ of_place fault };

    fn from(fault: PlaceFault) -> GivenPlanFault {
        match fault {
            PlaceFault::Memory => GivenPlanFault::Memory,
            fault => GivenPlanFault::Place(fault),
        }
    }
}

impl From<RegisterFault> for GivenPlanFault {
    ghost use Rattle.std.specs.Prelude.{◌≡◌};
    ghost use Rattle.placed_plan.specs.Private.Errors.{of_registers};

    ghost from_gives = { λ fault given_fault. given_fault ≡ of_registers fault };

    fn from(fault: RegisterFault) -> GivenPlanFault {
        match fault {
            RegisterFault::Memory => GivenPlanFault::Memory,
            fault => GivenPlanFault::Registers(fault),
        }
    }
}
