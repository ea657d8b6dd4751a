//! Why a graph has no plan.

use cyclic_life::ArcFault;
use delay_memory::LineFault;
use list_schedule::PeriodFault;
use reg_alloc::FileFault;
use std::alloc::AllocError;
use thiserror::Error;
use unit_assign::UnitFault;

/// Why there is no plan. At `Line` nodes have the numbers of the graph, at the others those of the lowered list.
#[derive(Debug, Clone, Copy, PartialEq, Eq, Drop, Error)]
pub enum PlanFault {
    /// The first node that needs a delay line and gets none, and why. Want of memory is an error of its own and never
    /// comes in here.
    #[error(transparent)]
    Line(LineFault),
    /// The first node without a unit, and why it has none. Want of memory is an error of its own and never comes
    /// in here.
    #[error(transparent)]
    Unit(UnitFault),
    /// The first node, in the order in which nodes are placed, for which no cycle of the period is left.
    #[error("period exceeded at node {0}")]
    Period(u32),
    /// The first lifetime, by unit, port, the cycle of its write, then node, of which a copy shares cycles with others
    /// in every register of its file.
    #[error("file full {unit}.{port} at node {node}")]
    FileFull { unit: u8, port: u8, node: u32 },
    /// Out of memory.
    #[error("no memory")]
    Memory,
}

impl From<AllocError> for PlanFault {
    ghost use Rattle.std.specs.Prelude.{◌≡◌};
    ghost use Rattle.planner.specs.declared.fault.PlanFault.TheVariants.{Memory};

    ghost from_gives = { λ _ plan_fault. plan_fault ≡ Memory };

    fn from(_: AllocError) -> PlanFault {
        PlanFault::Memory
    }
}

impl From<LineFault> for PlanFault {
    ghost use Rattle.std.specs.Prelude.{◌≡◌};
    ghost use Rattle.planner.specs.Private.Errors.{of_line};

    ghost from_gives = { λ fault plan_fault. plan_fault ≡ of_line fault };

    fn from(fault: LineFault) -> PlanFault {
        match fault {
            LineFault::Memory => PlanFault::Memory,
            fault => PlanFault::Line(fault),
        }
    }
}

impl From<UnitFault> for PlanFault {
    ghost use Rattle.std.specs.Prelude.{◌≡◌};
    ghost use Rattle.planner.specs.Private.Errors.{of_unit};

    ghost from_gives = { λ fault plan_fault. plan_fault ≡ of_unit fault };

    fn from(fault: UnitFault) -> PlanFault {
        match fault {
            UnitFault::Memory => PlanFault::Memory,
            fault => PlanFault::Unit(fault),
        }
    }
}

impl From<PeriodFault> for PlanFault {
    ghost use Rattle.std.specs.Prelude.{◌≡◌};
    ghost use Rattle.planner.specs.Private.Errors.{of_period};

    ghost from_gives = { λ fault plan_fault. plan_fault ≡ of_period fault };

    fn from(fault: PeriodFault) -> PlanFault {
        match fault {
            PeriodFault::Period(node) => PlanFault::Period(node),
            PeriodFault::Memory => PlanFault::Memory,
        }
    }
}

impl From<ArcFault> for PlanFault {
    ghost use Rattle.std.specs.Prelude.{◌≡◌};
    ghost use Rattle.planner.specs.declared.fault.PlanFault.TheVariants.{Memory};

    ghost from_gives = { λ _ plan_fault. plan_fault ≡ Memory };

    fn from(_: ArcFault) -> PlanFault {
        PlanFault::Memory
    }
}

impl From<FileFault> for PlanFault {
    ghost use Rattle.std.specs.Prelude.{◌≡◌};
    ghost use Rattle.planner.specs.Private.Errors.{of_file};

    ghost from_gives = { λ fault plan_fault. plan_fault ≡ of_file fault };

    fn from(fault: FileFault) -> PlanFault {
        match fault {
            FileFault::Full { unit, port, node } => PlanFault::FileFull { unit, port, node },
            FileFault::Memory => PlanFault::Memory,
        }
    }
}
