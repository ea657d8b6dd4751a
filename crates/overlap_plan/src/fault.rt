//! Why a graph has no plan over so many stages.

use cyclic_life::ArcFault;
use delay_memory::LineFault;
use list_schedule::PeriodFault;
use reg_alloc::FileFault;
use std::alloc::AllocError;
use thiserror::Error;
use unit_assign::UnitFault;

/// Why there is no plan. At `Line` nodes have the numbers of the graph, at the others those of the lowered list. Out of
/// memory is an error of its own and never comes inside another.
#[derive(Debug, Clone, Copy, PartialEq, Eq, Drop, Error)]
pub enum StageFault {
    /// The first node that needs a delay line and gets none, and why.
    #[error(transparent)]
    Line(LineFault),
    /// The first node without a unit, and why it has none.
    #[error(transparent)]
    Unit(UnitFault),
    /// The first node, in the order in which nodes are placed, for which no cycle of the stages is left.
    #[error("period exceeded at node {0}")]
    Period(u32),
    /// The first lifetime, by unit, port, the cycle of its write, then node, of which a copy shares cycles with others
    /// in every register of its file.
    #[error(transparent)]
    File(FileFault),
    /// Out of memory.
    #[error("no memory")]
    Memory,
}

impl From<AllocError> for StageFault {
    ghost use Rattle.std.specs.Prelude.{◌≡◌};
    ghost use Rattle.overlap_plan.specs.declared.fault.StageFault.TheVariants.{Memory};

    ghost from_gives = { λ _ stage_fault. stage_fault ≡ Memory };

    fn from(_: AllocError) -> StageFault {
        StageFault::Memory
    }
}

impl From<LineFault> for StageFault {
    ghost use Rattle.std.specs.Prelude.{◌≡◌};
    ghost use Rattle.overlap_plan.specs.Private.Errors.{of_line};

    ghost from_gives = { λ fault stage_fault. stage_fault ≡ of_line fault };

    fn from(fault: LineFault) -> StageFault {
        match fault {
            LineFault::Memory => StageFault::Memory,
            fault => StageFault::Line(fault),
        }
    }
}

impl From<UnitFault> for StageFault {
    ghost use Rattle.std.specs.Prelude.{◌≡◌};
    ghost use Rattle.overlap_plan.specs.Private.Errors.{of_unit};

    ghost from_gives = { λ fault stage_fault. stage_fault ≡ of_unit fault };

    fn from(fault: UnitFault) -> StageFault {
        match fault {
            UnitFault::Memory => StageFault::Memory,
            fault => StageFault::Unit(fault),
        }
    }
}

impl From<PeriodFault> for StageFault {
    ghost use Rattle.std.specs.Prelude.{◌≡◌};
    ghost use Rattle.overlap_plan.specs.Private.Errors.{of_period};

    ghost from_gives = { λ fault stage_fault. stage_fault ≡ of_period fault };

    fn from(fault: PeriodFault) -> StageFault {
        match fault {
            PeriodFault::Period(node) => StageFault::Period(node),
            PeriodFault::Memory => StageFault::Memory,
        }
    }
}

impl From<ArcFault> for StageFault {
    ghost use Rattle.std.specs.Prelude.{◌≡◌};
    ghost use Rattle.overlap_plan.specs.declared.fault.StageFault.TheVariants.{Memory};

    ghost from_gives = { λ _ stage_fault. stage_fault ≡ Memory };

    fn from(_: ArcFault) -> StageFault {
        StageFault::Memory
    }
}

impl From<FileFault> for StageFault {
    ghost use Rattle.std.specs.Prelude.{◌≡◌};
    ghost use Rattle.overlap_plan.specs.Private.Errors.{of_file};

    ghost from_gives = { λ fault stage_fault. stage_fault ≡ of_file fault };

    fn from(fault: FileFault) -> StageFault {
        match fault {
            FileFault::Memory => StageFault::Memory,
            fault => StageFault::File(fault),
        }
    }
}
