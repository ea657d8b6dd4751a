//! Why a text gives no places.

use std::alloc::{AllocError, AllocFailed};
use thiserror::Error;

/// What is wrong with a line that begins with `node`.
#[derive(Debug, Clone, Copy, PartialEq, Eq, Error)]
pub enum LineCause {
    /// Behind the number of the node there is no `cycle`, or behind that of the cycle no `unit`.
    #[error("not node V cycle T unit NAME")]
    Form,
    /// What stands in the place of a number is none: digits without a zero in front, for a node below 2^32, for a cycle
    /// below 2^16.
    #[error("no number")]
    Number,
    /// The datapath has no unit of that name.
    #[error("unknown unit")]
    Unit,
    /// A line before has the same node.
    #[error("node twice")]
    Twice,
}

/// Why a text gives no places.
#[derive(Debug, Clone, Copy, PartialEq, Eq, Drop, Error)]
pub enum GivenFault {
    /// The first line that is wrong, from 1. Lines with the same node are found after all others.
    #[error("line {line}: {cause}")]
    Line { line: u32, cause: LineCause },
    /// No line has this node, and one has a node with a greater number.
    #[error("no place for node {0}")]
    Missing(u32),
    /// Out of memory.
    #[error("no memory")]
    Memory,
}

impl<T: Drop> From<AllocFailed<T>> for GivenFault {
    ghost use Rattle.std.specs.Prelude.{◌≡◌};
    ghost use Rattle.place_file.specs.declared.fault.GivenFault.TheVariants.{Memory};

    ghost from_gives = { λ _ fault. fault ≡ Memory };

    fn from(_: AllocFailed<T>) -> GivenFault {
        GivenFault::Memory
    }
}

impl From<AllocError> for GivenFault {
    ghost use Rattle.std.specs.Prelude.{◌≡◌};
    ghost use Rattle.place_file.specs.declared.fault.GivenFault.TheVariants.{Memory};

    ghost from_gives = { λ _ fault. fault ≡ Memory };

    fn from(_: AllocError) -> GivenFault {
        GivenFault::Memory
    }
}

/// What is wrong with a line that begins with `register`.
#[derive(Debug, Clone, Copy, PartialEq, Eq, Error)]
pub enum RegisterLineCause {
    /// A word is not what stands in its place.
    #[error("not register R unit NAME port P node V copy K")]
    Form,
    /// What stands in the place of a number is none: digits without a zero in front, for a node below 2^32, for the
    /// others below 2^8.
    #[error("no number")]
    Number,
    /// The datapath has no unit of that name.
    #[error("unknown unit")]
    Unit,
}

/// Why a text gives no registers.
#[derive(Debug, Clone, Copy, PartialEq, Eq, Drop, Error)]
pub enum RegistersFault {
    /// The first line that is wrong, from 1.
    #[error("line {line}: {cause}")]
    Line { line: u32, cause: RegisterLineCause },
    /// Out of memory.
    #[error("no memory")]
    Memory,
}

impl<T: Drop> From<AllocFailed<T>> for RegistersFault {
    ghost use Rattle.std.specs.Prelude.{◌≡◌};
    ghost use Rattle.place_file.specs.declared.fault.RegistersFault.TheVariants.{Memory};

    ghost from_gives = { λ _ fault. fault ≡ Memory };

    fn from(_: AllocFailed<T>) -> RegistersFault {
        RegistersFault::Memory
    }
}
