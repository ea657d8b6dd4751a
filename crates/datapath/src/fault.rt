ghost use Rattle.std.specs.Prelude.{◌≡◌};
ghost use Rattle.datapath.specs.declared.fault.PathFault.TheVariants.{Memory};

use std::alloc::{AllocError, AllocFailed};
use thiserror::Error;

/// A table of the file.
#[derive(Clone, Copy, Debug, PartialEq, Eq, Error)]
pub enum Section {
    /// The keys before the first `[[unit]]` or `[[bus]]`.
    #[error("top")]
    Top,
    /// A unit, counted from 0.
    #[error("unit {0}")]
    Unit(u8),
    /// A bus, counted from 0.
    #[error("bus {0}")]
    Bus(u8),
}

/// Why a value is not one that its key may have.
#[derive(Clone, Copy, Debug, PartialEq, Eq)]
pub(crate) enum Misfit {
    WrongKind,
    Range,
}

/// The first fault of a datapath file. `docs/DATAPATH.md` has their order.
#[derive(Clone, Copy, Debug, PartialEq, Eq, Error)]
pub enum PathFault {
    /// There are more than 2^20 bytes.
    #[error("datapath too long")]
    TooLong,
    /// The bytes are no TOML.
    #[error("datapath is not TOML")]
    NotToml,
    /// The table has a key that it can't have.
    #[error("datapath {0}: unknown key")]
    UnknownKey(Section),
    /// The table lacks a key that has no default.
    #[error("datapath {0}: missing key")]
    Missing(Section),
    /// A value is no number, text or array where it has to be one.
    #[error("datapath {0}: wrong kind")]
    WrongKind(Section),
    /// A number, a text or the length of an array is not allowed.
    #[error("datapath {0}: out of range")]
    Range(Section),
    /// No unit has the name, or it is no ram where an acu names it.
    #[error("datapath {0}: unknown unit")]
    UnknownUnit(Section),
    /// The unit has no such port.
    #[error("datapath {0}: unknown port")]
    UnknownPort(Section),
    /// An earlier unit or bus has the name, or the bus names a unit or a port again.
    #[error("datapath {0}: named twice")]
    Twice(Section),
    /// No memory was left.
    #[error("no memory")]
    Memory,
}

impl From<AllocError> for PathFault {
    ghost from_gives = { λ _ fault. fault ≡ Memory };

    fn from(_: AllocError) -> PathFault {
        PathFault::Memory
    }
}

impl<T: Drop> From<AllocFailed<T>> for PathFault {
    ghost from_gives = { λ _ fault. fault ≡ Memory };

    fn from(_: AllocFailed<T>) -> PathFault {
        PathFault::Memory
    }
}
