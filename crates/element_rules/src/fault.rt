//! Why the elements of a program are refused.

ghost use Rattle.std.specs.Prelude.{◌≡◌};

use std::alloc::{AllocError, AllocFailed};
use thiserror::Error;

/// Why the elements of a program are refused, each with its source position, a byte offset.
#[derive(Debug, Clone, Copy, PartialEq, Eq, Drop, Error)]
pub enum DefFault {
    /// An intermediate value of a manifest constant is below -2^31 or above 2^31-1.
    #[error("bad index")]
    Index(u32),
    /// A subscript that is not below its dim.
    #[error("out of bounds")]
    Bounds(u32),
    /// A delay that is not 0 to 1,023, any delay of a table, or an initial value for a sample that is not 1 to 1,023
    /// before sample 0.
    #[error("bad delay")]
    Delay(u32),
    /// The amount of a shift that is not 0 to 31.
    #[error("bad shift")]
    Shift(u32),
    /// A second definition of an element, or a second initial value for one sample.
    #[error("defined twice")]
    DefinedTwice(u32),
    /// An element without a definition: the position of its declaration.
    #[error("not defined")]
    NotDefined(u32),
    /// A load above 8,192, an instance inside 65 calls, or more than 16 input or output words.
    #[error("too large")]
    TooLarge(u32),
    /// Out of memory.
    #[error("no memory")]
    Memory,
}

/// The same, where an element without a definition has its row-major place in its declaration besides.
#[derive(Debug, Clone, Copy, PartialEq, Eq, Drop, Error)]
pub enum PlacedFault {
    #[error("bad index")]
    Index(u32),
    #[error("out of bounds")]
    Bounds(u32),
    #[error("bad delay")]
    Delay(u32),
    #[error("bad shift")]
    Shift(u32),
    #[error("defined twice")]
    DefinedTwice(u32),
    #[error("not defined")]
    NotDefined { at: u32, place: u32 },
    #[error("too large")]
    TooLarge(u32),
    #[error("no memory")]
    Memory,
}

impl From<PlacedFault> for DefFault {
    ghost use Rattle.element_rules.specs.ElementFaults.{without_place};

    ghost from_gives = { λ placed fault. fault ≡ without_place placed };

    fn from(placed: PlacedFault) -> DefFault {
        match placed {
            PlacedFault::Index(at) => DefFault::Index(at),
            PlacedFault::Bounds(at) => DefFault::Bounds(at),
            PlacedFault::Delay(at) => DefFault::Delay(at),
            PlacedFault::Shift(at) => DefFault::Shift(at),
            PlacedFault::DefinedTwice(at) => DefFault::DefinedTwice(at),
            PlacedFault::NotDefined { at, .. } => DefFault::NotDefined(at),
            PlacedFault::TooLarge(at) => DefFault::TooLarge(at),
            PlacedFault::Memory => DefFault::Memory,
        }
    }
}

impl<T: Drop> From<AllocFailed<T>> for PlacedFault {
    ghost use Rattle.element_rules.specs.declared.fault.PlacedFault.TheVariants.{Memory};

    ghost from_gives = { λ _ fault. fault ≡ Memory };

    fn from(_: AllocFailed<T>) -> PlacedFault {
        PlacedFault::Memory
    }
}

impl From<AllocError> for PlacedFault {
    ghost use Rattle.element_rules.specs.declared.fault.PlacedFault.TheVariants.{Memory};

    ghost from_gives = { λ _ fault. fault ≡ Memory };

    fn from(_: AllocError) -> PlacedFault {
        PlacedFault::Memory
    }
}
