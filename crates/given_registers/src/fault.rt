//! Why there are no registers around those that are given.

use std::alloc::{AllocError, AllocFailed};
use thiserror::Error;

/// Why a copy cannot have the register that is given for it.
#[derive(Debug, Clone, Copy, PartialEq, Eq, Drop, Error)]
pub enum GivenCause {
    /// No lifetime is of this node at this port, or it has fewer copies.
    #[error("no such copy")]
    NoCopy,
    /// The file has fewer registers.
    #[error("no such register")]
    NoRegister,
    /// A register before it is given for the same copy.
    #[error("copy twice")]
    Twice,
    /// It is given before for another copy, which shares a cycle with this one.
    #[error("register taken")]
    Taken,
}

/// Why there are no registers around those that are given.
#[derive(Debug, Clone, Copy, PartialEq, Eq, Drop, Error)]
pub enum RegisterFault {
    /// The first of the given registers, by its number among them, that its copy cannot have.
    #[error("given register {index}: {cause}")]
    Given { index: usize, cause: GivenCause },
    /// The first lifetime, by unit, port, the cycle of its write, then node, of which a copy is given no register and
    /// finds none.
    #[error("file full {unit}.{port} at node {node}")]
    Full { unit: u8, port: u8, node: u32 },
    /// Out of memory.
    #[error("no memory")]
    Memory,
}

impl<T: Drop> From<AllocFailed<T>> for RegisterFault {
    ghost use Rattle.std.specs.Prelude.{◌≡◌};
    ghost use Rattle.given_registers.specs.declared.fault.RegisterFault.TheVariants.{Memory};

    ghost from_gives = { λ _ fault. fault ≡ Memory };

    fn from(_: AllocFailed<T>) -> RegisterFault {
        RegisterFault::Memory
    }
}

impl From<AllocError> for RegisterFault {
    ghost use Rattle.std.specs.Prelude.{◌≡◌};
    ghost use Rattle.given_registers.specs.declared.fault.RegisterFault.TheVariants.{Memory};

    ghost from_gives = { λ _ fault. fault ≡ Memory };

    fn from(_: AllocError) -> RegisterFault {
        RegisterFault::Memory
    }
}
