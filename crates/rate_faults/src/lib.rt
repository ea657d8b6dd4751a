//! The faults of a frame, the row of a machine that runs a program several times per sample, with their texts.
#![tactic(auto)]

ghost use Rattle.std.specs.Prelude.{◌≡◌};
ghost use Rattle.rate_faults.specs.declared.FrameFault.TheVariants.{Memory};

use std::alloc::{AllocError, AllocFailed};
use thiserror::Error;

/// Why a program isn't unfolded to frames.
#[derive(Clone, Copy, Debug, PartialEq, Eq, Error)]
pub enum FrameFault {
    /// A word that is named as slow is no output word, or no input word, of the program.
    #[error("frame word {0} unknown")]
    Word(u8),
    /// A frame row has more than 16 input words or more than 16 output words.
    #[error("frame has too many words")]
    Ports,
    /// The unfolded program is too large: its elements and operations are more than 8,192.
    #[error("frame too large")]
    Weight,
    /// No memory was left.
    #[error("no memory")]
    Memory,
}

impl From<AllocError> for FrameFault {
    ghost from_gives = { λ _ fault. fault ≡ Memory };

    fn from(_: AllocError) -> FrameFault {
        FrameFault::Memory
    }
}

impl<T: Drop> From<AllocFailed<T>> for FrameFault {
    ghost from_gives = { λ _ fault. fault ≡ Memory };

    fn from(_: AllocFailed<T>) -> FrameFault {
        FrameFault::Memory
    }
}
