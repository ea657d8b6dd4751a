//! Why it is not shown that microcode runs a source.
ghost use Rattle.std.specs.Prelude.{◌≡◌};
ghost use Rattle.same_source.specs.declared.refusal.Refusal.TheVariants.{Memory};

use image_labels::Mismatch;
use micro_file::FormFault;
use source_faults::FrontFault;
use std::alloc::AllocError;
use thiserror::Error;

/// Why it is not shown that microcode runs a source.
#[derive(Clone, Copy, Debug, PartialEq, Eq, Error)]
pub enum Refusal {
    /// The source has no program. The line is that of its fault, from 1, where it has one.
    #[error("{fault}")]
    Source {
        line: Option<u64>,
        fault: FrontFault,
    },
    /// There are more than 2^26 bytes of microcode.
    #[error("microcode too long")]
    TooLong,
    /// The bytes spell no image.
    #[error(transparent)]
    Microcode(FormFault),
    /// The image takes or puts other words than the program, in number or width.
    #[error("not shown: the input or output words are others than those of the source")]
    OtherWords,
    /// The first place at which the labels that were found do not fit. The image may run the source for all that.
    #[error("not shown: {0}")]
    NotShown(Mismatch),
    /// Out of memory.
    #[error("no memory")]
    Memory,
}

impl From<AllocError> for Refusal {
    ghost from_gives = { λ _ refusal. refusal ≡ Memory };

    fn from(_: AllocError) -> Self {
        Refusal::Memory
    }
}
