//! Why microcode is not for a datapath.
ghost use Rattle.std.specs.Prelude.{◌≡◌};
ghost use Rattle.same_source.specs.declared.unfit.PathRefusal.TheVariants.{Memory};

use datapath::PathFault;
use image_fit::Unfit;
use micro_file::FormFault;
use std::alloc::AllocError;
use thiserror::Error;

/// Why microcode is not for a datapath.
#[derive(Clone, Copy, Debug, PartialEq, Eq, Error)]
pub enum PathRefusal {
    /// The file describes no datapath.
    #[error(transparent)]
    Path(PathFault),
    /// There are more than 2^26 bytes of microcode.
    #[error("microcode too long")]
    TooLong,
    /// The bytes spell no image.
    #[error(transparent)]
    Microcode(FormFault),
    /// The first place at which the image is not one of the datapath.
    #[error("not of the datapath: {0}")]
    Unfit(Unfit),
    /// Out of memory.
    #[error("no memory")]
    Memory,
}

impl From<AllocError> for PathRefusal {
    ghost from_gives = { λ _ refusal. refusal ≡ Memory };

    fn from(_: AllocError) -> Self {
        PathRefusal::Memory
    }
}
