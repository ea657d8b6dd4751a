//! Why a field is not read, before its place in the file is known.
ghost use Rattle.std.specs.Prelude.{◌≡◌};
ghost use Rattle.micro_file.specs.declared.misread.Misread.TheVariants.{Field};
ghost use Rattle.micro_file.specs.declared.misread.Unread.TheVariants.{Misread as misread, Memory};

use std::alloc::{AllocError, AllocFailed};

/// Why no field is in front of what is left, which is bytes in version 1 and bits in version 2. Its place is told by
/// how much is left there.
#[derive(Clone, Copy)]
pub(crate) enum Misread {
    /// A byte of the magic is another.
    Magic,
    /// The version is another.
    Version,
    /// What is left ends before the field is whole.
    Short,
    /// The field is not allowed. So much is left where it begins.
    Field { left: usize },
    /// Nothing should follow, and so much is left.
    Trailing { left: usize },
}

/// Why nothing was read.
#[derive(Clone, Copy)]
pub(crate) enum Unread {
    Misread(Misread),
    Memory,
}

/// The field that begins where so much is left is not allowed.
// Inlined, it costs words of a thousand transfers 23 per cent more instructions.
#[inline(never)]
pub(crate) fn refused(left: usize) -> Unread
    ensures { result ≡ misread (Field left) }
{
    Unread::Misread(Misread::Field { left })
}

impl From<AllocError> for Unread {
    ghost from_gives = { λ _ unread. unread ≡ Memory };

    fn from(_: AllocError) -> Unread {
        Unread::Memory
    }
}

impl<T: Drop> From<AllocFailed<T>> for Unread {
    ghost from_gives = { λ _ unread. unread ≡ Memory };

    fn from(_: AllocFailed<T>) -> Unread {
        Unread::Memory
    }
}
