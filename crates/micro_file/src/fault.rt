//! Why a file is of no image.

use thiserror::Error;

/// Why bytes could not be decoded: the first field, in reading order, that is not whole or not allowed, or the first
/// byte behind the last.
#[derive(Clone, Copy, Debug, PartialEq, Eq, Error)]
pub enum FormFault {
    /// One of the first four bytes is not that of the magic.
    #[error("bad magic")]
    Magic,
    /// The byte after the magic is no version that is known.
    #[error("bad version")]
    Version,
    /// The bytes, which are this many, end before a field is whole.
    #[error("short at {0}")]
    Short(u32),
    /// The field that begins in this byte is not allowed, or bits of this last byte should be zeros.
    #[error("bad field at {0}")]
    Field(u32),
    /// Bytes follow the last field, from this one on.
    #[error("trailing bytes at {0}")]
    Trailing(u32),
    /// No memory was left.
    #[error("no memory")]
    Memory,
}
