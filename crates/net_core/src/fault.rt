ghost use Rattle.std.specs.Prelude.{◌≡◌};
ghost use Rattle.net_core.specs.declared.fault.NetFault.TheVariants.{Memory};

use std::alloc::{AllocError, AllocFailed};
use thiserror::Error;

/// A table of a net file.
#[derive(Clone, Copy, Debug, PartialEq, Eq, Error)]
pub enum NetSection {
    /// The keys before the first `[[proc]]`.
    #[error("top")]
    Top,
    /// A processor, counted from 0.
    #[error("processor {0}")]
    Proc(u8),
}

/// Why a net is not run.
#[derive(Clone, Copy, Debug, PartialEq, Eq, Error)]
pub enum NetFault {
    /// The file has more than 2^20 bytes.
    #[error("net too long")]
    TooLong,
    /// The bytes of the file are no TOML.
    #[error("net is not TOML")]
    NotToml,
    /// The table has a key that it can't have.
    #[error("net {0}: unknown key")]
    UnknownKey(NetSection),
    /// The table lacks a key that has no default.
    #[error("net {0}: missing key")]
    Missing(NetSection),
    /// A value is no number, text or array where it has to be one.
    #[error("net {0}: wrong kind")]
    WrongKind(NetSection),
    /// A number, a text, a wire or the length of an array is not allowed.
    #[error("net {0}: out of range")]
    Range(NetSection),
    /// No processor reads this word of the net's row.
    #[error("net input {0} unused")]
    Unfed(u8),
    /// The output has the name of a file of this processor.
    #[error("net output overwrites a file of processor {0}")]
    Overwrites(u8),
    /// The processor has not one wire for each of its input words.
    #[error("wrong feeds of processor {0}")]
    Count(u8),
    /// A wire brings a word that is not there, or that has another shape than the input word.
    #[error("feed {word} of processor {proc} does not fit")]
    Feed {
        /// The processor that the wire leads to.
        proc: u8,
        /// Which of its input words.
        word: u8,
    },
    /// No memory was left.
    #[error("no memory")]
    Memory,
}

impl From<AllocError> for NetFault {
    ghost from_gives = { λ _ fault. fault ≡ Memory };

    fn from(_: AllocError) -> NetFault {
        NetFault::Memory
    }
}

impl<T: Drop> From<AllocFailed<T>> for NetFault {
    ghost from_gives = { λ _ fault. fault ≡ Memory };

    fn from(_: AllocFailed<T>) -> NetFault {
        NetFault::Memory
    }
}
