//! Sample files: the rows of raw words that a machine reads and writes, one line of text a row.
#![tactic(auto)]

mod channel;
mod pieces;
mod read;
mod write;

pub use channel::Channel;
pub use pieces::{Rows, RowsFault, Step};
use thiserror::Error;
pub use write::put_row;

/// The first place of a sample file that is no row.
#[derive(Debug, Clone, Copy, PartialEq, Eq, Drop, Error)]
#[error("samples line {line} byte {at}")]
pub struct RowFault {
    /// The line, from 1.
    pub line: u64,
    /// The first byte of the line, from 0, after which the line begins no row. Where the input ends within the line,
    /// the line's length.
    pub at: u64,
}
