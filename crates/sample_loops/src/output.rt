//! Rows on their way to the current output of a desk.
ghost use Rattle.std.specs.Prelude.{◌≡◌, ◌<◌, ◌≤◌, ◌+◌, ◌++◌, [], length, OnOk, OnErr, IsErr};
ghost use Rattle.desk_core.specs.Desk.{FaultsNeverFall, WriteFailed};
ghost use Rattle.sample_io.specs.Samples.{printed_row};
ghost use Rattle.sample_loops.specs.Private.Buffers.{IsAppended, IsAppendedInPart, PassesOn};

use crate::writing::write_all;
use desk_core::{Desk, Failed};
use sample_io::put_row;
use std::marker::Model;

/// The most words of a row.
pub(crate) const ROW_WORDS: usize = 16;

/// The most bytes of a printed row.
const LINE: usize = 21 * ROW_WORDS + 1;

/// How many bytes wait at most.
const SIZE: usize = 8192;

/// Printed rows that wait to be written.
#[derive(Drop)]
pub(crate) struct RowBuffer {
    bytes: [u8; SIZE],
    len: usize,
}

impl Model for RowBuffer {
    ghost use Rattle.std.specs.Prelude.{◌≤◌, ℕ, List, take};

    ghost Value = { List ℕ };

    ghost view = { λ buffer. take buffer.len buffer.bytes };

    ghost invariant = { λ buffer. buffer.len ≤ 8192 };
}

impl RowBuffer {
    /// A buffer in which nothing waits.
    pub(crate) fn new() -> RowBuffer
        ensures { result ≡ [] }
    {
        RowBuffer {
            bytes: [0; SIZE],
            len: 0,
        }
    }

    /// Writes what waits.
    pub(crate) fn flush<D: Desk>(&mut self, desk: &mut D) -> Result<(), Failed>
        ensures never_fall { FaultsNeverFall (D.view desk.old) (D.view desk.new) }
        ensures cause { IsErr result → WriteFailed (D.view desk.old) (D.view desk.new) }
        ensures empty { OnOk result (self.new ≡ []) }
        ensures ok { OnOk result (IsAppended self.old (D.view desk.old) (D.view desk.new)) }
        ensures err { OnErr result (IsAppendedInPart self.old (D.view desk.old) (D.view desk.new)) }
    {
        write_all(desk, &self.bytes[..self.len])?;
        self.len = 0;
        Ok(())
    }

    /// Adds a row. Where there may be no room for it, what waits is written first.
    pub(crate) fn add<D: Desk>(&mut self, desk: &mut D, row: &[i64]) -> Result<(), Failed>
        requires some { 0 < length row.now }
        requires few { length row.now ≤ 16 }
        ensures never_fall { FaultsNeverFall (D.view desk.old) (D.view desk.new) }
        ensures cause { IsErr result → WriteFailed (D.view desk.old) (D.view desk.new) }
        ensures ok { OnOk result
            (PassesOn self.old (printed_row row.now) self.new (D.view desk.old) (D.view desk.new)) }
        ensures err { OnErr result (IsAppendedInPart self.old (D.view desk.old) (D.view desk.new)) }
    {
        if SIZE - self.len() < LINE {
            self.flush(desk)?;
        }
        self.put(row);
        Ok(())
    }

    /// Adds a row, for which there is room.
    fn put(&mut self, row: &[i64])
        requires some { 0 < length row.now }
        requires few { length row.now ≤ 16 }
        requires room { length self.old + 337 ≤ 8192 }
        ensures { self.new ≡ self.old ++ printed_row row.now }
    {
        self.len += put_row(row, &mut self.bytes[self.len..]);
    }

    /// How many bytes wait.
    fn len(&self) -> usize
        ensures len { result ≡ length self.now }
        ensures most { result ≤ 8192 }
    {
        self.len
    }
}
