//! The text of rows.
ghost use Rattle.std.specs.Prelude.{◌≡◌, ◌<◌, ◌≤◌, ◌++◌, length, OnOk, OnErr};
ghost use Rattle.sample_io.specs.Samples.{printed_row};

use lists::Bytes;
use sample_io::put_row;
use std::alloc::AllocError;

/// The most words of a row.
const ROW_WORDS: usize = 16;

/// The most bytes of a printed row.
const LINE: usize = 21 * ROW_WORDS + 1;

/// Adds a row to the text, of 1 to 16 words.
pub fn push_row(text: &mut Bytes, row: &[i64]) -> Result<(), AllocError>
    requires some { 0 < length row.now }
    requires few { length row.now ≤ 16 }
    ensures ok { OnOk result (text.new ≡ text.old ++ printed_row row.now) }
    ensures err { OnErr result (text.new ≡ text.old) }
{
    let mut line = [0u8; LINE];
    let size = put_row(row, &mut line);
    text.extend_from_slice(&line[..size])
}
