//! The rows of a sample file.
ghost use Rattle.std.specs.Prelude.{◌≡◌, ◌<◌, ◌^◌, [], length, IfOk, IfErr};
ghost use Rattle.sample_io.specs.Channels.{AreChannels};
ghost use Rattle.sample_io.specs.Pieces.{HasTaken};
ghost use Rattle.whole_samples.specs.Reading.{AreWordsOf, IsSamplesFault};
ghost use Rattle.whole_samples.specs.declared.reading.SamplesFault.TheVariants.{Row as Bad, Memory as Short};

use lists::List;
use sample_io::{Channel, RowFault, Rows, RowsFault, Step};
use std::alloc::{AllocError, Global};
use thiserror::Error;

/// Why the rows of a sample file are not there.
#[derive(Clone, Copy, Debug, PartialEq, Eq, Error)]
pub enum SamplesFault {
    /// A line is no row.
    #[error(transparent)]
    Row(RowFault),
    /// No memory was left.
    #[error("no memory")]
    Memory,
}

impl From<RowFault> for SamplesFault {
    ghost from_gives = { λ place fault. fault ≡ Bad place };

    fn from(place: RowFault) -> SamplesFault {
        SamplesFault::Row(place)
    }
}

impl From<RowsFault> for SamplesFault {
    ghost from_gives = { λ _ fault. fault ≡ Short };

    fn from(_: RowsFault) -> SamplesFault {
        SamplesFault::Memory
    }
}

impl From<AllocError> for SamplesFault {
    ghost from_gives = { λ _ fault. fault ≡ Short };

    fn from(_: AllocError) -> SamplesFault {
        SamplesFault::Memory
    }
}

/// The words of the rows of the text, by rows of which no byte was taken.
fn words_of(alloc: Global, rows: &mut Rows, text: &[u8]) -> Result<List<i64>, SamplesFault>
    requires fresh { HasTaken rows.old [] [] }
    requires few { length text.now < 2 ^ 60 }
    ensures ok { IfOk result (AreWordsOf rows.old.channels text.now) }
    ensures err { IfErr result (IsSamplesFault rows.old.channels text.now) }
{
    let mut words = List::new(alloc);
    let mut at = 0;
    'rows: while let Step::Row(count) = rows.feed(&text[at..])? {
        at += count;
        words.extend_from_slice(rows.row())?;
    }
    if let Step::Row(_) = rows.finish()? {
        words.extend_from_slice(rows.row())?;
    }
    Ok(words)
}

/// The words of the rows of a sample file, 1 to 16 in each row, row after row (docs/SAMPLES.md).
///
/// # Errors
///
/// `Row` with the first place that is no row. `Memory` where no memory is left.
pub fn read_rows(
    alloc: Global,
    text: &[u8],
    channels: &[Channel],
) -> Result<List<i64>, SamplesFault>
    requires channels { AreChannels channels.now }
    requires few { length text.now < 2 ^ 60 }
    ensures ok { IfOk result (AreWordsOf channels.now text.now) }
    ensures err { IfErr result (IsSamplesFault channels.now text.now) }
{
    let mut rows = Rows::new(alloc, channels)?;
    words_of(alloc, &mut rows, text)
}
