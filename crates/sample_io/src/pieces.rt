//! Sample files that come in pieces.

ghost use Rattle.std.specs.Prelude.{◌≡◌, ◌<◌, length, replicate, slice_set, pos, Some, None, Err, OnOk, IfOk, IfErr, IfSome, OnErr, [], ◌∷◌};
ghost use Rattle.sample_io.specs.Channels.{AreChannels};
ghost use Rattle.sample_io.specs.Pieces.{HasTaken, CanTake, TakesPiece, MeetsFault, EndsInput, EndsInFault};
ghost use Rattle.sample_io.specs.Private.Filling.{TakesNextByte};

use crate::read::{Progress, Reader};
use crate::{Channel, RowFault};
use ghost_lists::Past;
use lists::List;
use std::alloc::{AllocError, Global};
use std::marker::Model;
use std::mem;
use thiserror::Error;

/// The rows of a sample file that is fed piece by piece. It keeps the row that ended last and the line begun.
#[derive(Drop)]
pub struct Rows {
    channels: List<Channel>,
    reader: Reader,
    begun: List<i64>,
    shown: List<i64>,
    fault: Option<RowFault>,
    taken: Past<u8>,
}

impl Model for Rows {
    ghost use Rattle.sample_io.specs.FedRows.{FedRows};

    ghost Value = { FedRows };

    ghost use Rattle.sample_io.specs.Private.Places.{kept_of, fed_rows, AreFed};

    ghost view = { λ rows.
        fed_rows (kept_of rows.channels rows.shown rows.fault rows.reader rows.begun) rows.taken };

    ghost invariant = { λ rows.
        AreFed (kept_of rows.channels rows.shown rows.fault rows.reader rows.begun) rows.taken };
}

/// What a piece gave.
#[derive(Clone, Copy, Debug, PartialEq, Eq)]
pub enum Step {
    /// No row. More bytes are needed.
    Need,
    /// A row, which so many bytes of the piece end.
    Row(usize),
}

/// Why there are no rows to be fed.
#[derive(Debug, Clone, Copy, PartialEq, Eq, Drop, Error)]
pub enum RowsFault {
    /// There was no memory for a row.
    #[error("no memory")]
    Memory,
}

impl From<AllocError> for RowsFault {
    ghost use Rattle.std.specs.Prelude.{◌≡◌};
    ghost use Rattle.sample_io.specs.declared.pieces.RowsFault.TheVariants.{Memory};

    ghost from_gives = { λ _ fault. fault ≡ Memory };

    fn from(_: AllocError) -> RowsFault {
        RowsFault::Memory
    }
}

/// A row of zeros.
fn zeros(alloc: Global, width: usize) -> Result<List<i64>, AllocError>
    ensures { IfOk result (λ row. row ≡ replicate width (pos 0)) }
{
    Ok(List::from_vec(vec![in alloc; 0i64; width]?))
}

/// Puts the last word of the row that was begun, which is shown from now on.
fn end_row(begun: &mut List<i64>, shown: &mut List<i64>, column: usize, word: i64)
    requires { column < length begun.old }
    ensures shown { shown.new ≡ slice_set begun.old column word }
    ensures begun { begun.new ≡ shown.old }
{
    begun[column] = word;
    mem::swap(begun, shown);
}

/// Shows the row that was begun, with this last word.
fn show_last(begun: &List<i64>, shown: &mut List<i64>, column: usize, word: i64)
    requires column { column < length begun.now }
    requires places { length shown.old ≡ length begun.now }
    ensures { shown.new ≡ slice_set begun.now column word }
{
    shown.copy_from_slice(begun.as_slice());
    shown[column] = word;
}

impl Rows {
    /// The rows of a file of which no byte was taken yet.
    pub fn new(alloc: Global, channels: &[Channel]) -> Result<Rows, RowsFault>
        requires { AreChannels channels.now }
        ensures channels { IfOk result (λ rows. rows.channels ≡ channels.now) }
        ensures taken { IfOk result (λ rows. HasTaken rows [] []) }
        ensures zeros { IfOk result (λ rows. rows.row ≡ replicate (length channels.now) (pos 0)) }
    {
        Ok(Rows {
            channels: List::from_slice(alloc, channels)?,
            reader: Reader::new(),
            begun: zeros(alloc, channels.len())?,
            shown: zeros(alloc, channels.len())?,
            fault: None,
            taken: Past::none(),
        })
    }

    /// The row that ended last, or zeros before the first.
    pub fn row(&self) -> &[i64]
        ensures row { result.now ≡ self.now.row }
        ensures width { length result.now ≡ length self.now.channels }
    {
        self.shown.as_slice()
    }

    /// Takes the bytes of the piece up to the first end of a row. After a bad place every call answers it.
    pub fn feed(&mut self, piece: &[u8]) -> Result<Step, RowFault>
        requires { CanTake self.old (length piece.now) }
        ensures channels { self.new.channels ≡ self.old.channels }
        ensures takes { IfOk result (TakesPiece self.old piece.now self.new) }
        ensures fault { IfErr result (MeetsFault self.old piece.now) }
        ensures shown { OnErr result (self.new.row ≡ self.old.row) }
        ensures stays { IfErr result (λ fault. self.new.fault ≡ Some fault) }
        ensures kept { IfSome self.old.fault (λ fault. (result ≡ Err fault) × (self.new ≡ self.old)) }
    {
        if let Some(fault) = self.fault {
            return Err(fault);
        }
        for (i, byte) in piece.iter().enumerate() {
            if self.take(*byte)? {
                return Ok(Step::Row(i + 1));
            }
        }
        Ok(Step::Need)
    }

    /// Takes the next byte, and says whether it ended a row.
    fn take(&mut self, byte: u8) -> Result<bool, RowFault>
        requires running { self.old.fault ≡ None }
        requires room { CanTake self.old 1 }
        ensures channels { self.new.channels ≡ self.old.channels }
        ensures running { OnOk result (self.new.fault ≡ None) }
        ensures takes { IfOk result (TakesNextByte self.old byte self.new) }
        ensures fault { IfErr result (MeetsFault self.old (byte ∷ [])) }
        ensures shown { OnErr result (self.new.row ≡ self.old.row) }
        ensures stays { IfErr result (λ fault. self.new.fault ≡ Some fault) }
    {
        self.taken.push(&byte);
        let column = self.reader.column();
        match self.reader.step(&self.channels, byte) {
            Ok(Progress::Within) => Ok(false),
            Ok(Progress::Word(word)) => {
                self.begun[column] = word;
                Ok(false)
            }
            Ok(Progress::Row(word)) => {
                end_row(&mut self.begun, &mut self.shown, column, word);
                Ok(true)
            }
            Err(fault) => {
                self.fault = Some(fault);
                Err(fault)
            }
        }
    }

    /// The end of input, which may end a row. It comes once.
    pub fn finish(&mut self) -> Result<Step, RowFault>
        requires { CanTake self.old 0 }
        ensures channels { self.new.channels ≡ self.old.channels }
        ensures taken { self.new.taken ≡ self.old.taken }
        ensures ends { IfOk result (EndsInput self.old self.new) }
        ensures fault { IfErr result (EndsInFault self.old) }
        ensures shown { OnErr result (self.new.row ≡ self.old.row) }
        ensures stays { IfErr result (λ fault. self.new.fault ≡ Some fault) }
        ensures kept { IfSome self.old.fault (λ fault. (result ≡ Err fault) × (self.new ≡ self.old)) }
    {
        if let Some(fault) = self.fault {
            return Err(fault);
        }
        match self.reader.finish(&self.channels) {
            Ok(None) => Ok(Step::Need),
            Ok(Some(word)) => {
                let column = self.reader.column();
                show_last(&self.begun, &mut self.shown, column, word);
                Ok(Step::Row(0))
            }
            Err(fault) => {
                self.fault = Some(fault);
                Err(fault)
            }
        }
    }
}
