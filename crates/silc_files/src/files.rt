//! Inputs, each read whole.
ghost use Rattle.std.specs.Prelude.{◌≡◌, ◌<◌, ◌≤◌, ◌^◌, [], ◌∷◌, length, IfOk, IfErr, OnOk};
ghost use Rattle.desk_core.specs.Desk.{WhereSpecified, content_of};
ghost use Rattle.desk_core.specs.Whole.{IsReadThrough};
ghost use Rattle.silc_files.specs.Endings.{IsAmong};
ghost use Rattle.silc_files.specs.Limits.{text_limit};
ghost use Rattle.silc_files.specs.Reading.{OnlyReads, IsInput, IsShort, IsInputError, IsReadError};

use desk_core::{Desk, ReadFault, read_whole};
use lists::Bytes;
use statuses::Status;
use std::alloc::Global;

/// The most bytes of a source, and of a datapath.
const TEXT_LIMIT: u64 = 1 << 20;

/// The most bytes of microcode.
pub const MICROCODE_LIMIT: u64 = 1 << 26;

/// A source or a datapath, as it was read.
#[derive(Drop)]
pub enum Input {
    Whole(Bytes),
    TooLong,
}

/// Reads a source or a datapath whole. One that is too long is rejected later, when its own check comes.
pub fn read_input<D: Desk>(alloc: Global, desk: &mut D, name: &str) -> Result<Input, Status>
    ensures reads { OnlyReads (IsAmong (name.now ∷ [])) (D.view desk.old) (D.view desk.new) }
    ensures through { OnOk result (IsReadThrough name.now text_limit (D.view desk.old) (D.view desk.new)) }
    ensures short { IfOk result IsShort }
    ensures ok { IfOk result (λ found.
        WhereSpecified (D.view desk.old) (λ files. IsInput (content_of (files name.now)) found)) }
    ensures err { IfErr result (IsInputError name.now (D.view desk.old) (D.view desk.new)) }
{
    match read_whole(alloc, desk, name, TEXT_LIMIT) {
        Ok(bytes) => Ok(Input::Whole(bytes)),
        Err(ReadFault::TooLong) => Ok(Input::TooLong),
        Err(ReadFault::Desk) => Err(Status::Desk),
        Err(ReadFault::Memory) => Err(Status::Memory),
    }
}

/// Reads a file whole. `too_long` is the status where it has more bytes than the limit.
pub fn read_file<D: Desk>(
    alloc: Global,
    desk: &mut D,
    name: &str,
    limit: u64,
    too_long: Status,
) -> Result<Bytes, Status>
    requires { limit < 2 ^ 60 }
    ensures reads { OnlyReads (IsAmong (name.now ∷ [])) (D.view desk.old) (D.view desk.new) }
    ensures through { OnOk result (IsReadThrough name.now limit (D.view desk.old) (D.view desk.new)) }
    ensures within { IfOk result (λ bytes. length bytes ≤ limit) }
    ensures content { IfOk result (λ bytes.
        WhereSpecified (D.view desk.old) (λ files. bytes ≡ content_of (files name.now))) }
    ensures err { IfErr result (IsReadError name.now limit too_long (D.view desk.old) (D.view desk.new)) }
{
    match read_whole(alloc, desk, name, limit) {
        Ok(bytes) => Ok(bytes),
        Err(ReadFault::TooLong) => Err(too_long),
        Err(ReadFault::Desk) => Err(Status::Desk),
        Err(ReadFault::Memory) => Err(Status::Memory),
    }
}
