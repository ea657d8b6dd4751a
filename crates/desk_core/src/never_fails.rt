ghost use Rattle.desk_core.specs.Private.Inputs.{InputStands};

use crate::desk::{Desk, Failed};
use crate::input::CurrentInput;
use crate::memory::DeskFault;
use crate::stored::{Stored, copy_piece, put};
use lists::{Bytes, List};
use std::alloc::Global;

/// A desk in memory of which no call fails. Its files are those that were put there: it drops what is
/// written or printed. It specifies its files until the first one is created, and its current input
/// always, but for the name of a file that is missing.
#[derive(Drop)]
pub struct NeverFails {
    alloc: Global,
    files: List<Stored>,
    created: bool,
    place: u64,
    input: CurrentInput,
    ghost input_stands: { InputStands files input },
}

impl NeverFails {
    ghost use Rattle.std.specs.Prelude.{◌≡◌, OnOk, OnErr};
    ghost use Rattle.desk_core.specs.NeverFails.{state, empty_state, HasPut};

    /// A desk that holds nothing.
    pub fn new(alloc: Global) -> NeverFails
        ensures { state result ≡ empty_state }
    {
        NeverFails {
            alloc,
            files: List::new(alloc),
            created: false,
            place: 0,
            input: CurrentInput::Absent,
        }
    }

    /// Makes the named file hold the bytes. It is no current input any more.
    pub fn put(&mut self, name: &str, bytes: &[u8]) -> Result<(), DeskFault>
        ensures ok { OnOk result (HasPut name.now bytes.now (state self.old) (state self.new)) }
        ensures err { OnErr result (state self.new ≡ state self.old) }
    {
        let bytes = Bytes::from_slice(self.alloc, bytes)?;
        let input = self.input.apart_from(self.files.as_slice(), name);
        put(self.alloc, &mut self.files, name, bytes)?;
        self.input = input;
        Ok(())
    }
}

impl Desk for NeverFails {
    ghost use Rattle.std.specs.Prelude.{◌≡◌, ◌<◌, ◌^◌, true, IsOk, IsErr, IfOk, OnOk, OnErr, [], length};
    ghost use Rattle.desk_core.specs.Desk.{FaultsNeverFall, ReadFaultsRose, WriteFaultsRose, PrintFaultsRose, ReadFailed, WriteFailed, IsUnchanged, IsUnchangedButOutput, IsReading, IsRead, IsWriting, IsWritten, IsClosed, IsPrinted};
    ghost use Rattle.desk_core.specs.NeverFails.{state, view_of, opened, after_read};
    ghost use Rattle.desk_core.specs.Private.NeverOutput.{output_always_specified};

    ghost view = { λ desk. view_of desk };

    fn open_input(&mut self, name: &str) -> Result<(), Failed>
        ensures never_fall { FaultsNeverFall (view_of self.old) (view_of self.new) }
        ensures cause { IsErr result → ReadFaultsRose name.now (view_of self.old) (view_of self.new) }
        ensures ok { OnOk result (IsReading name.now 0 (view_of self.old) (view_of self.new)) }
        ensures err { OnErr result (IsUnchanged (view_of self.old) (view_of self.new)) }
        ensures never_fails { IsOk result }
        ensures state { state self.new ≡ opened name.now (state self.old) }
    {
        self.place = 0;
        self.input = CurrentInput::of(self.files.as_slice(), name);
        Ok(())
    }

    fn read(&mut self, buf: &mut [u8]) -> Result<usize, Failed>
        requires { (view_of self.old).place < 2 ^ 60 }
        ensures never_fall { FaultsNeverFall (view_of self.old) (view_of self.new) }
        ensures cause { IsErr result → ReadFailed (view_of self.old) (view_of self.new) }
        ensures ok { IfOk result (λ n. IsRead n buf.old buf.new (view_of self.old) (view_of self.new)) }
        ensures err { OnErr result (IsUnchanged (view_of self.old) (view_of self.new)) }
        ensures never_fails { IsOk result }
        ensures state { IfOk result (λ n. state self.new ≡ after_read n (state self.old)) }
    {
        let CurrentInput::File(input) = self.input else {
            return Ok(0);
        };
        let bytes = input.bytes(self.files.as_slice());
        let n = copy_piece(bytes, self.place, usize::MAX, buf);
        self.place += n as u64;
        Ok(n)
    }

    fn create(&mut self, name: &str) -> Result<(), Failed>
        ensures never_fall { FaultsNeverFall (view_of self.old) (view_of self.new) }
        ensures cause { IsErr result → WriteFaultsRose name.now (view_of self.old) (view_of self.new) }
        ensures ok { OnOk result (IsWriting name.now [] (view_of self.old) (view_of self.new)) }
        ensures err { OnErr result (IsUnchangedButOutput (view_of self.old) (view_of self.new)) }
        ensures never_fails { IsOk result }
        ensures files { (state self.new).files ≡ (state self.old).files }
        ensures created { (state self.new).created ≡ true }
    {
        self.created = true;
        self.input = self.input.apart_from(self.files.as_slice(), name);
        Ok(())
    }

    fn write(&mut self, piece: &[u8]) -> Result<usize, Failed>
        ensures never_fall { FaultsNeverFall (view_of self.old) (view_of self.new) }
        ensures cause { IsErr result → WriteFailed (view_of self.old) (view_of self.new) }
        ensures ok { IfOk result (λ n. IsWritten n piece.now (view_of self.old) (view_of self.new)) }
        ensures err { OnErr result (IsUnchanged (view_of self.old) (view_of self.new)) }
        ensures never_fails { IsOk result }
        ensures whole { IfOk result (λ n. n ≡ length piece.now) }
        ensures same { state self.new ≡ state self.old }
    {
        Ok(piece.len())
    }

    fn close(&mut self) -> Result<(), Failed>
        ensures never_fall { FaultsNeverFall (view_of self.old) (view_of self.new) }
        ensures cause { IsErr result → WriteFailed (view_of self.old) (view_of self.new) }
        ensures ok { OnOk result (IsClosed (view_of self.old) (view_of self.new)) }
        ensures err { OnErr result (IsUnchangedButOutput (view_of self.old) (view_of self.new)) }
        ensures never_fails { IsOk result }
        ensures same { state self.new ≡ state self.old }
    {
        Ok(())
    }

    fn print(&mut self, piece: &[u8]) -> Result<usize, Failed>
        ensures never_fall { FaultsNeverFall (view_of self.old) (view_of self.new) }
        ensures cause { IsErr result → PrintFaultsRose (view_of self.old) (view_of self.new) }
        ensures ok { IfOk result (λ n. IsPrinted n piece.now (view_of self.old) (view_of self.new)) }
        ensures err { OnErr result (IsUnchanged (view_of self.old) (view_of self.new)) }
        ensures never_fails { IsOk result }
        ensures whole { IfOk result (λ n. n ≡ length piece.now) }
        ensures same { state self.new ≡ state self.old }
    {
        Ok(piece.len())
    }

    fn complain(&mut self, _piece: &[u8])
        ensures never_fall { FaultsNeverFall (view_of self.old) (view_of self.new) }
        ensures unchanged { IsUnchanged (view_of self.old) (view_of self.new) }
        ensures same { state self.new ≡ state self.old }
    {}

    ghost output_specified = { λ desk. output_always_specified desk };
}
