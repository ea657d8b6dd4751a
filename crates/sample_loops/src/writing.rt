//! Bytes for the current output of a desk.
ghost use Rattle.std.specs.Prelude.{OnOk, OnErr, IsErr};
ghost use Rattle.desk_core.specs.Desk.{FaultsNeverFall, WriteFailed};
ghost use Rattle.sample_loops.specs.Private.Buffers.{IsAppended, IsAppendedInPart};

use desk_core::{Desk, Failed};

/// Writes all of the bytes. After a failure a prefix of them is written.
pub(crate) fn write_all<D: Desk>(desk: &mut D, bytes: &[u8]) -> Result<(), Failed>
    ensures never_fall { FaultsNeverFall (D.view desk.old) (D.view desk.new) }
    ensures cause { IsErr result → WriteFailed (D.view desk.old) (D.view desk.new) }
    ensures ok { OnOk result (IsAppended bytes.now (D.view desk.old) (D.view desk.new)) }
    ensures err { OnErr result (IsAppendedInPart bytes.now (D.view desk.old) (D.view desk.new)) }
{
    let mut done = 0;
    while done < bytes.len() {
        done += desk.write(&bytes[done..])?;
    }
    Ok(())
}
