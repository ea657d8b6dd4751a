//! Printing, piece after piece.
ghost use Rattle.std.specs.Prelude.{◌≡◌, OnOk, OnErr, IsErr};
ghost use Rattle.desk_core.specs.Desk.{FaultsNeverFall, IfSpecified, PrintFaultsRose};
ghost use Rattle.silc_files.specs.Printing.{IsPrintedMore, IsPrintedInPart, PrintsOnly};

use desk_core::{Desk, Failed};

/// Prints all of the bytes. After a failure a prefix of them is printed.
pub fn print_whole<D: Desk>(desk: &mut D, bytes: &[u8]) -> Result<(), Failed>
    ensures never_fall { FaultsNeverFall (D.view desk.old) (D.view desk.new) }
    ensures cause { IsErr result → PrintFaultsRose (D.view desk.old) (D.view desk.new) }
    ensures only { PrintsOnly (D.view desk.old) (D.view desk.new) }
    ensures ok { OnOk result
        (IfSpecified (IsPrintedMore bytes.now) (D.view desk.old).printed (D.view desk.new).printed) }
    ensures err { OnErr result
        (IfSpecified (IsPrintedInPart bytes.now) (D.view desk.old).printed (D.view desk.new).printed) }
{
    let mut done = 0;
    while done < bytes.len() {
        done += desk.print(&bytes[done..])?;
    }
    Ok(())
}
