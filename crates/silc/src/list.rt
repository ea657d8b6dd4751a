//! `list MIC`: prints the image that microcode spells.
ghost use Rattle.std.specs.Prelude.{◌≤◌, [], ◌∷◌, length, IfOk, IfErr};
ghost use Rattle.desk_core.specs.Desk.{FaultsNeverFall};
ghost use Rattle.silc_files.specs.Endings.{IsAmong};
ghost use Rattle.silc_files.specs.Limits.{microcode_limit};
ghost use Rattle.silc.specs.Listing.{IsListAnswer};
ghost use Rattle.silc_files.specs.Printing.{ChangesNoFile};
ghost use Rattle.silc.specs.Private.Listing.{IsListingOf, IsMadeListing};
ghost use Rattle.silc_files.specs.Reading.{OnlyReads};
ghost use Rattle.sample_commands.specs.Loaded.{IsNoMachine};
ghost use Rattle.sample_commands.specs.Private.Running.{IsLoadError};

use desk_core::Desk;
use lists::Bytes;
use micro_file::decode;
use microcode_asm::listing;
use silc_files::{MICROCODE_LIMIT, print_whole, read_file};
use statuses::{ImageFault, Status};
use std::alloc::Global;

/// The listing of the image that the bytes spell.
fn listing_of(alloc: Global, microcode: &Bytes) -> Result<Bytes, Status>
    requires { length microcode.now ≤ microcode_limit }
    ensures ok { IfOk result (IsListingOf microcode.now) }
    ensures err { IfErr result (IsNoMachine microcode.now) }
{
    let image = decode(alloc, microcode)?;
    Ok(listing(alloc, &image)?)
}

/// Reads MIC, and makes the listing of its image.
fn make<D: Desk>(alloc: Global, desk: &mut D, name: &str) -> Result<Bytes, Status>
    ensures reads { OnlyReads (IsAmong (name.now ∷ [])) (D.view desk.old) (D.view desk.new) }
    ensures ok { IfOk result (IsMadeListing name.now (D.view desk.old) (D.view desk.new)) }
    ensures err { IfErr result (IsLoadError name.now (D.view desk.old) (D.view desk.new)) }
{
    let too_long = Status::Image(ImageFault::TooLong);
    let microcode = read_file(alloc, desk, name, MICROCODE_LIMIT, too_long)?;
    listing_of(alloc, &microcode)
}

/// Carries out `list`.
pub fn list<D: Desk>(alloc: Global, desk: &mut D, microcode: &str) -> Status
    ensures faults { FaultsNeverFall (D.view desk.old) (D.view desk.new) }
    ensures answer { IsListAnswer microcode.now (D.view desk.old) (D.view desk.new) result }
    ensures only { ChangesNoFile (IsAmong (microcode.now ∷ [])) (D.view desk.old) (D.view desk.new) }
{
    match make(alloc, desk, microcode) {
        Ok(text) => match print_whole(desk, &text) {
            Ok(()) => Status::Done,
            Err(failed) => Status::from(failed),
        },
        Err(status) => status,
    }
}
