//! The line of an error.
ghost use Rattle.desk_core.specs.Desk.{FaultsNeverFall, IsUnchanged};

use crate::ending::{PlaceEnding, Refusal};
use arrayvec::ArrayString;
use desk_core::Desk;
use statuses::report_error;
use std::fmt::Write;

/// A part of a line that is reported. The longest, of an operand that is late, has 98 bytes.
type Piece = ArrayString<112>;

/// Reports that there is no plan with the places of PLAN.
fn report_refusal<D: Desk>(desk: &mut D, refusal: &Refusal)
    ensures faults { FaultsNeverFall (D.view desk.old) (D.view desk.new) }
    ensures unchanged { IsUnchanged (D.view desk.old) (D.view desk.new) }
{
    let mut piece = Piece::new();
    let _ = writeln!(piece, "silc_place: {refusal}");
    desk.complain(piece.as_bytes());
}

/// Reports an error in one line. It takes no memory, and names of elements have any length.
pub fn report<D: Desk>(desk: &mut D, ending: &PlaceEnding)
    ensures faults { FaultsNeverFall (D.view desk.old) (D.view desk.new) }
    ensures unchanged { IsUnchanged (D.view desk.old) (D.view desk.new) }
{
    match ending {
        PlaceEnding::Told(ending) => report_error(desk, "silc_place", ending),
        PlaceEnding::Refused(refusal) => report_refusal(desk, refusal),
    }
}
