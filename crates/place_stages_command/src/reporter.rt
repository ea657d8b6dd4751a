//! The line of an error.
ghost use Rattle.desk_core.specs.Desk.{FaultsNeverFall, IsUnchanged};

use crate::ending::{PipeEnding, PipeRefusal};
use arrayvec::ArrayString;
use desk_core::Desk;
use statuses::report_error;
use std::fmt::Write;

/// A line that is reported. The longest, of a full register file, has 71 bytes.
type Line = ArrayString<96>;

/// Reports that PLAN gives no plan.
fn report_refusal<D: Desk>(desk: &mut D, refusal: &PipeRefusal)
    ensures faults { FaultsNeverFall (D.view desk.old) (D.view desk.new) }
    ensures unchanged { IsUnchanged (D.view desk.old) (D.view desk.new) }
{
    let mut line = Line::new();
    let _ = writeln!(line, "silc_place: {refusal}");
    desk.complain(line.as_bytes());
}

/// Reports an error in one line. It takes no memory, and names of elements have any length.
pub fn report<D: Desk>(desk: &mut D, ending: &PipeEnding)
    ensures faults { FaultsNeverFall (D.view desk.old) (D.view desk.new) }
    ensures unchanged { IsUnchanged (D.view desk.old) (D.view desk.new) }
{
    match ending {
        PipeEnding::Told(ending) => report_error(desk, "silc_place", ending),
        PipeEnding::Refused(refusal) => report_refusal(desk, refusal),
    }
}
