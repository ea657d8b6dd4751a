//! How a command ends: the statuses, their texts and exit codes, and the line that reports one.
//!
//! Each fault of a layer comes to one status: `Faults` in `specs/` says to which, and `Status` which exit code a
//! status has.
#![tactic(auto)]

mod reporter;
mod status;

pub use reporter::{report, report_error};
pub use status::{Ending, ImageFault, SampleFault, Status, UnitRefusal, code};
