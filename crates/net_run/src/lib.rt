//! A net that is run to its end: all its samples, and the text of the net's rows.
#![tactic(auto)]

mod running;
mod texts;

pub use running::{RanNet, run_net};
