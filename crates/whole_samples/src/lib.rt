//! Sample files that are in memory whole: the rows of one, and the text of rows.
#![tactic(auto)]

mod reading;
mod writing;

pub use reading::{SamplesFault, read_rows};
pub use writing::push_row;
