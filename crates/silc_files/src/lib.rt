//! What the commands do with files and standard output: inputs read whole, and texts printed.
//!
//! In `specs/`, `Limits` says how long a file may be, `Reading` and `Printing` what these calls do to a desk, and
//! `Endings` what the ways in which a command ends have in common.
#![tactic(auto)]

mod files;
mod print;

pub use files::{Input, MICROCODE_LIMIT, read_file, read_input};
pub use print::print_whole;
