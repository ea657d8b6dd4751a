//! The environment of the program as one value: files that are read and written, what is printed, and
//! the counts of faults.
#![tactic(auto)]

mod desk;
mod input;
mod memory;
mod never_fails;
mod stored;
mod whole;

pub use desk::{Desk, Failed};
pub use memory::{DeskFault, MemDesk};
pub use never_fails::NeverFails;
pub use whole::{ReadFault, read_whole, write_whole};
