//! Reads a datapath file: the units, register files and buses that a program is compiled for.
//!
//! `docs/DATAPATH.md` describes the file. The format is in `specs/Table`, and `specs/PathOf` says which datapath a file
//! describes, or which fault it has first.
#![tactic(auto)]

mod arrays;
mod buses;
mod entries;
mod fault;
mod keys;
mod reader;
mod types;
mod units;
mod values;

pub use fault::{PathFault, Section};
pub use operations::{Kind, PortRef};
pub use reader::read;
pub use types::{Bus, Datapath, Unit};
