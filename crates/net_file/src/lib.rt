//! Reads a net file: the processors of a net, the files of each, and the wires that feed them.
//!
//! `docs/NETS.md` describes the file. The format is in `specs/Table`; `specs/Described` says which net a file
//! describes, and `specs/NetRules` which fault it has first.
#![tactic(auto)]

mod keys;
mod procs;
mod reader;
mod wires;

pub use net_core::{NetFault, NetFile, NetProc, NetSection, Wire};
pub use reader::read_net;
