//! Nets of processors: what a net file describes, and the faults of a net with their texts.
//!
//! `specs/Allowed` says which numbers and wires a net may have.
#![tactic(auto)]

mod fault;
mod types;

pub use fault::{NetFault, NetSection};
pub use types::{NetFile, NetProc, Wire};
