//! The front end: from the bytes of a source to its program, or to its first fault and the place of it.
//!
//! `accept` gives the program with its graph, `accept_flat` with its flat program. `HasProgram` and `IsFrontFault` of
//! `source_faults` say which fault of a source is the first over all phases and which program it has where there is
//! none, and `specs/Answers` what the calls answer. The faults of a phase stand with its crate.
#![tactic(auto)]

mod acceptance;
mod checks;
mod flat;
mod lines;
mod names;
mod rejection;

pub use acceptance::{Accepted, AcceptedFlat, accept, accept_flat};
