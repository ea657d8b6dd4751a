//! The plan of a program on a datapath, and the rules that make it one. The code is types: the rules are in `specs/`, a
//! file for each, and worked plans are in `proofs/`. Page `docs/PLANNING.md`.
#![tactic(auto)]

mod delay_lines;
mod plan;
mod registers;
mod schedule;

pub use delay_lines::{Line, Lowered};
pub use plan::Plan;
pub use registers::{Arc, Arcs, CopyRegisters, Registers};
pub use schedule::{Assigned, Schedule, Slot, Transfer, Transfers};
