//! The simulator: a machine that runs a microprogram cycle by cycle.
#![tactic(auto)]

mod ahead;
mod conflicts;
mod cycle;
mod hardware;
mod load;
mod machine;
mod microcode;
mod order;
mod predecode;
mod predecoded;
mod rings;
mod steps;
mod values;

pub use machine::{LoadFault, Machine};
pub use micro_image::{Conflict, ConflictKind};
pub use microcode::Microcode;
pub use order::{Spot, Wrote};
