//! Unfolding: of a program that runs at a fast rate, the program that does several of its samples in one, over rows
//! that hold them all. Page `docs/RATES.md`.
#![tactic(auto)]

mod faults;
mod frames;
mod phases;
mod program;

pub use program::unfold;
pub use rate_faults::FrameFault;
