//! Registers for cyclic lifetimes, by first fit. Page `docs/PLANNING.md`, "Registers".
#![tactic(auto)]

mod allocator;
mod circle;
mod fault;
mod file;
mod occupancy;
mod unrolling;

pub use allocator::allot;
pub use fault::FileFault;
pub use unrolling::unroll;
