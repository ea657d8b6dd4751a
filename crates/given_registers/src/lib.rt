//! Registers for cyclic lifetimes where some are given: those are taken as they are, and first fit finds the others
//! around them. Page `docs/PLANNING.md`, "Plans from elsewhere".
#![tactic(auto)]

mod around;
mod check;
mod circle;
mod fault;
mod given;

pub use around::allot_around;
pub use fault::{GivenCause, RegisterFault};
pub use given::GivenRegister;
