//! Small sets of numbers, as bits.
#![tactic(auto)]

mod set128;
mod set32;

pub use set32::Set32;
pub use set128::Set128;
