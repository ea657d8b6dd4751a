//! Samples that overlap in one processor: guarded images, and the machine that runs them.
#![tactic(auto)]

mod cycles;
mod enables;
mod guarded;
mod guarding;
mod issues;
mod machine;
mod obeyed;
mod prologue;
mod starts;
mod stream;
mod takes;
mod words;

pub use guarded::{Guarded, GuardedWord, Staged};
pub use guarding::{guard, guard_feasible};
pub use machine::{GuardedMachine, Unguarded, unguard};
pub use stream::run_guarded;
