//! List scheduling: by falling height each node gets the least cycle in which its operands are there, its unit is free,
//! and its result can be transferred to every port that reads it. Page `docs/PLANNING.md`, "Cycles".
#![tactic(auto)]

mod fault;
mod placing;
mod scheduler;

pub use fault::PeriodFault;
pub use placing::{no_slots, ready};
pub use scheduler::schedule;
