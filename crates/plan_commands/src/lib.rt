//! The commands that plan: the plan of a source over a datapath, `compile` and `schedule`.
//!
//! In `specs/`, `Plans` says which plan a source has over a datapath, `Refusals` why it has none, `Headline` what
//! compiled microcode is, `Sources` what SRC has, and `Compile` and `Schedule` when each status comes.
#![tactic(auto)]

mod compiler;
mod planning;
mod scheduler;

pub use compiler::{compile, microcode_of};
pub use planning::{
    Inputs, Planned, datapath_in, plan_of, plan_over, planned_of, planned_over, read_inputs,
    read_plan, source_in,
};
pub use scheduler::schedule;
