//! The commands of samples that overlap (software pipelining): `stages` prints a plan over several stages, and `pipe`
//! runs its guarded image over samples.
//!
//! In `specs/`, `StagePlans` says which plan a source has or why it has none, and `Stages` and `Pipe` when each
//! status comes.
#![tactic(auto)]

mod piper;
mod planning;
mod printer;
mod samples;

pub use piper::pipe;
pub use planning::{StagePlanned, read_stage_plan, stage_plan_of};
pub use printer::stages;
pub use samples::{Ready, pipe_ready, pipe_samples};
