//! The commands over samples, `sim` and `eval`, and what `run` and `pipe` have in common with `sim`.
//!
//! In `specs/`, `Samples` says what SAMPLES has and how a run over it ends early, and `Sim` and `Eval` when each
//! status comes.
#![tactic(auto)]

mod evaluator;
mod simulator;
mod streams;

pub use evaluator::{eval, eval_samples};
pub use simulator::{Ready, machine_of, machine_rows, rows_for, run_ready, sim};
pub use streams::{SAMPLES_END, open_files, run_samples, stream_status};
