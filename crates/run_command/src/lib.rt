//! The command `run`: a source that is compiled for a datapath, and its microcode run over samples.
//!
//! In `specs/`, `Run` says when each status comes.
#![tactic(auto)]

mod runner;

pub use runner::run;
