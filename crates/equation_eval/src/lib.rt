//! The evaluator: what the equations of a graph give, sample by sample. Page `docs/GRAPH.md`, "Evaluation".
#![tactic(auto)]

mod evaluator;
mod layout;
mod memory;
mod order;
mod program;
mod ran;
mod run;

pub use evaluator::{EvalFault, Evaluator};
