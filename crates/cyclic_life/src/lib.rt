//! The lifetimes of words in register files: for each node and each port that reads it, from the cycle in which a word
//! is written to its last read. Page `docs/PLANNING.md`, "Lifetimes".
#![tactic(auto)]

mod counting;
mod fault;
mod life;
mod merge;
mod placement;
mod read;

pub use fault::ArcFault;
pub use life::{arcs, stage_arcs};
