//! Delay lines: the long delays of a graph become cells of the rams of a datapath. Page `docs/PLANNING.md`,
//! "Delay lines".
#![tactic(auto)]

mod copies;
mod delays;
mod fault;
mod lines;
mod lowering;
mod nodes;
mod numbers;
mod target;

pub use fault::LineFault;
pub use lowering::{lower, lower_over, lower_owned};
