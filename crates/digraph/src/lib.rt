//! Directed graphs: which vertex is the first that reaches itself along arcs.
#![tactic(auto)]

mod cycles;
mod walk;

pub use cycles::first_cyclic;
