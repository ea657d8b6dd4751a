//! A topological order of nodes: each comes behind those that it reads without a delay.
#![tactic(auto)]

mod order;
mod search;
mod sorted;

pub use order::topological_order;
