//! The instances and elements of a program: the rules that say which there are and how they are numbered, and
//! their faults.
#![tactic(auto)]

mod elements;
mod fault;
mod subscripts;
mod turns;

pub use elements::{Element, Elements, Instance};
pub use fault::{DefFault, PlacedFault};
pub use subscripts::{Subscripts, subscripts_at};
pub use turns::{turn_at, turn_count};
