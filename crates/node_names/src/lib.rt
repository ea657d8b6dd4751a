//! The nodes of a source's graph in the words of the source: which element each belongs to, and its name.
#![tactic(auto)]

mod names;
mod owners;
mod signals;
mod text;

pub use names::{NodeNames, node_names};
pub use owners::{Owner, owners_of};
pub use text::{put, put_number};
