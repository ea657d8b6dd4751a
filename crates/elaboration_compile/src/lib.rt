//! The items of each function of a program as actions, by the rules on elements.
#![tactic(auto)]

mod checks;
mod expressions;
mod functions;
mod items;
mod lookups;
mod places;
mod scope;
mod weights;

pub use functions::{bodies, capped_elements};
