//! The order in which list scheduling places the nodes of a graph, by falling critical-path height, then by number; and
//! the ports to which each result goes. Page `docs/PLANNING.md`, "Cycles".
#![tactic(auto)]

mod destinations;
mod height_buckets;
mod heights;
mod order;
mod ports;
mod problem;

pub use destinations::Destinations;
pub use order::placing_order;
pub use problem::Problem;
