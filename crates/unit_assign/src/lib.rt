//! The binding of the nodes of a graph to the functional units of a datapath, in which each node goes to the unit with
//! the fewest nodes so far. Page `docs/PLANNING.md`, "Units".
#![tactic(auto)]

mod binding;
mod drivers;
mod fault;
mod kinds;
mod problem;
mod units;
mod wiring;

pub use fault::UnitFault;
pub use units::{assign, bind};
