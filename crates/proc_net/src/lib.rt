//! A net of processors: machines that run side by side, turn by turn, and hand rows to one another through
//! bounded queues.
//!
//! `net_solution` says which rows each processor puts, `specs/Nets` where a net is after any turns. The turns
//! themselves are those of `net_turns`.
#![tactic(auto)]

mod net;
mod processor;
mod turns;

pub use net::{Images, Net, NetRunFault, Turn};
pub use net_core::{NetFile, NetProc, Wire};
pub use net_solution::RowList;
