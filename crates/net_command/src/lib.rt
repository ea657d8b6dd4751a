//! The command of nets: `net` runs several processors that are joined by bounded queues over the rows of a sample file.
//!
//! In `specs/`, `Processors` says which plan each processor of a net has or why one has none, `Nets` what a net has by
//! its files and which rows its programs put, and `Net` when each status comes. Page `docs/NETS.md`.
#![tactic(auto)]

mod joiner;
mod ports;
mod processors;
mod reading;
mod samples;

pub use joiner::net;
pub use net_fit::Ports;
pub use ports::ports_of;
