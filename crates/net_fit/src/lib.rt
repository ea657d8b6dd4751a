//! Whether the processors of a net fit one another: each word of the net's row is read, no file is overwritten, and
//! each wire joins words of one shape.
//!
//! In `specs/`, `Names` and `Joints` have the rules, as tables in the order of their faults, and `Joints` the types of
//! the net's words.
#![tactic(auto)]

mod channels;
mod joints;
mod names;
mod ports;
mod wires;

pub use channels::net_channels;
pub use joints::check_joints;
pub use names::check_names;
pub use ports::Ports;
