//! The desk over the files and standard streams of the host, for a program whose commands are written over any desk.
#![tactic(auto)]

mod host;
mod streams;

pub use host::HostDesk;
