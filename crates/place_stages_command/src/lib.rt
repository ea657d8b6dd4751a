//! The command that runs a plan over several stages from elsewhere over samples: which unit and which cycle each node has is
//! read from a file, and whatever wrote it is not trusted. Page `docs/PLANNING.md`, "Plans from elsewhere".
//!
//! In `specs/`, `Piped` says what was run and what OUT has, and `Unpiped` when each error comes.
#![tactic(auto)]

mod ending;
mod piper;
mod reporter;

pub use ending::{PipeEnding, PipeRefusal, code};
pub use piper::place_pipe;
pub use reporter::report;
