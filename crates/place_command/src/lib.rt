//! The command that makes microcode of a plan from elsewhere: which unit and which cycle each node has is read from a file,
//! and whatever wrote it is not trusted. Page `docs/PLANNING.md`, "Plans from elsewhere".
#![tactic(auto)]

mod ending;
mod placer;
mod reporter;

pub use ending::{PlaceEnding, Refusal, code};
pub use placer::place;
pub use reporter::report;
