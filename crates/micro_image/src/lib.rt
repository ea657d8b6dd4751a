//! The image of a microprogram: what a valid one is, what the hardware does with it cycle by cycle, and which bytes
//! spell it.
//!
//! The code is types and a few tables. The meaning is in `specs/`: `Valid`, `Fields`, `Log`, `Conflict`, `Run`
//! and `Spells`.
#![tactic(auto)]

mod codes;
mod conflict;
mod image;
mod version;

pub use codes::{operations_have_places, operations_of, place_of, place_width_of};
pub use conflict::{Conflict, ConflictKind};
pub use image::{Enable, Enables, Image, Issue, PortRegisters, Take, Takes, UnitDesc, Word};
pub use operations::{Kind, PortRef, is_formatted, reads};
pub use short_lists::ShortList;
pub use version::Version;
