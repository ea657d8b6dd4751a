//! Texts that give places to nodes, in lines as `node 3 cycle 5 unit alu`: what `silc schedule` prints, or what any
//! other planner writes. Page `docs/PLANNING.md`, "Plans from elsewhere".
#![tactic(auto)]

mod entry;
mod fault;
mod given;
mod line;
mod number;
mod register_line;
mod registers;

pub use fault::{GivenFault, LineCause, RegisterLineCause, RegistersFault};
pub use given::{Given, places_in};
pub use registers::{GivenRegisters, registers_in};
