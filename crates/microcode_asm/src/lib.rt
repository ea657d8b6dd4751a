//! The assembler: the image of a plan, and a plan and an image as text. Page `docs/PLANNING.md`, "The image".
#![tactic(auto)]

mod arc_search;
mod assembler;
mod enables;
mod fault;
mod image_text;
mod issues;
mod lifetimes;
mod node_cycles;
mod node_line;
mod operation_text;
mod order;
mod plan_text;
mod printed;
mod starts;
mod takes;
mod text;
mod units;
mod word_lines;
mod words;

pub use assembler::{assemble, assemble_feasible, widths_of};
pub use enables::buses_of;
pub use fault::AsmFault;
pub use image_text::listing;
pub use issues::copy_ago;
pub use lifetimes::{Lifetimes, lifetime_at, lifetimes_of};
pub use order::unit_order;
pub use plan_text::{put_node_lines, schedule_text};
pub use printed::Printed;
pub use takes::{bus_to, copy_in};
pub use text::put_number;
pub use units::{blank_units, write_cell};
