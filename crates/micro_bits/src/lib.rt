//! Packed bits: a reader and a writer of them, and an image as the bytes of its microcode file, version 2.
#![tactic(auto)]

mod bit_reader;
mod bit_writer;
mod encoder;
mod fault;
mod fields;
mod places;
pub mod widths;

pub use bit_reader::BitReader;
pub use encoder::encode;
pub use fault::{BitFault, CodeFault};
pub use fields::are_zeros;
pub use places::idle_bits_of;
