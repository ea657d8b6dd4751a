//! Microcode files: an image as the bytes of version 2, and the bytes of either version as the image that they spell.
#![tactic(auto)]

mod arguments;
mod bit_fields;
mod bit_words;
mod byte_reader;
mod byte_transfers;
mod byte_words;
mod decoder;
mod fault;
mod fields;
mod hardware;
mod misread;
mod order;
mod tables;
mod units;
mod word_flags;

pub use decoder::decode;
pub use fault::FormFault;
pub use micro_bits::{CodeFault, encode};
pub use tables::OPERATIONS;
