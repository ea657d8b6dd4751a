//! Texts that are made of parts.

use itoa::{Buffer, Integer};
use std::alloc::AllocError;

pub fn put(text: &mut Vec<u8>, part: &str) -> Result<(), AllocError> {
    text.extend_from_slice(part.as_bytes())
}

/// Puts a number after its lead.
pub fn put_number<N: Integer>(text: &mut Vec<u8>, lead: &str, number: N) -> Result<(), AllocError> {
    put(text, lead)?;
    let mut digits = Buffer::new();
    put(text, digits.format(number))
}
