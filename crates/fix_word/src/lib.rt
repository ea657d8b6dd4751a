//! Words of fixed-point numbers: raw words that wrap or saturate to a width, formats with their rounding, the
//! conversion of words and of decimal literals, and the operations of a processor.
#![tactic(auto)]

mod literals;
mod operation;
mod types;
mod words;

pub use lists::{Bytes, Name};
pub use literals::literal;
pub use operation::{Op, apply};
pub use types::{FixType, Format, LitFault, MOST_BITS, Mode, Shape, SigType};
pub use words::{conv, form, wrap};
