//! Precedence: how tightly a text holds together, the loosest first.

/// A chain of `|`.
pub const OR: u8 = 0;
/// A chain of `&`.
pub const AND: u8 = 1;
/// A comparison, which does not chain.
pub const COMPARISON: u8 = 2;
/// A chain of `+` and `-`.
pub const SUM: u8 = 3;
/// A chain of `*`.
pub const PRODUCT: u8 = 4;
/// A chain of `<<` and `>>`.
pub const SHIFT: u8 = 5;
/// A `-` or `!` with its operand.
pub const UNARY: u8 = 6;
/// A literal, a name, a cast, a conditional, or anything in parentheses.
pub const PRIMARY: u8 = 7;
