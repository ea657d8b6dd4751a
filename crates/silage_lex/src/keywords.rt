//! The numbers of reserved words, as tokens hold them: places in the list of reserved words.

/// `func`
pub const FUNC: u8 = 0;
/// `const`
pub const CONST: u8 = 1;
/// `var`
pub const VAR: u8 = 2;
/// `begin`
pub const BEGIN: u8 = 3;
/// `end`
pub const END: u8 = 4;
/// `fix`
pub const FIX: u8 = 5;
/// `bool`
pub const BOOL: u8 = 6;
/// `trunc`
pub const TRUNC: u8 = 7;
/// `round`
pub const ROUND: u8 = 8;
/// `if`
pub const IF: u8 = 9;
/// `fi`
pub const FI: u8 = 10;
/// `true`
pub const TRUE: u8 = 11;
/// `false`
pub const FALSE: u8 = 12;
/// `sat`
pub const SAT: u8 = 13;
/// `down`, which stands in no rule of the grammar, as the one below.
pub const DOWN: u8 = 14;
/// `up`
pub const UP: u8 = 15;
