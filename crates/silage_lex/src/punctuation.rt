//! The numbers of punctuation, as tokens hold them: places in the list of symbols.

/// `::`
pub const COLON_COLON: u8 = 0;
/// `..`
pub const DOT_DOT: u8 = 1;
/// `==`
pub const EQUAL_EQUAL: u8 = 2;
/// `!=`
pub const BANG_EQUAL: u8 = 3;
/// `<=`
pub const LESS_EQUAL: u8 = 4;
/// `>=`
pub const GREATER_EQUAL: u8 = 5;
/// `<<`
pub const LESS_LESS: u8 = 6;
/// `>>`
pub const GREATER_GREATER: u8 = 7;
/// `->`
pub const ARROW: u8 = 8;
/// `||`
pub const PIPE_PIPE: u8 = 9;
/// `@@`
pub const AT_AT: u8 = 10;
/// `(`
pub const LEFT_PAREN: u8 = 11;
/// `)`
pub const RIGHT_PAREN: u8 = 12;
/// `[`
pub const LEFT_BRACKET: u8 = 13;
/// `]`
pub const RIGHT_BRACKET: u8 = 14;
/// `,`
pub const COMMA: u8 = 15;
/// `;`
pub const SEMICOLON: u8 = 16;
/// `:`
pub const COLON: u8 = 17;
/// `=`
pub const EQUAL: u8 = 18;
/// `<`
pub const LESS: u8 = 19;
/// `>`
pub const GREATER: u8 = 20;
/// `+`
pub const PLUS: u8 = 21;
/// `-`
pub const MINUS: u8 = 22;
/// `*`
pub const STAR: u8 = 23;
/// `&`
pub const AMPERSAND: u8 = 24;
/// `|`
pub const PIPE: u8 = 25;
/// `!`
pub const BANG: u8 = 26;
/// `@`
pub const AT: u8 = 27;
