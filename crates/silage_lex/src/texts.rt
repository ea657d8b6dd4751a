//! The texts of reserved words and symbols, by their numbers in a token.

ghost use Rattle.std.specs.Prelude.{◌≡◌, ◌<◌, length, slice_get, Some};
ghost use Rattle.silage_lex.specs.Texts.{reserved_words, symbols};
ghost use Rattle.silage_lex.specs.Positions.{symbol_constants, keyword_constants, ArePositions};

/// How many reserved words there are.
pub const RESERVED_COUNT: u8 = 16;

/// How many symbols there are.
pub const SYMBOL_COUNT: u8 = 28;

/// The text of a symbol, by its number.
pub fn symbol_text(n: u8) -> &'static str
    requires { n < length symbols }
    ensures { slice_get symbols n ≡ Some result.now }
{
    match n {
        0 => "::",
        1 => "..",
        2 => "==",
        3 => "!=",
        4 => "<=",
        5 => ">=",
        6 => "<<",
        7 => ">>",
        8 => "->",
        9 => "||",
        10 => "@@",
        11 => "(",
        12 => ")",
        13 => "[",
        14 => "]",
        15 => ",",
        16 => ";",
        17 => ":",
        18 => "=",
        19 => "<",
        20 => ">",
        21 => "+",
        22 => "-",
        23 => "*",
        24 => "&",
        25 => "|",
        26 => "!",
        27 => "@",
        _ => unreachable!(),
    }
}

/// The text of a reserved word, by its number.
pub fn reserved_text(n: u8) -> &'static str
    requires { n < length reserved_words }
    ensures { slice_get reserved_words n ≡ Some result.now }
{
    match n {
        0 => "func",
        1 => "const",
        2 => "var",
        3 => "begin",
        4 => "end",
        5 => "fix",
        6 => "bool",
        7 => "trunc",
        8 => "round",
        9 => "if",
        10 => "fi",
        11 => "true",
        12 => "false",
        13 => "sat",
        14 => "down",
        15 => "up",
        _ => unreachable!(),
    }
}

/// The constants of `punctuation` and `keywords` are the positions of their texts in the two lists.
pub fn constants_are_positions()
    ensures punctuation { ArePositions symbol_constants symbols }
    ensures keywords { ArePositions keyword_constants reserved_words }
    ensures symbol_count { SYMBOL_COUNT ≡ length symbols }
    ensures reserved_count { RESERVED_COUNT ≡ length reserved_words }
{}
