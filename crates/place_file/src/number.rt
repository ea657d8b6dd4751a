//! Numbers in decimal.

ghost use Rattle.std.specs.Prelude.{◌^◌, ◌↔◌, ℕ, IsTrue, MatchOption};
ghost use Rattle.place_file.specs.Given.{IsNumber};
ghost use Rattle.place_file.specs.Private.Words.{IsPlain};

use std::str;

/// Whether the word begins with no sign, and with no zero before other digits.
fn is_plain(word: &[u8]) -> bool
    ensures { IsTrue result ↔ IsPlain word.now }
{
    match word {
        [b'+', ..] => false,
        [b'0', _, ..] => false,
        _ => true,
    }
}

/// The number that the word is.
pub(crate) fn number(word: &[u8]) -> Option<u32>
    ensures { MatchOption result ((n : ℕ) → IsNumber (2 ^ 32) word.now n → ⊥) (IsNumber (2 ^ 32) word.now) }
{
    if !is_plain(word) {
        return None;
    }
    match str::from_utf8(word) {
        Ok(text) => text.parse().ok(),
        Err(_) => None,
    }
}
