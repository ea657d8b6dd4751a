//! Numbers in decimal.
ghost use Rattle.std.specs.Prelude.{◌≡◌, ◌-◌, ◌<◌, ◌≤◌, ◌^◌, ℕ, true, false, IfSome, MatchOption};
ghost use Rattle.silage_lex.specs.Bytes.{is_digit};
ghost use Rattle.command_words.specs.Command.{IsNumeral, is_digit_count};
ghost use Rattle.silage_lex.specs.Texts.{decimal};

/// What a digit counts.
fn digit_of(byte: u8) -> Option<u64>
    ensures { MatchOption result (is_digit byte ≡ false) (λ digit. (is_digit byte ≡ true) × (digit ≡ byte - 48)) }
{
    if byte.is_ascii_digit() {
        Some(u64::from(byte - b'0'))
    } else {
        None
    }
}

/// The number that the text spells in decimal, where it is one from 1 to `most`.
pub(crate) fn number_in(text: &[u8], most: u64) -> Option<u64>
    requires { most < 2 ^ 32 }
    ensures { MatchOption result ((n : ℕ) → IsNumeral text.now n → 1 ≤ n → n ≤ most → ⊥)
        (λ n. IsNumeral text.now n × (1 ≤ n) × (n ≤ most)) }
{
    let mut number = 0;
    for byte in text {
        number = 10 * number + digit_of(*byte)?;
        if number > most {
            return None;
        }
    }
    if number == 0 { None } else { Some(number) }
}

/// The number from 1 to `most` that the text is the one digit of.
pub(crate) fn digit_in(text: &[u8], most: u8) -> Option<u8>
    ensures is { MatchOption result (is_digit_count most text.now ≡ false)
        (λ n. (is_digit_count most text.now ≡ true) × (n ≡ decimal text.now)) }
    ensures within { IfSome result (λ n. (1 ≤ n) × (n ≤ most)) }
{
    match text {
        [byte @ b'1'..=b'9'] if byte - b'0' <= most => Some(byte - b'0'),
        _ => None,
    }
}
