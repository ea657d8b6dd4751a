//! Tokens as text, each with a blank after it.

ghost use Rattle.std.specs.Prelude.{◌≡◌, ◌<◌, ◌≤◌, ◌^◌, ◌++◌, ◌∷◌, [], length, decimal, replicate, nat_eq, not as negation, OnOk};
ghost use Rattle.silage_lex.specs.Texts.{reserved_words, symbols};
ghost use Rattle.silage_lex.specs.declared.TokenKind.TheVariants as kind;
ghost use Rattle.silage_print.specs.Text.{opened, closed, filled, pointed, number};
ghost use Rattle.silage_print.specs.Private.Puts.{Puts};

use itoa::Buffer;
use lists::{Bytes, Name};
use silage_lex::punctuation::{LEFT_PAREN, RIGHT_PAREN};
use silage_lex::{reserved_text, symbol_text};
use std::alloc::AllocError;

fn put_blank(out: &mut Bytes) -> Result<(), AllocError>
    ensures { OnOk result (out.new ≡ out.old ++ 32 ∷ []) }
{
    Ok(out.push(b' ')?)
}

/// Adds a token's text and the blank after it.
fn put_text(out: &mut Bytes, text: &[u8]) -> Result<(), AllocError>
    ensures { OnOk result (out.new ≡ out.old ++ (text.now ++ 32 ∷ [])) }
{
    out.extend_from_slice(text)?;
    put_blank(out)
}

#[tactic(auto, using(crate::proofs::Spelled::symbol_spelled))]
pub(crate) fn put_symbol(out: &mut Bytes, n: u8) -> Result<(), AllocError>
    requires { n < length symbols }
    ensures { OnOk result (Puts out.old (kind.Symbol n ∷ []) out.new) }
{
    put_text(out, symbol_text(n).as_bytes())
}

#[tactic(auto, unfolding(crate::specs::Text::spelled))]
pub(crate) fn put_word(out: &mut Bytes, n: u8) -> Result<(), AllocError>
    requires { n < length reserved_words }
    ensures { OnOk result (Puts out.old (kind.Reserved n ∷ []) out.new) }
{
    put_text(out, reserved_text(n).as_bytes())
}

#[tactic(auto, unfolding(crate::specs::Text::spelled))]
pub(crate) fn put_name(out: &mut Bytes, name: &Name) -> Result<(), AllocError>
    ensures { OnOk result (Puts out.old (kind.Name name.now ∷ []) out.new) }
{
    put_text(out, name.as_slice())
}

#[tactic(auto, unfolding(crate::specs::Text::spelled))]
pub(crate) fn put_whole(out: &mut Bytes, value: u64) -> Result<(), AllocError>
    ensures { OnOk result (Puts out.old (kind.Whole value ∷ []) out.new) }
{
    let mut buffer = Buffer::new();
    put_text(out, buffer.format(value).as_bytes())
}

/// Whether this many parts are in parentheses.
pub(crate) fn is_several(count: usize) -> bool
    ensures { result ≡ negation (nat_eq count 1) }
{
    count != 1
}

/// Adds `(` if it is wanted.
#[tactic(auto, using(crate::proofs::Spelled::no_open))]
pub(crate) fn put_open(out: &mut Bytes, wanted: bool) -> Result<(), AllocError>
    ensures { OnOk result (Puts out.old (opened wanted) out.new) }
{
    if wanted {
        put_symbol(out, LEFT_PAREN)
    } else {
        Ok(())
    }
}

/// Adds `)` if it is wanted.
#[tactic(auto, using(crate::proofs::Spelled::no_close))]
pub(crate) fn put_close(out: &mut Bytes, wanted: bool) -> Result<(), AllocError>
    ensures { OnOk result (Puts out.old (closed wanted) out.new) }
{
    if wanted {
        put_symbol(out, RIGHT_PAREN)
    } else {
        Ok(())
    }
}

/// Adds this many zeros.
fn put_zeros(out: &mut Bytes, count: usize) -> Result<(), AllocError>
    ensures { OnOk result (out.new ≡ out.old ++ replicate count 48) }
{
    for _ in 0..count {
        out.push(b'0')?;
    }
    Ok(())
}

/// Adds digits with a point before the last `places` of them.
fn put_pointed(out: &mut Bytes, digits: &[u8], places: usize) -> Result<(), AllocError>
    requires { places ≤ length digits.now }
    ensures { OnOk result (out.new ≡ out.old ++ pointed digits.now places) }
{
    let (whole, fraction) = digits.split_at(digits.len() - places);
    out.extend_from_slice(whole)?;
    out.push(b'.')?;
    out.extend_from_slice(fraction)
}

/// Adds the digits, `places` of them after a point and at least one before it.
fn put_filled(out: &mut Bytes, digits: &[u8], places: usize) -> Result<(), AllocError>
    ensures { OnOk result (out.new ≡ out.old ++ pointed (filled digits.now places) places) }
{
    if places < digits.len() {
        return put_pointed(out, digits, places);
    }
    out.extend_from_slice(b"0.")?;
    put_zeros(out, places - digits.len())?;
    out.extend_from_slice(digits)
}

/// Adds the number `digits / 10^places`.
pub(crate) fn put_number(out: &mut Bytes, digits: u64, places: u8) -> Result<(), AllocError>
    ensures { OnOk result (Puts out.old (number digits places ∷ []) out.new) }
{
    if places == 0 {
        return put_whole(out, digits);
    }
    let mut buffer = Buffer::new();
    put_filled(out, buffer.format(digits).as_bytes(), usize::from(places))?;
    put_blank(out)
}
