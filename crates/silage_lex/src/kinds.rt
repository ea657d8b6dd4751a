//! The token that begins at a place: its kind, and where it ends.

ghost use Rattle.std.specs.Prelude.{◌≡◌, ◌≢◌, ◌+◌, ◌*◌, ◌≤◌, ◌<◌, ◌^◌, true, false, [], ◌∷◌, length, slice_index, slice_range, IsTrue, IfOk, IfErr, OnOk, IfSome, IfNone};
ghost use Rattle.std.specs.List.{list_all};
ghost use Rattle.silage_lex.specs.Bytes as byte;
ghost use Rattle.silage_lex.specs.Bytes.{begins_fraction};
ghost use Rattle.silage_lex.specs.Texts.{reserved_words, symbols, is_digits, digit_count, decimal_after};
ghost use Rattle.silage_lex.specs.Tokens.{IsSpan};
ghost use Rattle.silage_lex.specs.Faults.{IsNumberSpan, StandsAt};
ghost use Rattle.silage_lex.specs.Scan.{position_of, NoneBefore, IsSymbolSpan, IsDigitSpan, StartsToken};
ghost use Rattle.silage_lex.specs.declared.LexFault.TheVariants.{Memory};

use crate::bytes::{byte_at, digits_end, is_digit, is_letter, word_end};
use crate::{LexFault, TokenKind, keywords, punctuation};
use lists::Name;
use std::alloc::{AllocError, Global};

/// The most digits that a number may have.
const MAX_DIGITS: usize = 18;

/// The symbol that these two bytes are.
fn double_symbol(first: u8, second: u8) -> Option<u8>
    ensures { result ≡ position_of symbols (first ∷ second ∷ []) }
{
    match (first, second) {
        (b':', b':') => Some(punctuation::COLON_COLON),
        (b'.', b'.') => Some(punctuation::DOT_DOT),
        (b'=', b'=') => Some(punctuation::EQUAL_EQUAL),
        (b'!', b'=') => Some(punctuation::BANG_EQUAL),
        (b'<', b'=') => Some(punctuation::LESS_EQUAL),
        (b'>', b'=') => Some(punctuation::GREATER_EQUAL),
        (b'<', b'<') => Some(punctuation::LESS_LESS),
        (b'>', b'>') => Some(punctuation::GREATER_GREATER),
        (b'-', b'>') => Some(punctuation::ARROW),
        (b'|', b'|') => Some(punctuation::PIPE_PIPE),
        (b'@', b'@') => Some(punctuation::AT_AT),
        _ => None,
    }
}

/// The symbol that this byte is.
fn single_symbol(byte: u8) -> Option<u8>
    ensures { result ≡ position_of symbols (byte ∷ []) }
{
    match byte {
        b'(' => Some(punctuation::LEFT_PAREN),
        b')' => Some(punctuation::RIGHT_PAREN),
        b'[' => Some(punctuation::LEFT_BRACKET),
        b']' => Some(punctuation::RIGHT_BRACKET),
        b',' => Some(punctuation::COMMA),
        b';' => Some(punctuation::SEMICOLON),
        b':' => Some(punctuation::COLON),
        b'=' => Some(punctuation::EQUAL),
        b'<' => Some(punctuation::LESS),
        b'>' => Some(punctuation::GREATER),
        b'+' => Some(punctuation::PLUS),
        b'-' => Some(punctuation::MINUS),
        b'*' => Some(punctuation::STAR),
        b'&' => Some(punctuation::AMPERSAND),
        b'|' => Some(punctuation::PIPE),
        b'!' => Some(punctuation::BANG),
        b'@' => Some(punctuation::AT),
        _ => None,
    }
}

/// The longest symbol at a place, and where it ends.
fn symbol_at(src: &[u8], at: usize) -> Option<(u8, usize)>
    requires inside { at < length src.now }
    requires size { length src.now ≤ 2 ^ 20 }
    ensures some { IfSome result (λ symbol. IsSymbolSpan src.now at symbol.0 symbol.1) }
    ensures none { IfNone result (NoneBefore src.now at (length symbols)) }
{
    if let Some(symbol) = double_symbol(src[at], byte_at(src, at + 1)) {
        return Some((symbol, at + 2));
    }
    match single_symbol(src[at]) {
        Some(symbol) => Some((symbol, at + 1)),
        None => None,
    }
}

/// The reserved word that this word is.
fn reserved(word: &[u8]) -> Option<u8>
    ensures { result ≡ position_of reserved_words word.now }
{
    match word {
        b"func" => Some(keywords::FUNC),
        b"const" => Some(keywords::CONST),
        b"var" => Some(keywords::VAR),
        b"begin" => Some(keywords::BEGIN),
        b"end" => Some(keywords::END),
        b"fix" => Some(keywords::FIX),
        b"bool" => Some(keywords::BOOL),
        b"trunc" => Some(keywords::TRUNC),
        b"round" => Some(keywords::ROUND),
        b"if" => Some(keywords::IF),
        b"fi" => Some(keywords::FI),
        b"true" => Some(keywords::TRUE),
        b"false" => Some(keywords::FALSE),
        b"sat" => Some(keywords::SAT),
        b"down" => Some(keywords::DOWN),
        b"up" => Some(keywords::UP),
        _ => None,
    }
}

/// The number whose decimal digits are those of `number` and then these.
fn value_after(number: u64, digits: &[u8]) -> u64
    requires digits { IsTrue (list_all byte.is_digit digits.now) }
    requires room { (number + 1) * 10 ^ length digits.now ≤ 10 ^ 18 }
    ensures value { result ≡ decimal_after number digits.now }
    ensures bound { result + 1 ≤ (number + 1) * 10 ^ length digits.now }
{
    let mut value = number;
    for digit in digits {
        value = value * 10 + u64::from(*digit - b'0');
    }
    value
}

/// The word at a place where a letter or `_` stands.
fn word_at(alloc: Global, src: &[u8], at: usize) -> Result<(TokenKind, usize), AllocError>
    requires inside { at < length src.now }
    requires letter { byte.is_letter (slice_index src.now at) ≡ true }
    ensures { IfOk result (λ token. IsSpan src.now token.0 at token.1) }
{
    let to = word_end(src, at);
    let word = &src[at..to];
    match reserved(word) {
        Some(n) => Ok((TokenKind::Reserved(n), to)),
        None => Ok((TokenKind::Name(Name::from_slice(alloc, word)?), to)),
    }
}

/// Judges a number by how many digits it has, and by what follows it.
fn check_number(src: &[u8], from: usize, to: usize, digits: usize) -> Result<(), LexFault>
    requires size { length src.now ≤ 2 ^ 20 }
    requires number { IsNumberSpan src.now from to }
    requires digits { digits ≡ digit_count (slice_range src.now from to) }
    ensures ok { OnOk result ((digits ≤ 18) × (byte.is_letter (slice_index src.now to) ≡ false)) }
    ensures err { IfErr result (StandsAt src.now from) }
{
    if digits > MAX_DIGITS || is_letter(byte_at(src, to)) {
        return Err(LexFault::BadNumber(from as u32));
    }
    Ok(())
}

/// The number without a point that these digits are.
fn whole_number(src: &[u8], from: usize, to: usize) -> Result<(TokenKind, usize), LexFault>
    requires size { length src.now ≤ 2 ^ 20 }
    requires digits { IsDigitSpan src.now from to }
    requires no_fraction { begins_fraction src.now to ≡ false }
    ensures ok { IfOk result (λ token. IsSpan src.now token.0 from token.1) }
    ensures err { IfErr result (StandsAt src.now from) }
{
    check_number(src, from, to, to - from)?;
    Ok((TokenKind::Whole(value_after(0, &src[from..to])), to))
}

/// The number whose digits have their point at `point`.
fn pointed_number(
    src: &[u8],
    from: usize,
    point: usize,
    to: usize,
) -> Result<(TokenKind, usize), LexFault>
    requires size { length src.now ≤ 2 ^ 20 }
    requires rises { from < point }
    requires whole { IsTrue (is_digits (slice_range src.now from point)) }
    requires is_point { slice_index src.now point ≡ 46 }
    requires fraction { IsDigitSpan src.now (point + 1) to }
    ensures ok { IfOk result (λ token. IsSpan src.now token.0 from token.1) }
    ensures err { IfErr result (StandsAt src.now from) }
{
    check_number(src, from, to, to - from - 1)?;
    let whole = value_after(0, &src[from..point]);
    let digits = value_after(whole, &src[point + 1..to]);
    let places = (to - point - 1) as u8;
    Ok((TokenKind::Point { digits, places }, to))
}

/// The number at a place where a digit stands.
fn number_at(src: &[u8], at: usize) -> Result<(TokenKind, usize), LexFault>
    requires inside { at < length src.now }
    requires size { length src.now ≤ 2 ^ 20 }
    requires digit { byte.is_digit (slice_index src.now at) ≡ true }
    ensures ok { IfOk result (λ token. IsSpan src.now token.0 at token.1) }
    ensures err { IfErr result (StandsAt src.now at) }
{
    let end = digits_end(src, at);
    if byte_at(src, end) != b'.' || !is_digit(byte_at(src, end + 1)) {
        return whole_number(src, at, end);
    }
    pointed_number(src, at, end, digits_end(src, end + 1))
}

/// The token at a place where no blank and no comment begins.
pub(crate) fn kind_at(alloc: Global, src: &[u8], at: usize) -> Result<(TokenKind, usize), LexFault>
    requires inside { at < length src.now }
    requires size { length src.now ≤ 2 ^ 20 }
    requires starts { StartsToken src.now at }
    ensures ok { IfOk result (λ token. IsSpan src.now token.0 at token.1) }
    ensures err { IfErr result (λ fault. fault ≢ Memory → StandsAt src.now at fault) }
{
    if is_letter(src[at]) {
        return Ok(word_at(alloc, src, at)?);
    }
    if is_digit(src[at]) {
        return number_at(src, at);
    }
    match symbol_at(src, at) {
        Some((symbol, to)) => Ok((TokenKind::Symbol(symbol), to)),
        None => Err(LexFault::BadByte(at as u32)),
    }
}
