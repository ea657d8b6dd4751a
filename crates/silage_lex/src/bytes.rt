//! The classes of bytes, and where runs of them end.

ghost use Rattle.std.specs.Prelude.{◌≡◌, ◌≤◌, false, length, slice_index, slice_range, IsTrue};
ghost use Rattle.std.specs.List.{list_all};
ghost use Rattle.silage_lex.specs.Bytes as byte;

pub(crate) fn is_blank(b: u8) -> bool
    ensures { result ≡ byte.is_blank b }
{
    matches!(b, b' ' | b'\t' | b'\r' | b'\n')
}

pub(crate) fn is_digit(b: u8) -> bool
    ensures { result ≡ byte.is_digit b }
{
    b.is_ascii_digit()
}

pub(crate) fn is_letter(b: u8) -> bool
    ensures { result ≡ byte.is_letter b }
{
    b.is_ascii_alphabetic() || b == b'_'
}

pub(crate) fn is_name_byte(b: u8) -> bool
    ensures { result ≡ byte.is_name_byte b }
{
    is_letter(b) || is_digit(b)
}

/// The byte at a place, or 0 behind the end.
pub(crate) fn byte_at(src: &[u8], at: usize) -> u8
    ensures { result ≡ slice_index src.now at }
{
    if at < src.len() { src[at] } else { 0 }
}

/// Where the letters, digits and `_` end.
pub(crate) fn word_end(src: &[u8], from: usize) -> usize
    requires { from ≤ length src.now }
    ensures within { (from ≤ result) × (result ≤ length src.now) }
    ensures run { IsTrue (list_all byte.is_name_byte (slice_range src.now from result)) }
    ensures end { byte.is_name_byte (slice_index src.now result) ≡ false }
{
    let mut end = from;
    while is_name_byte(byte_at(src, end)) {
        end += 1;
    }
    end
}

/// Where the digits end.
pub(crate) fn digits_end(src: &[u8], from: usize) -> usize
    requires { from ≤ length src.now }
    ensures within { (from ≤ result) × (result ≤ length src.now) }
    ensures run { IsTrue (list_all byte.is_digit (slice_range src.now from result)) }
    ensures end { byte.is_digit (slice_index src.now result) ≡ false }
{
    let mut end = from;
    while is_digit(byte_at(src, end)) {
        end += 1;
    }
    end
}
