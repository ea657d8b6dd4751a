//! Where blanks and comments end.

ghost use Rattle.std.specs.Prelude.{ℕ, ◌≤◌, ◌<◌, ◌^◌, length, IfOk, IfErr, IfSome, IfNone};
ghost use Rattle.silage_lex.specs.Tokens.{Gap};
ghost use Rattle.silage_lex.specs.Faults.{NoCloseFrom, StandsAt};
ghost use Rattle.silage_lex.specs.Scan.{IsFirstClose, IsGap, StartsToken};

use crate::LexFault;
use crate::bytes::{byte_at, is_blank};

/// The place of the first `*/` at `from` or behind it.
fn close_at(src: &[u8], from: usize) -> Option<usize>
    ensures some { IfSome result (IsFirstClose src.now from) }
    ensures none { IfNone result (NoCloseFrom src.now from) }
{
    for at in from..src.len() {
        if src[at] == b'*' && byte_at(src, at + 1) == b'/' {
            return Some(at);
        }
    }
    None
}

/// Where the blank or the comment at a place ends, if one begins there.
fn skip(src: &[u8], at: usize) -> Result<Option<usize>, LexFault>
    requires inside { at ≤ length src.now }
    requires size { length src.now ≤ 2 ^ 20 }
    ensures gap { IfOk result (λ next. IfSome next (λ to. (at < to) × IsGap src.now at to)) }
    ensures no_gap { IfOk result (λ next. IfNone next (StartsToken src.now at)) }
    ensures open { IfErr result (StandsAt src.now at) }
{
    if is_blank(byte_at(src, at)) {
        return Ok(Some(at + 1));
    }
    if byte_at(src, at) != b'/' || byte_at(src, at + 1) != b'*' {
        return Ok(None);
    }
    match close_at(src, at + 2) {
        Some(close) => Ok(Some(close + 2)),
        None => Err(LexFault::OpenComment(at as u32)),
    }
}

/// Where the blanks and comments from a place on end.
pub(crate) fn gap_end(src: &[u8], from: usize) -> Result<usize, LexFault>
    requires inside { from ≤ length src.now }
    requires size { length src.now ≤ 2 ^ 20 }
    ensures gap { IfOk result (IsGap src.now from) }
    ensures token { IfOk result (StartsToken src.now) }
    ensures open { IfErr result (λ fault. (at : ℕ) × Gap src.now from at × StandsAt src.now at fault) }
{
    let mut at = from;
    'gap: loop {
        match skip(src, at)? {
            Some(to) => at = to,
            None => return Ok(at),
        }
    }
}
