//! Lines of a source, from 1.

ghost use Rattle.std.specs.Prelude.{◌≡◌, ◌≤◌, ◌^◌, length};
ghost use Rattle.silage_lex.specs.Tokens.{HasTokens, line_at};
ghost use Rattle.front_end.specs.Places.{token_start};

use silage_lex::Tokens;

/// The line of a byte: one more than the ends of lines before it.
pub(crate) fn line_of(source: &[u8], at: u32) -> u64
    ensures { result ≡ line_at source.now at }
{
    let before = &source[..source.len().min(at as usize)];
    let breaks = before.iter().filter(|byte| **byte == b'\n').count();
    breaks as u64 + 1
}

/// The line of a token, or of the end of the source.
pub(crate) fn token_line(source: &[u8], tokens: &Tokens, token: u32) -> u64
    requires few { length source.now ≤ 2 ^ 20 }
    requires tokens { HasTokens source.now tokens.now }
    ensures { result ≡ line_at source.now (token_start source.now tokens.now token) }
{
    match tokens.get(token as usize) {
        Some(token) => u64::from(token.line),
        None => line_of(source, source.len() as u32),
    }
}
