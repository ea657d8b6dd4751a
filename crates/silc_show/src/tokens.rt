//! The tokens of a source, a line for each: its line, its span, its kind and its text or value.

use crate::page::{Page, Refused};
use crate::source::tokens_of;
use silage_lex::{RESERVED_COUNT, SYMBOL_COUNT, Token, TokenKind, reserved_text, symbol_text};

fn put_kind(page: &mut Page, kind: &TokenKind) {
    match kind {
        TokenKind::Name(name) => page.name(" name ", name),
        TokenKind::Whole(value) => page.number(" whole ", *value),
        TokenKind::Point { digits, places } => {
            page.number(" point ", *digits);
            page.number(" places ", *places);
        }
        TokenKind::Reserved(number) if *number < RESERVED_COUNT => {
            page.text(" reserved ");
            page.text(reserved_text(*number));
        }
        TokenKind::Symbol(number) if *number < SYMBOL_COUNT => {
            page.text(" symbol ");
            page.text(symbol_text(*number));
        }
        TokenKind::Reserved(number) => page.number(" no reserved word ", *number),
        TokenKind::Symbol(number) => page.number(" no symbol ", *number),
    }
}

fn put_token(page: &mut Page, token: &Token) {
    page.number("", token.line);
    page.number(" ", token.from);
    page.number("..", token.to);
    put_kind(page, &token.kind);
    page.end();
}

pub fn put(page: &mut Page, source: &[u8]) -> Result<(), Refused> {
    let tokens = tokens_of(page, source)?;
    for token in &tokens {
        put_token(page, token);
    }
    Ok(())
}
