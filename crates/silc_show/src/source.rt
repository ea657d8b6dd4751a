//! The tokens and the program of a source, or the fault that is answered in their place.

ghost use Rattle.std.specs.Prelude.{IfOk};
ghost use Rattle.silage_lex.specs.Tokens.{HasTokens};
ghost use Rattle.silage_syntax.specs.Tree.{view};
ghost use Rattle.element_rules.specs.Signatures.{HaveResults};
ghost use Rattle.type_rules.specs.Numbers.{AreNumbersShort};

use crate::page::{Page, Refused};
use element_rules::PlacedFault;
use name_rules::NameFault;
use silage_lex::{LexFault, Tokens, lex};
use silage_parse::{ParseFault, parse};
use silage_tree::Program;
use std::str;
use type_rules::TypeFault;

/// A source has at most this many bytes, and so at most this many tokens, tables and functions.
pub const SOURCE_LIMIT: usize = 1 << 20;

fn refuse_tokens(page: &mut Page, source: &[u8], fault: LexFault) -> Refused {
    match fault {
        LexFault::BadByte(at) | LexFault::BadNumber(at) | LexFault::OpenComment(at) => {
            page.refuse_at(&fault, line_of(source, at))
        }
        LexFault::Memory => page.cut(),
    }
}

fn refuse_program(page: &mut Page, source: &[u8], tokens: &Tokens, fault: ParseFault) -> Refused {
    match fault {
        ParseFault::Syntax(token) | ParseFault::Deep(token) => {
            page.refuse_at(&fault, Some(line_of_token(source, tokens, token)))
        }
        ParseFault::Memory => page.cut(),
    }
}

pub fn refuse_names(page: &mut Page, source: &[u8], fault: NameFault) -> Refused {
    match fault {
        NameFault::Unknown(at)
        | NameFault::Twice(at)
        | NameFault::Recursive(at)
        | NameFault::Arity(at)
        | NameFault::Size(at) => page.refuse_at(&fault, line_of(source, at)),
        NameFault::NoMain => page.refuse(&fault),
        NameFault::Memory => page.cut(),
    }
}

pub fn refuse_elements(page: &mut Page, source: &[u8], fault: PlacedFault) -> Refused {
    match fault {
        PlacedFault::Index(at)
        | PlacedFault::Bounds(at)
        | PlacedFault::Delay(at)
        | PlacedFault::Shift(at)
        | PlacedFault::DefinedTwice(at)
        | PlacedFault::NotDefined { at, .. }
        | PlacedFault::TooLarge(at) => page.refuse_at(&fault, line_of(source, at)),
        PlacedFault::Memory => page.cut(),
    }
}

pub fn refuse_types(page: &mut Page, source: &[u8], fault: TypeFault) -> Refused {
    match fault {
        TypeFault::Mismatch(at)
        | TypeFault::NeedsCast(at)
        | TypeFault::Literal(at)
        | TypeFault::NotBool(at) => page.refuse_at(&fault, line_of(source, at)),
        TypeFault::Memory => page.cut(),
    }
}

/// The line at the end of the bytes, from 1.
fn last_line(bytes: &[u8]) -> u64 {
    let mut line = 1u64;
    for byte in bytes {
        if *byte == b'\n' {
            line = line.saturating_add(1);
        }
    }
    line
}

pub fn line_of(source: &[u8], at: u32) -> Option<u64> {
    match source.get(..at as usize) {
        Some(before) => Some(last_line(before)),
        None => None,
    }
}

/// The line of a token, or of the end of the source after the last one.
fn line_of_token(source: &[u8], tokens: &Tokens, token: u32) -> u64 {
    match tokens.get(token as usize) {
        Some(token) => u64::from(token.line),
        None => last_line(source),
    }
}

pub fn text_of<'a>(page: &mut Page, table: &'a [u8]) -> Result<&'a str, Refused> {
    match str::from_utf8(table) {
        Ok(text) => Ok(text),
        Err(_) => Err(page.fail("the table is no text")),
    }
}

pub fn tokens_of(page: &mut Page, source: &[u8]) -> Result<Tokens, Refused>
    ensures { IfOk result (HasTokens source.now) }
{
    if source.len() > SOURCE_LIMIT {
        return Err(page.refuse_length());
    }
    match lex(page.alloc, source) {
        Ok(tokens) => Ok(tokens),
        Err(fault) => Err(refuse_tokens(page, source, fault)),
    }
}

/// The program of the tokens of a source.
pub fn parsed(page: &mut Page, source: &[u8], tokens: &Tokens) -> Result<Program, Refused>
    requires { HasTokens source.now tokens.now }
    ensures numbers { IfOk result (λ program. AreNumbersShort (view program)) }
    ensures results { IfOk result (λ program. HaveResults (view program)) }
{
    if tokens.len() > SOURCE_LIMIT {
        return Err(page.refuse_length());
    }
    match parse(page.alloc, tokens) {
        Ok(program) => Ok(program),
        Err(fault) => Err(refuse_program(page, source, tokens, fault)),
    }
}

pub fn program_of(page: &mut Page, source: &[u8]) -> Result<Program, Refused>
    ensures numbers { IfOk result (λ program. AreNumbersShort (view program)) }
    ensures results { IfOk result (λ program. HaveResults (view program)) }
{
    let tokens = tokens_of(page, source)?;
    parsed(page, source, &tokens)
}
