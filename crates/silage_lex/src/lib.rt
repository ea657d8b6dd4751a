//! The tokens of a source, each with its span and its line, or the first place at which there are none.
#![tactic(auto)]

mod bytes;
mod gaps;
pub mod keywords;
mod kinds;
pub mod punctuation;
mod texts;

ghost use Rattle.std.specs.Prelude.{◌≡◌, ◌≤◌, ◌^◌, ◌≢◌, length, count_by, nat_eq, Ok, Err, IfOk, IfErr};
ghost use Rattle.silage_lex.specs.Tokens.{HasTokens, TokenList};
ghost use Rattle.silage_lex.specs.Faults.{HasFault, Answers};
ghost use Rattle.silage_lex.specs.declared.LexFault.{LexFault as FaultType};
ghost use Rattle.silage_lex.specs.declared.LexFault.TheVariants.{Memory};

use bytes::{is_blank, is_name_byte};
use gaps::gap_end;
use kinds::kind_at;
use lists::{List, Name};
use std::alloc::{AllocError, AllocFailed, Global};
pub use texts::{
    RESERVED_COUNT, SYMBOL_COUNT, constants_are_positions, reserved_text, symbol_text,
};
use thiserror::Error;

/// What a token is.
#[derive(Debug, Clone, PartialEq, Eq, Drop)]
pub enum TokenKind {
    /// A word that is not reserved, with its text.
    Name(Name),
    /// A number without a point, with its value.
    Whole(u64),
    /// A number with a point: the value of its digits without the point, and how many stand behind it.
    Point { digits: u64, places: u8 },
    /// A reserved word, by its number from 0.
    Reserved(u8),
    /// A symbol, by its number from 0.
    Symbol(u8),
}

/// A token, which stands in the source from byte `from` up to byte `to`.
#[derive(Debug, Clone, PartialEq, Eq, Drop)]
pub struct Token {
    pub kind: TokenKind,
    pub from: u32,
    pub to: u32,
    /// The line of its first byte, from 1.
    pub line: u32,
}

/// The tokens of a source, in order.
pub type Tokens = List<Token>;

/// Why a source has no tokens, each with the byte offset of its place.
#[derive(Debug, Clone, Copy, PartialEq, Eq, Drop, Error)]
pub enum LexFault {
    /// A byte that begins no token, no blank and no comment.
    #[error("bad byte")]
    BadByte(u32),
    /// A number of more than 18 digits, or one with a letter or `_` directly after it.
    #[error("bad number")]
    BadNumber(u32),
    /// A `/*` without a later `*/`.
    #[error("open comment")]
    OpenComment(u32),
    /// No memory was left.
    #[error("no memory")]
    Memory,
}

impl<T: Drop> From<AllocFailed<T>> for LexFault {
    ghost use Rattle.silage_lex.specs.declared.LexFault.TheVariants.{Memory};

    ghost from_gives = { λ _ fault. fault ≡ Memory };

    fn from(_: AllocFailed<T>) -> LexFault {
        LexFault::Memory
    }
}

impl From<AllocError> for LexFault {
    ghost use Rattle.silage_lex.specs.declared.LexFault.TheVariants.{Memory};

    ghost from_gives = { λ _ fault. fault ≡ Memory };

    fn from(_: AllocError) -> LexFault {
        LexFault::Memory
    }
}

/// How many lines end in the bytes.
fn newlines(bytes: &[u8]) -> u32
    requires { length bytes.now ≤ 2 ^ 20 }
    ensures { result ≡ count_by (λ b. nat_eq b 10) bytes.now }
{
    let mut count = 0;
    for b in bytes {
        if *b == b'\n' {
            count += 1;
        }
    }
    count
}

/// At how many bytes a token may begin: at none that is blank, and at none inside a word.
fn token_starts(src: &[u8]) -> usize
    ensures { result ≤ length src.now }
{
    let mut count = 0;
    let mut is_in_word = false;
    for b in src {
        let is_of_word = is_name_byte(*b);
        if !(is_blank(*b) || is_of_word && is_in_word) {
            count += 1;
        }
        is_in_word = is_of_word;
    }
    count
}

/// Reads a source of at most 1 MiB to its tokens. The fault is the first in the source.
pub fn lex(alloc: Global, src: &[u8]) -> Result<Tokens, LexFault>
    requires { length src.now ≤ 2 ^ 20 }
    ensures tokens { IfOk result (HasTokens src.now) }
    ensures fault { IfErr result (λ fault. fault ≢ Memory → HasFault src.now fault) }

    // What the source has is what the call answers, want of memory aside.
    ensures all_tokens { (tokens : TokenList) → HasTokens src.now tokens → Answers result (Ok tokens) }
    ensures each_fault { (fault : FaultType) → HasFault src.now fault → Answers result (Err fault) }
{
    let mut tokens = Vec::with_capacity(alloc, token_starts(src))?;
    let mut at = gap_end(src, 0)?;
    let mut line = 1 + newlines(&src[..at]);
    while at < src.len() {
        let (kind, to) = kind_at(alloc, src, at)?;
        tokens.push(Token {
            kind,
            from: at as u32,
            to: to as u32,
            line,
        })?;
        let next = gap_end(src, to)?;
        line += newlines(&src[at..next]);
        at = next;
    }
    Ok(List::from_vec(tokens))
}
