//! The parser: the tokens that are left, and the way past one token.

ghost use Rattle.std.specs.Prelude.{◌≡◌, ◌≤◌, ◌<◌, ◌^◌, length, Some, IfSome, IfNone, false};
ghost use Rattle.silage_syntax.specs.Grammar.{weighs as does_weigh};

use crate::ParseFault;
use lists::Name;
use silage_lex::{Token, TokenKind, keywords, punctuation};
use std::alloc::{AllocError, Global};

/// What the limits bound: the tokens that count in the outermost expression that began last, and the open loops.
#[derive(Clone, Copy, Drop)]
pub struct Counts {
    pub weight: u32,
    pub loops: u32,
}

/// What a token does to the counts.
#[derive(Clone, Copy, Drop)]
pub enum Effect {
    /// Nothing.
    Outside,
    /// An outermost expression begins after it.
    Begins,
    /// It is in an outermost expression.
    Inside,
    /// The `begin` of a loop.
    Enters,
    /// The `end` of a loop.
    Leaves,
}

/// The most tokens that count in an outermost expression.
const MAX_WEIGHT: u32 = 256;

/// The most loops that may be open.
const MAX_LOOPS: u32 = 16;

/// Whether a token of this kind counts in the weight of an expression.
fn weighs(kind: &TokenKind) -> bool
    ensures { result ≡ does_weigh kind.now }
{
    match kind {
        TokenKind::Symbol(n) => matches!(
            *n,
            punctuation::LEFT_PAREN
                | punctuation::LEFT_BRACKET
                | punctuation::MINUS
                | punctuation::BANG
                | punctuation::PLUS
                | punctuation::STAR
                | punctuation::LESS_LESS
                | punctuation::GREATER_GREATER
                | punctuation::LESS
                | punctuation::LESS_EQUAL
                | punctuation::EQUAL_EQUAL
                | punctuation::BANG_EQUAL
                | punctuation::GREATER
                | punctuation::GREATER_EQUAL
                | punctuation::AMPERSAND
                | punctuation::PIPE
                | punctuation::PIPE_PIPE
                | punctuation::ARROW
                | punctuation::AT
        ),
        TokenKind::Reserved(n) => *n == keywords::IF || *n == keywords::FIX,
        _ => false,
    }
}

impl Counts {
    ghost use Rattle.silage_parse.specs.Private.Machine.{allowed};
    ghost use Rattle.silage_parse.specs.Private.Parsed.{effect as effect_of, counts_of, IsCounted};

    /// The counts after a token, where the limits allow it.
    fn after(self, token: &Token, effect: Effect) -> Option<Counts>
        ensures some { IfSome result (IsCounted token.now (effect_of effect) self) }
        ensures none { IfNone result (allowed (effect_of effect) (Some token.now) (counts_of self) ≡ false) }
    {
        let mut after = self;
        match effect {
            Effect::Outside => {}
            Effect::Begins => after.weight = 0,
            Effect::Inside if weighs(&token.kind) => {
                if self.weight >= MAX_WEIGHT {
                    return None;
                }
                after.weight += 1;
            }
            Effect::Inside => {}
            Effect::Enters => {
                if self.loops >= MAX_LOOPS {
                    return None;
                }
                after.loops += 1;
            }
            Effect::Leaves => after.loops = self.loops.saturating_sub(1),
        }
        Some(after)
    }
}

/// The tokens of a source, of which those before `at` are read.
#[derive(Drop)]
pub struct Parser<'a> {
    pub alloc: Global,
    pub tokens: &'a [Token],
    pub at: usize,
    pub counts: Counts,
    ghost few: { length tokens.now < 2 ^ 32 },
    ghost within: { at ≤ length tokens.now },
}

impl<'a> Parser<'a> {
    ghost use Rattle.std.specs.Prelude.{[], ◌∷◌, option_copied, IsSome, IsTrue};
    ghost use Rattle.silage_parse.specs.Private.ParseTable.{AName, AWhole, Punctuation, Keyword, is_one, number as number_tokens};
    ghost use Rattle.silage_syntax.specs.Grammar.{number_of};
    ghost use Rattle.silage_parse.specs.Private.Parsed.{next, later, start_of, name_of, whole_of, effect as effect_of, Passes, PassesAny, ReadsName, ReadsWhole, ReadsNumber};
    ghost use Rattle.silage_parse.specs.declared.ParseFault.TheVariants.{Syntax};

    /// The parser before the first token.
    pub fn new(alloc: Global, tokens: &'a [Token]) -> Parser<'a>
        requires { length tokens.now < 2 ^ 32 }
        ensures tokens { result.tokens.now ≡ tokens.entry.now }
        ensures at { result.at ≡ 0 }
        ensures counts { result.counts ≡ record { weight = 0; loops = 0 } }
    {
        Parser {
            alloc,
            tokens,
            at: 0,
            counts: Counts {
                weight: 0,
                loops: 0,
            },
        }
    }

    /// The kind of the next token.
    pub fn kind(&self) -> Option<&TokenKind>
        ensures kind { option_copied result ≡ next self.now }
        ensures within { IsSome result → self.now.at < length self.now.tokens.now }
    {
        match self.tokens.get(self.at) {
            Some(token) => Some(&token.kind),
            None => None,
        }
    }

    /// Whether the next token is this symbol.
    pub fn is_symbol(&self, symbol: u8) -> bool
        ensures value { result ≡ is_one (Punctuation symbol ∷ []) (next self.now) }
        ensures within { IsTrue result → self.now.at < length self.now.tokens.now }
    {
        match self.kind() {
            Some(TokenKind::Symbol(n)) => *n == symbol,
            _ => false,
        }
    }

    /// Whether the token after the next one is this symbol.
    pub fn is_symbol_later(&self, symbol: u8) -> bool
        ensures { result ≡ is_one (Punctuation symbol ∷ []) (later self.now) }
    {
        match self.tokens.get(self.at + 1) {
            Some(token) => matches!(token.kind, TokenKind::Symbol(n) if n == symbol),
            None => false,
        }
    }

    /// Whether the next token is this reserved word.
    pub fn is_reserved(&self, word: u8) -> bool
        ensures value { result ≡ is_one (Keyword word ∷ []) (next self.now) }
        ensures within { IsTrue result → self.now.at < length self.now.tokens.now }
    {
        match self.kind() {
            Some(TokenKind::Reserved(n)) => *n == word,
            _ => false,
        }
    }

    /// Whether the next token is a name.
    pub fn is_name(&self) -> bool
        ensures value { result ≡ is_one (AName ∷ []) (next self.now) }
        ensures within { IsTrue result → self.now.at < length self.now.tokens.now }
    {
        matches!(self.kind(), Some(TokenKind::Name(_)))
    }

    /// Whether the next token is a number without a point.
    pub fn is_whole(&self) -> bool
        ensures value { result ≡ is_one (AWhole ∷ []) (next self.now) }
        ensures within { IsTrue result → self.now.at < length self.now.tokens.now }
    {
        matches!(self.kind(), Some(TokenKind::Whole(_)))
    }

    /// Whether the next token is a number.
    pub fn is_number(&self) -> bool
        ensures value { result ≡ is_one number_tokens (next self.now) }
        ensures within { IsTrue result → self.now.at < length self.now.tokens.now }
    {
        matches!(
            self.kind(),
            Some(TokenKind::Whole(_) | TokenKind::Point { .. })
        )
    }

    /// The name that the next token is.
    fn next_name(&self) -> Option<&Name>
        ensures value { option_copied result ≡ name_of (next self.now) }
        ensures within { IsSome result → self.now.at < length self.now.tokens.now }
    {
        match self.kind() {
            Some(TokenKind::Name(name)) => Some(name),
            _ => None,
        }
    }

    /// The number without a point that the next token is.
    fn next_whole(&self) -> Option<u64>
        ensures value { result ≡ whole_of (next self.now) }
        ensures within { IsSome result → self.now.at < length self.now.tokens.now }
    {
        match self.kind() {
            Some(TokenKind::Whole(value)) => Some(*value),
            _ => None,
        }
    }

    /// The number that the next token is: its digits, and how many of them are after the point.
    fn next_number(&self) -> Option<(u64, u8)>
        ensures value { result ≡ number_of (next self.now) }
        ensures within { IsSome result → self.now.at < length self.now.tokens.now }
    {
        match self.kind() {
            Some(TokenKind::Whole(value)) => Some((*value, 0)),
            Some(TokenKind::Point { digits, places }) => Some((*digits, *places)),
            _ => None,
        }
    }

    /// The byte at which the next token begins, 0 where there is none.
    pub fn start(&self) -> u32
        ensures { result ≡ start_of self.now }
    {
        match self.tokens.get(self.at) {
            Some(token) => token.from,
            None => 0,
        }
    }

    /// `Syntax` at the next token.
    pub fn syntax(&self) -> ParseFault
        ensures { result ≡ Syntax self.now.at }
    {
        ParseFault::Syntax(self.at as u32)
    }

    /// Goes past the next token, whatever it is. `Deep` where it passes a limit.
    pub fn advance(&mut self, effect: Effect) -> Result<(), ParseFault>
        requires { self.old.at < length self.old.tokens.now }
        ensures { PassesAny (effect_of effect) self.old self.new result }
    {
        match self.counts.after(&self.tokens[self.at], effect) {
            Some(counts) => {
                self.counts = counts;
                self.at += 1;
                Ok(())
            }
            None => Err(ParseFault::Deep(self.at as u32)),
        }
    }

    /// Goes past a symbol. `Syntax` where another token is next, or none.
    pub fn expect_symbol(&mut self, symbol: u8, effect: Effect) -> Result<(), ParseFault>
        ensures { Passes (Punctuation symbol ∷ []) (effect_of effect) self.old self.new result }
    {
        if !self.is_symbol(symbol) {
            return Err(self.syntax());
        }
        self.advance(effect)
    }

    /// Goes past a reserved word. `Syntax` where another token is next, or none.
    pub fn expect_reserved(&mut self, word: u8, effect: Effect) -> Result<(), ParseFault>
        ensures { Passes (Keyword word ∷ []) (effect_of effect) self.old self.new result }
    {
        if !self.is_reserved(word) {
            return Err(self.syntax());
        }
        self.advance(effect)
    }

    /// Reads a name. `Syntax` where another token is next, or none.
    pub fn name(&mut self, effect: Effect) -> Result<Name, ParseFault>
        ensures { ReadsName (effect_of effect) self.old self.new result }
    {
        let Some(name) = self.next_name() else {
            return Err(self.syntax());
        };
        let name = name.clone()?;
        self.advance(effect)?;
        Ok(name)
    }

    /// Reads a number without a point. `Syntax` where another token is next, or none.
    pub fn whole(&mut self, effect: Effect) -> Result<u64, ParseFault>
        ensures { ReadsWhole (effect_of effect) self.old self.new result }
    {
        let Some(value) = self.next_whole() else {
            return Err(self.syntax());
        };
        self.advance(effect)?;
        Ok(value)
    }

    /// Reads a number: its digits, and how many of them are after the point. `Syntax` where another token is next,
    /// or none.
    pub fn number(&mut self, effect: Effect) -> Result<(u64, u8), ParseFault>
        ensures { ReadsNumber (effect_of effect) self.old self.new result }
    {
        let Some(number) = self.next_number() else {
            return Err(self.syntax());
        };
        self.advance(effect)?;
        Ok(number)
    }
}
