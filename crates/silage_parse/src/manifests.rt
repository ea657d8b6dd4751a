//! Manifest constants: integers that are known before the program runs.

ghost use Rattle.std.specs.Prelude.{◌≡◌, IsSome, ◌<◌, length};
ghost use Rattle.silage_syntax.specs.Grammar.{term_operator as the_term_operator};
ghost use Rattle.silage_parse.specs.Private.ParseTable.{Manifest_, Term, Factor, ManifestPrimary};
ghost use Rattle.silage_parse.specs.Private.Parsed.{next, IsParsed, manifest_value};

use crate::ParseFault;
use crate::parser::{Effect, Parser};
use silage_lex::{TokenKind, punctuation};
use silage_syntax::{MOp, Manifest};
use std::alloc::{AllocError, AllocFailed};

impl Parser<'_> {
    /// The operator between terms that the next token is.
    fn term_operator(&self) -> Option<MOp>
        ensures value { result ≡ the_term_operator (next self.now) }
        ensures within { IsSome result → self.now.at < length self.now.tokens.now }
    {
        match self.kind() {
            Some(TokenKind::Symbol(punctuation::PLUS)) => Some(MOp::Add),
            Some(TokenKind::Symbol(punctuation::MINUS)) => Some(MOp::Sub),
            _ => None,
        }
    }

    /// Reads a sum.
    #[cycle(manifests)]
    pub fn manifest(&mut self) -> Result<Manifest, ParseFault>
        ensures { IsParsed Manifest_ self.old manifest_value self.new result }
    {
        let mut left = self.term()?;
        'terms: while let Some(operator) = self.term_operator() {
            let at = self.start();
            self.advance(Effect::Inside)?;
            let right = self.term()?;
            left = Manifest::Binary(
                at,
                operator,
                Box::new(self.alloc, left)?,
                Box::new(self.alloc, right)?,
            );
        }
        Ok(left)
    }

    /// Reads a product.
    #[cycle(manifests)]
    fn term(&mut self) -> Result<Manifest, ParseFault>
        ensures { IsParsed Term self.old manifest_value self.new result }
    {
        let mut left = self.factor()?;
        'factors: while self.is_symbol(punctuation::STAR) {
            let at = self.start();
            self.advance(Effect::Inside)?;
            let right = self.factor()?;
            left = Manifest::Binary(
                at,
                MOp::Mul,
                Box::new(self.alloc, left)?,
                Box::new(self.alloc, right)?,
            );
        }
        Ok(left)
    }

    /// Reads a factor, with each `-` in front of it.
    #[cycle(manifests)]
    fn factor(&mut self) -> Result<Manifest, ParseFault>
        ensures { IsParsed Factor self.old manifest_value self.new result }
    {
        if !self.is_symbol(punctuation::MINUS) {
            return self.manifest_primary();
        }
        let at = self.start();
        self.advance(Effect::Inside)?;
        let operand = self.factor()?;
        Ok(Manifest::Negate(at, Box::new(self.alloc, operand)?))
    }

    /// Reads a number, a name or a sum in parentheses.
    #[cycle(manifests)]
    pub fn manifest_primary(&mut self) -> Result<Manifest, ParseFault>
        ensures { IsParsed ManifestPrimary self.old manifest_value self.new result }
    {
        let at = self.start();
        if self.is_whole() {
            let value = self.whole(Effect::Inside)?;
            return Ok(Manifest::Whole(value, at));
        }
        if self.is_name() {
            let name = self.name(Effect::Inside)?;
            return Ok(Manifest::Index(name, at));
        }
        self.expect_symbol(punctuation::LEFT_PAREN, Effect::Inside)?;
        let inner = self.manifest()?;
        self.expect_symbol(punctuation::RIGHT_PAREN, Effect::Inside)?;
        Ok(inner)
    }
}
