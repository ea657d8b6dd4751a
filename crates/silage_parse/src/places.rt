//! Places that are read: their subscripts and their delays.

ghost use Rattle.silage_parse.specs.Private.ParseTable.{Nonterminal, Delay};
ghost use Rattle.silage_parse.specs.Private.Parsed.{effect as effect_of, IsParsed, ReadsBetween, AreSubscripts, in_brackets, manifest_value, subs_value, delay_value};

use crate::ParseFault;
use crate::parser::{Effect, Parser};
use lists::List;
use silage_lex::punctuation;
use silage_syntax::Manifest;
use std::alloc::{AllocError, AllocFailed};

impl Parser<'_> {
    /// Reads a subscript in brackets, which have these effects.
    fn subscript(&mut self, before: Effect, after: Effect) -> Result<Manifest, ParseFault>
        ensures { ReadsBetween (in_brackets (effect_of before) (effect_of after)) manifest_value
            self.old self.new result }
    {
        self.expect_symbol(punctuation::LEFT_BRACKET, before)?;
        let inner = self.manifest()?;
        self.expect_symbol(punctuation::RIGHT_BRACKET, after)?;
        Ok(inner)
    }

    /// Reads the subscripts of a place: none, one or two, whose brackets have these effects.
    pub fn subscripts(
        &mut self,
        before: Effect,
        after: Effect,
    ) -> Result<List<Manifest>, ParseFault>
        ensures { (subs second : Nonterminal) → AreSubscripts subs second (effect_of before) (effect_of after)
            → IsParsed subs self.old subs_value self.new result }
    {
        if !self.is_symbol(punctuation::LEFT_BRACKET) {
            return Ok(List::new(self.alloc));
        }
        let first = self.subscript(before, after)?;
        let mut subs = List::with_capacity(self.alloc, 1)?;
        subs.push(first)?;
        if !self.is_symbol(punctuation::LEFT_BRACKET) {
            return Ok(subs);
        }
        let second = self.subscript(before, after)?;
        subs.push(second)?;
        Ok(subs)
    }

    /// Reads the delay of a place that is read, if it has one.
    pub fn delay(&mut self) -> Result<Option<Manifest>, ParseFault>
        ensures { IsParsed Delay self.old delay_value self.new result }
    {
        if !self.is_symbol(punctuation::AT) {
            return Ok(None);
        }
        self.advance(Effect::Inside)?;
        Ok(Some(self.manifest_primary()?))
    }
}
