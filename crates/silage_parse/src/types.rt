//! Types of numbers.

ghost use Rattle.std.specs.Prelude.{◌≡◌, min};
ghost use Rattle.silage_syntax.specs.Grammar.{size as the_size};
ghost use Rattle.silage_parse.specs.Private.ParseTable as the;
ghost use Rattle.silage_parse.specs.Private.ParseTable.{FixIn, Mode_};
ghost use Rattle.silage_parse.specs.Private.Parsed.{start_of, effect as effect_of, EndsFix, EndsMode, IsParsed};

use crate::ParseFault;
use crate::parser::{Effect, Parser};
use fix_word::{FixType, Mode, Shape};
use silage_lex::{keywords, punctuation};

/// The size in bits that a number of the source stands for. One that no type may have is the greatest of them.
fn size(n: u64) -> u8
    ensures { result ≡ the_size n }
{
    n.min(255) as u8
}

impl Parser<'_> {
    /// Reads what comes after the `round` of a mode: `,` and `sat`, or nothing.
    fn mode_end(&mut self, effect: Effect) -> Result<Mode, ParseFault>
        ensures { EndsMode (effect_of effect) self.old self.new result }
    {
        if !self.is_symbol(punctuation::COMMA) {
            return Ok(Mode::Round);
        }
        self.advance(effect)?;
        self.expect_reserved(keywords::SAT, effect)?;
        Ok(Mode::RoundSat)
    }

    /// Reads a mode.
    fn mode(&mut self, effect: Effect) -> Result<Mode, ParseFault>
        ensures { IsParsed (Mode_ (effect_of effect)) self.old (λ m. the.mode m) self.new result }
    {
        if self.is_reserved(keywords::TRUNC) {
            self.advance(effect)?;
            return Ok(Mode::Trunc);
        }
        if self.is_reserved(keywords::SAT) {
            self.advance(effect)?;
            return Ok(Mode::Sat);
        }
        self.expect_reserved(keywords::ROUND, effect)?;
        self.mode_end(effect)
    }

    /// Reads the end of a fix type after its sizes: its mode, if it has one, and `>`.
    fn fix_end(&mut self, effect: Effect) -> Result<Mode, ParseFault>
        ensures { EndsFix (effect_of effect) self.old self.new result }
    {
        if !self.is_symbol(punctuation::COMMA) {
            self.expect_symbol(punctuation::GREATER, effect)?;
            return Ok(Mode::Trunc);
        }
        self.advance(effect)?;
        let mode = self.mode(effect)?;
        self.expect_symbol(punctuation::GREATER, effect)?;
        Ok(mode)
    }

    /// Reads a fix type, whose tokens have this effect.
    pub fn fix_type(&mut self, effect: Effect) -> Result<FixType, ParseFault>
        ensures { IsParsed (FixIn (effect_of effect)) self.old (the.fix (start_of self.old)) self.new result }
    {
        self.expect_reserved(keywords::FIX, effect)?;
        self.expect_symbol(punctuation::LESS, effect)?;
        let w = self.whole(effect)?;
        self.expect_symbol(punctuation::COMMA, effect)?;
        let f = self.whole(effect)?;
        let mode = self.fix_end(effect)?;
        let shape = Shape {
            w: size(w),
            f: size(f),
        };
        Ok(FixType { shape, mode })
    }
}
