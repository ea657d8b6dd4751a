//! Lists with commas between their elements.

ghost use Rattle.std.specs.Prelude.{◌≡◌, [], ◌∷◌};
ghost use Rattle.silage_parse.specs.Private.ParseTable.{Outside, Nonterminal, Action};
ghost use Rattle.silage_parse.specs.Private.CommaLists.{CommaList, list_of, list_in_parentheses as in_parentheses, IsOneOrList};
ghost use Rattle.silage_parse.specs.Private.Parsed.{effect as effect_of, IsParsed, IsRead, ReadsBetween};

use crate::ParseFault;
use crate::parser::{Effect, Parser};
use lists::List;
use silage_lex::punctuation;
use std::alloc::{AllocError, AllocFailed};

/// What stands in a list with commas.
pub trait Element: Drop {
    ghost listed: { CommaList Self };

    /// Reads one element.
    fn read(parser: &mut Parser<'_>) -> Result<Self, ParseFault>
        ensures { IsParsed listed.element parser.old listed.value parser.new result };
}

impl Parser<'_> {
    /// Reads elements with commas between them, which have this effect.
    pub fn list<T: Element>(&mut self, comma: Effect) -> Result<List<T>, ParseFault>
        requires { T.listed.comma ≡ effect_of comma }
        ensures { IsRead (list_of T.listed) self.old [] (λ xs. T.listed.values xs ∷ []) self.new result }
    {
        let mut list = List::new(self.alloc);
        list.push(T::read(self)?)?;
        'more: while self.is_symbol(punctuation::COMMA) {
            self.advance(comma)?;
            list.push(T::read(self)?)?;
        }
        Ok(list)
    }

    /// Reads elements with commas between them, in parentheses.
    pub fn list_in_parentheses<T: Element>(&mut self) -> Result<List<T>, ParseFault>
        requires { T.listed.comma ≡ Outside }
        ensures { ReadsBetween (in_parentheses T.listed) T.listed.values self.old self.new result }
    {
        self.expect_symbol(punctuation::LEFT_PAREN, Effect::Outside)?;
        let list = self.list(Effect::Outside)?;
        self.expect_symbol(punctuation::RIGHT_PAREN, Effect::Outside)?;
        Ok(list)
    }

    /// Reads one element, or some in parentheses.
    pub fn one_or_list<T: Element>(&mut self) -> Result<List<T>, ParseFault>
        requires { T.listed.comma ≡ Outside }
        ensures { (p : Nonterminal) (close : Action) → IsOneOrList T.listed p close
            → IsParsed p self.old T.listed.values self.new result }
    {
        if self.is_symbol(punctuation::LEFT_PAREN) {
            return self.list_in_parentheses();
        }
        let mut list = List::new(self.alloc);
        list.push(T::read(self)?)?;
        Ok(list)
    }
}
