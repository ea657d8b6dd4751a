//! Tables and functions, and the whole source.

ghost use Rattle.std.specs.Prelude.{◌≡◌, ◌<◌, ◌^◌, [], ◌∷◌, List as Listed, length, OnOk};
ghost use Rattle.silage_syntax.specs.Tree.{Top as TreeTop};
ghost use Rattle.silage_parse.specs.Private.ParseTable as the;
ghost use Rattle.silage_parse.specs.Private.Parsed.{IsRead, ReadsContent, ReadsHead, ReadsBody, ReadsTop, IsRun, table_row, function_row, with_table, with_function};

use crate::ParseFault;
use crate::declarations::Declared;
use crate::parser::{Effect, Parser};
use fix_word::FixType;
use lists::{List, Name};
use silage_lex::{Token, keywords, punctuation};
use silage_syntax::{ConstDef, Decl, Func, Item, Lit, Program, Top};
use std::alloc::{AllocError, AllocFailed, Global};

/// What a function has before its `=`.
#[derive(Drop)]
pub struct Head {
    pub name: Name,
    pub at: u32,
    pub params: List<Decl>,
    pub results: List<Decl>,
}

impl Parser<'_> {
    /// Reads a table.
    fn table(&mut self) -> Result<ConstDef, ParseFault>
        ensures read { (tops : Listed TreeTop) → IsRead table_row self.old (the.tops tops ∷ []) (with_table tops)
            self.new result }
        ensures advances { OnOk result (self.old.at < self.new.at) }
    {
        self.expect_reserved(keywords::CONST, Effect::Outside)?;
        let Declared { name, at, dims } = self.declared_name()?;
        let (ty, words) = self.content()?;
        Ok(ConstDef {
            name,
            at,
            dims,
            ty,
            words,
        })
    }

    /// Reads the content of a table after its name: its type and its numbers.
    fn content(&mut self) -> Result<(FixType, List<Lit>), ParseFault>
        ensures { ReadsContent self.old self.new result }
    {
        self.expect_symbol(punctuation::COLON, Effect::Outside)?;
        let ty = self.fix_type(Effect::Outside)?;
        self.expect_symbol(punctuation::EQUAL, Effect::Outside)?;
        let words = self.one_or_list()?;
        self.expect_symbol(punctuation::SEMICOLON, Effect::Outside)?;
        Ok((ty, words))
    }

    /// Reads a function.
    fn function(&mut self) -> Result<Func, ParseFault>
        ensures read { (tops : Listed TreeTop) → IsRead function_row self.old (the.tops tops ∷ []) (with_function tops)
            self.new result }
        ensures advances { OnOk result (self.old.at < self.new.at) }
    {
        self.expect_reserved(keywords::FUNC, Effect::Outside)?;
        let Head {
            name,
            at,
            params,
            results,
        } = self.head()?;
        let (locals, items) = self.body()?;
        Ok(Func {
            name,
            at,
            params,
            results,
            locals,
            items,
        })
    }

    /// Reads the head of a function.
    fn head(&mut self) -> Result<Head, ParseFault>
        ensures { ReadsHead self.old self.new result }
    {
        let at = self.start();
        let name = self.name(Effect::Outside)?;
        let params = self.list_in_parentheses()?;
        let results = self.one_or_list()?;
        Ok(Head {
            name,
            at,
            params,
            results,
        })
    }

    /// Reads the body of a function: its locals and its items.
    fn body(&mut self) -> Result<(List<Decl>, List<Item>), ParseFault>
        ensures { ReadsBody self.old self.new result }
    {
        self.expect_symbol(punctuation::EQUAL, Effect::Outside)?;
        self.expect_reserved(keywords::BEGIN, Effect::Outside)?;
        let locals = self.locals()?;
        let items = self.items()?;
        self.block_end(Effect::Outside)?;
        Ok((locals, items))
    }

    /// Reads the table or the function that begins with the next token. `Syntax` where none begins.
    fn top(&mut self) -> Result<Top, ParseFault>
        requires { self.old.at < length self.old.tokens.now }
        ensures read { (tops : Listed TreeTop) → ReadsTop self.old tops self.new result }
        ensures advances { OnOk result (self.old.at < self.new.at) }
    {
        if self.is_reserved(keywords::CONST) {
            return Ok(Top::Const(self.table()?));
        }
        if self.is_reserved(keywords::FUNC) {
            return Ok(Top::Func(self.function()?));
        }
        Err(self.syntax())
    }
}

/// Reads the whole source.
pub fn program(alloc: Global, tokens: &[Token]) -> Result<Program, ParseFault>
    requires { length tokens.now < 2 ^ 32 }
    ensures { IsRun tokens.now result }
{
    let mut parser = Parser::new(alloc, tokens);
    let mut tops = List::new(alloc);
    'tops: while parser.at < tokens.len() {
        tops.push(parser.top()?)?;
    }
    Ok(Program { tops })
}
