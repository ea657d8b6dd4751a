//! Declarations: names with their dims, types, and numbers with a sign.

ghost use Rattle.std.specs.Prelude.{◌<◌, ◌≡◌, [], ◌∷◌, ◌++◌, map, OnOk};
ghost use Rattle.silage_syntax.specs.Grammar.{dim as the_dim, typed as typed_decl};
ghost use Rattle.silage_parse.specs.Private.ParseTable.{Dims, Name_, Type_, Decl_, Signed};
ghost use Rattle.silage_parse.specs.Private.ParseTable as the;
ghost use Rattle.silage_parse.specs.Private.CommaLists as comma;
ghost use Rattle.silage_parse.specs.Private.CommaLists.{viewed};
ghost use Rattle.silage_parse.specs.Private.Parsed.{IsParsed, IsRead, ReadsBetween, ReadsDim, type_in_line, local_line, declared_value, view_declared, local_lines};

use crate::ParseFault;
use crate::comma_lists::Element;
use crate::parser::{Effect, Parser};
use fix_word::SigType;
use lists::{List, Name};
use silage_lex::{keywords, punctuation};
use silage_syntax::{Decl, Lit};
use std::alloc::{AllocError, AllocFailed};

/// A declared name with its dims.
#[derive(Drop)]
pub struct Declared {
    pub name: Name,
    pub at: u32,
    pub dims: List<u32>,
}

impl Declared {
    /// The declaration of the name with a type.
    fn typed(self, ty: SigType) -> Decl
        ensures { result ≡ typed_decl ty (view_declared self) }
    {
        let Declared { name, at, dims } = self;
        Decl { name, at, dims, ty }
    }
}

impl Element for Declared {
    ghost listed = { viewed view_declared comma.names };

    fn read(parser: &mut Parser<'_>) -> Result<Declared, ParseFault> {
        parser.declared_name()
    }
}

impl Element for Decl {
    ghost listed = { comma.decls };

    fn read(parser: &mut Parser<'_>) -> Result<Decl, ParseFault> {
        parser.decl()
    }
}

impl Element for Lit {
    ghost listed = { comma.words };

    fn read(parser: &mut Parser<'_>) -> Result<Lit, ParseFault> {
        parser.signed()
    }
}

/// A number of elements, the greatest one where it is greater.
fn dim(value: u64) -> u32
    ensures { result ≡ the_dim value }
{
    value.min(u64::from(u32::MAX)) as u32
}

/// Adds the names, each with the type.
fn add_typed(list: &mut List<Decl>, names: List<Declared>, ty: SigType) -> Result<(), AllocError>
    ensures { OnOk result (list.new ≡ list.old ++ map (typed_decl ty) (map view_declared names)) }
{
    for declared in names.into_vec() {
        list.push(declared.typed(ty))?;
    }
    Ok(())
}

impl Parser<'_> {
    /// Reads the dims after a declared name: none, one or two.
    fn dims(&mut self) -> Result<List<u32>, ParseFault>
        ensures { IsParsed Dims self.old (λ ds. the.dims ds) self.new result }
    {
        let mut list = List::new(self.alloc);
        if !self.is_symbol(punctuation::LEFT_BRACKET) {
            return Ok(list);
        }
        list.push(self.dim()?)?;
        if !self.is_symbol(punctuation::LEFT_BRACKET) {
            return Ok(list);
        }
        list.push(self.dim()?)?;
        Ok(list)
    }

    /// Reads a dim in brackets.
    fn dim(&mut self) -> Result<u32, ParseFault>
        ensures { ReadsDim self.old self.new result }
    {
        self.expect_symbol(punctuation::LEFT_BRACKET, Effect::Outside)?;
        let size = self.whole(Effect::Outside)?;
        self.expect_symbol(punctuation::RIGHT_BRACKET, Effect::Outside)?;
        Ok(dim(size))
    }

    /// Reads a declared name with its dims.
    pub fn declared_name(&mut self) -> Result<Declared, ParseFault>
        ensures { IsParsed Name_ self.old declared_value self.new result }
    {
        let at = self.start();
        let name = self.name(Effect::Outside)?;
        let dims = self.dims()?;
        Ok(Declared { name, at, dims })
    }

    /// Reads the type of a signal.
    fn signal_type(&mut self) -> Result<SigType, ParseFault>
        ensures { IsParsed Type_ self.old (λ ty. the.ty ty) self.new result }
    {
        if self.is_reserved(keywords::BOOL) {
            self.advance(Effect::Outside)?;
            return Ok(SigType::Bool);
        }
        Ok(SigType::Fix(self.fix_type(Effect::Outside)?))
    }

    /// Reads a declaration: a name with its dims, `:`, and a type.
    fn decl(&mut self) -> Result<Decl, ParseFault>
        ensures { IsParsed Decl_ self.old (λ d. the.decl d) self.new result }
    {
        let declared = self.declared_name()?;
        self.expect_symbol(punctuation::COLON, Effect::Outside)?;
        let ty = self.signal_type()?;
        Ok(declared.typed(ty))
    }

    /// Reads the lines of locals, `var` and names of one type each.
    pub fn locals(&mut self) -> Result<List<Decl>, ParseFault>
        ensures { IsRead local_lines self.old [] (λ ds. the.decls ds ∷ []) self.new result }
    {
        let mut list = List::new(self.alloc);
        'lines: while self.is_reserved(keywords::VAR) {
            self.local_line(&mut list)?;
        }
        Ok(list)
    }

    /// Reads a line of locals onto `list`.
    fn local_line(&mut self, list: &mut List<Decl>) -> Result<(), ParseFault>
        ensures read { IsRead local_line self.old (the.decls list.old ∷ []) (λ x. the.decls list.new ∷ []) self.new
            result }
        ensures advances { OnOk result (self.old.at < self.new.at) }
    {
        self.expect_reserved(keywords::VAR, Effect::Outside)?;
        let names = self.list(Effect::Outside)?;
        let ty = self.type_in_line()?;
        add_typed(list, names, ty)?;
        Ok(())
    }

    /// Reads the type in a line of locals, between `:` and `;`.
    fn type_in_line(&mut self) -> Result<SigType, ParseFault>
        ensures { ReadsBetween type_in_line (λ ty. the.ty ty) self.old self.new result }
    {
        self.expect_symbol(punctuation::COLON, Effect::Outside)?;
        let ty = self.signal_type()?;
        self.expect_symbol(punctuation::SEMICOLON, Effect::Outside)?;
        Ok(ty)
    }

    /// Reads a number with its sign.
    pub fn signed(&mut self) -> Result<Lit, ParseFault>
        ensures { IsParsed Signed self.old (λ l. the.lit l) self.new result }
    {
        let at = self.start();
        if !self.is_symbol(punctuation::MINUS) {
            let (digits, places) = self.number(Effect::Outside)?;
            let neg = false;
            return Ok(Lit::Number {
                neg,
                digits,
                places,
                at,
            });
        }
        self.advance(Effect::Outside)?;
        let (digits, places) = self.number(Effect::Outside)?;
        let neg = true;
        Ok(Lit::Number {
            neg,
            digits,
            places,
            at,
        })
    }
}
