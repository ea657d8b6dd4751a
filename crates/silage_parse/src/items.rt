//! Items: equations, calls, loops and initial values.

ghost use Rattle.std.specs.Prelude.{◌≡◌, ◌+◌, ◌<◌, [], ◌∷◌, true, false, length, IsTrue, OnOk};
ghost use Rattle.silage_lex.specs.declared.Token.{Token as AToken};
ghost use Rattle.silage_lex.specs.declared.punctuation.TheConstants as punctuation;
ghost use Rattle.silage_parse.specs.Private.ParseTable.{AName, Punctuation, is_one, Target, InitialValue, RightSide, AfterTarget, Item_, Expand};
ghost use Rattle.silage_parse.specs.Private.ParseTable as the;
ghost use Rattle.silage_syntax.specs.Tree.{view_place, view_expr};
ghost use Rattle.silage_parse.specs.Private.CommaLists as comma;
ghost use Rattle.silage_parse.specs.Private.CommaLists.{viewed};
ghost use Rattle.silage_parse.specs.Private.Parsed.{effect as effect_of, ReadsBlockEnd, ReadsLoopBody, next, later, IsParsed, IsRead, ReadsCallEnd, ReadsInitial, ReadsEquationEnd, ReadsUpperBound, ReadsBounds, is_called, place_value, item_value, item_values, item_list, after_open};

use crate::ParseFault;
use crate::comma_lists::Element;
use crate::parser::{Effect, Parser};
use lists::List;
use silage_lex::{TokenKind, keywords, punctuation};
use silage_syntax::{Expr, Item, Lit, Manifest, Place};
use std::alloc::{AllocError, AllocFailed};

impl Element for Place {
    ghost listed = { viewed view_place comma.places };

    fn read(parser: &mut Parser<'_>) -> Result<Place, ParseFault> {
        parser.target()
    }
}

impl Element for Expr {
    ghost listed = { viewed view_expr comma.arguments };

    fn read(parser: &mut Parser<'_>) -> Result<Expr, ParseFault> {
        parser.expression()
    }
}

impl Parser<'_> {
    /// Reads a place on the left.
    fn target(&mut self) -> Result<Place, ParseFault>
        ensures read { IsParsed Target self.old place_value self.new result }
        ensures advances { OnOk result (self.old.at < self.new.at) }
    {
        let at = self.start();
        let name = self.name(Effect::Outside)?;
        let subs = self.subscripts(Effect::Begins, Effect::Outside)?;
        Ok(Place { name, at, subs })
    }

    /// Reads the end of a call after the name of its function: the arguments in parentheses, and `;`.
    fn call_end(&mut self) -> Result<List<Expr>, ParseFault>
        ensures { ReadsCallEnd self.old self.new result }
    {
        self.expect_symbol(punctuation::LEFT_PAREN, Effect::Begins)?;
        let args = self.list(Effect::Begins)?;
        self.expect_symbol(punctuation::RIGHT_PAREN, Effect::Outside)?;
        self.expect_symbol(punctuation::SEMICOLON, Effect::Outside)?;
        Ok(args)
    }

    /// Whether the next token is the name of a function that is called.
    fn is_call(&self) -> bool
        ensures { result ≡ is_called self.now }
    {
        self.is_name() && self.is_symbol_later(punctuation::LEFT_PAREN)
    }

    /// Reads the right side of an equation, which is an expression, or a call of one result, and `;`.
    fn right_side(&mut self, place: Place) -> Result<Item, ParseFault>
        ensures { (t : AToken) → IsRead (Expand RightSide ∷ []) self.old (the.token t ∷ place_value place ∷ [])
            (λ x. item_value x ∷ []) self.new result }
    {
        if self.is_call() {
            let mut places = Vec::new(self.alloc);
            places.push(place)?;
            let at = self.start();
            let func = self.name(Effect::Inside)?;
            let args = self.call_end()?;
            return Ok(Item::Call {
                places,
                func,
                args: args.into_vec(),
                at,
            });
        }
        let value = self.equation_end()?;
        Ok(Item::Equation { place, value })
    }

    /// Reads the value of an equation, and `;`.
    fn equation_end(&mut self) -> Result<Expr, ParseFault>
        ensures { ReadsEquationEnd self.old self.new result }
    {
        let value = self.expression()?;
        self.expect_symbol(punctuation::SEMICOLON, Effect::Outside)?;
        Ok(value)
    }

    /// Reads the literal of an initial value.
    fn initial_value(&mut self) -> Result<Lit, ParseFault>
        ensures { IsParsed InitialValue self.old (λ l. the.lit l) self.new result }
    {
        if let Some(value) = self.next_truth() {
            let at = self.start();
            self.advance(Effect::Outside)?;
            return Ok(Lit::Truth { value, at });
        }
        self.signed()
    }

    /// Reads an initial value after its place: how many samples before the first it is for, and what it is.
    fn initial(&mut self) -> Result<(Manifest, Lit), ParseFault>
        ensures { ReadsInitial self.old self.new result }
    {
        self.expect_symbol(punctuation::AT_AT, Effect::Begins)?;
        let k = self.manifest_primary()?;
        self.expect_symbol(punctuation::EQUAL, Effect::Outside)?;
        let value = self.initial_value()?;
        self.expect_symbol(punctuation::SEMICOLON, Effect::Outside)?;
        Ok((k, value))
    }

    /// Reads the rest of an item that begins with a place.
    fn after_target(&mut self, place: Place) -> Result<Item, ParseFault>
        ensures { IsRead (Expand AfterTarget ∷ []) self.old (place_value place ∷ [])
            (λ x. item_value x ∷ []) self.new result }
    {
        if self.is_symbol(punctuation::AT_AT) {
            let (k, value) = self.initial()?;
            return Ok(Item::Initial { place, k, value });
        }
        self.expect_symbol(punctuation::EQUAL, Effect::Begins)?;
        self.right_side(place)
    }

    /// Reads a call whose results are some places, after their `(`.
    fn calls(&mut self) -> Result<Item, ParseFault>
        requires { is_one (Punctuation punctuation.COLON ∷ []) (later self.old) ≡ false }
        ensures { (t : AToken) → IsRead after_open self.old (the.token t ∷ [])
            (λ x. item_value x ∷ []) self.new result }
    {
        let places = self.list(Effect::Outside)?;
        self.expect_symbol(punctuation::RIGHT_PAREN, Effect::Outside)?;
        self.expect_symbol(punctuation::EQUAL, Effect::Outside)?;
        let at = self.start();
        let func = self.name(Effect::Outside)?;
        let args = self.call_end()?;
        Ok(Item::Call {
            places: places.into_vec(),
            func,
            args: args.into_vec(),
            at,
        })
    }

    /// Reads the bounds of a loop after its index, with the `::` after them.
    fn loop_bounds(&mut self) -> Result<(Manifest, Manifest), ParseFault>
        ensures { ReadsBounds self.old self.new result }
    {
        self.expect_symbol(punctuation::COLON, Effect::Begins)?;
        let lo = self.manifest()?;
        let hi = self.upper_bound()?;
        Ok((lo, hi))
    }

    /// Reads the upper bound of a loop with its `..`, and the `)` and the `::` after it.
    fn upper_bound(&mut self) -> Result<Manifest, ParseFault>
        ensures { ReadsUpperBound self.old self.new result }
    {
        self.expect_symbol(punctuation::DOT_DOT, Effect::Begins)?;
        let hi = self.manifest()?;
        self.expect_symbol(punctuation::RIGHT_PAREN, Effect::Outside)?;
        self.expect_symbol(punctuation::COLON_COLON, Effect::Outside)?;
        Ok(hi)
    }

    /// Reads the end of a block: an `end`, which has this effect, and `;`.
    pub fn block_end(&mut self, effect: Effect) -> Result<(), ParseFault>
        ensures { ReadsBlockEnd (effect_of effect) self.old self.new result }
    {
        self.expect_reserved(keywords::END, effect)?;
        self.expect_symbol(punctuation::SEMICOLON, Effect::Outside)
    }

    /// Reads a loop after its `(`, which is at byte `at`.
    #[cycle(items)]
    fn counted_loop(&mut self, at: u32) -> Result<Item, ParseFault>
        requires { is_one (Punctuation punctuation.COLON ∷ []) (later self.old) ≡ true }
        ensures { (t : AToken) → t.from ≡ at → IsRead after_open self.old (the.token t ∷ [])
            (λ x. item_value x ∷ []) self.new result }
    {
        let index = self.name(Effect::Outside)?;
        let (lo, hi) = self.loop_bounds()?;
        let items = self.loop_body()?;
        Ok(Item::Loop {
            index,
            lo,
            hi,
            items: items.into_vec(),
            at,
        })
    }

    /// Reads the body of a loop.
    #[cycle(items)]
    fn loop_body(&mut self) -> Result<List<Item>, ParseFault>
        ensures { ReadsLoopBody self.old self.new result }
    {
        self.expect_reserved(keywords::BEGIN, Effect::Enters)?;
        let items = self.items()?;
        self.block_end(Effect::Leaves)?;
        Ok(items)
    }

    /// Reads an item.
    #[cycle(items)]
    fn item(&mut self) -> Result<Item, ParseFault>
        ensures read { IsParsed Item_ self.old item_value self.new result }
        ensures advances { OnOk result (self.old.at < self.new.at) }
    {
        if self.is_name() {
            let place = self.target()?;
            return self.after_target(place);
        }
        let at = self.start();
        self.expect_symbol(punctuation::LEFT_PAREN, Effect::Outside)?;
        if self.is_symbol_later(punctuation::COLON) {
            self.counted_loop(at)
        } else {
            self.calls()
        }
    }

    /// Whether the next token begins an item.
    fn begins_item(&self) -> bool
        ensures value { result ≡ is_one (AName ∷ Punctuation punctuation.LEFT_PAREN ∷ []) (next self.now) }
        ensures within { IsTrue result → self.now.at < length self.now.tokens.now }
    {
        matches!(
            self.kind(),
            Some(TokenKind::Name(_) | TokenKind::Symbol(punctuation::LEFT_PAREN))
        )
    }

    /// Reads items as long as one begins.
    #[cycle(items)]
    pub fn items(&mut self) -> Result<List<Item>, ParseFault>
        ensures { IsRead item_list self.old [] (λ xs. item_values xs ∷ []) self.new result }
    {
        let mut list = List::new(self.alloc);
        'more: while self.begins_item() {
            list.push(self.item()?)?;
        }
        Ok(list)
    }
}
