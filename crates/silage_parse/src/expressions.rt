//! Expressions. The functions of the rarer forms are not inlined, so that a level of nesting takes little stack.

ghost use Rattle.std.specs.Prelude.{List as Listed, ◌≡◌, ℕ, ◌<◌, [], ◌∷◌, length, Some, true, IsSome, IfSome, IfNone, OnOk};
ghost use Rattle.silage_syntax.specs.Tree.{Expr as TreeExpr};
ghost use Rattle.silage_syntax.specs.Grammar.{Or, row, shift_operator as the_shift_operator, truth_of};
ghost use Rattle.silage_parse.specs.Private.ParseTable.{Punctuation, Keyword, AName, Chain, Shift, Unary, Primary, OtherPrimary, Arms, Expand, number, is_one};
ghost use Rattle.silage_parse.specs.Private.ParseTable as the;
ghost use Rattle.silage_parse.specs.Private.Parsed.{next, start_of, IsParsed, IsRead, ReadsBetween, in_parentheses, ReadsBranch, expr_value, binary_value, branches_value, choice_value, choice_end, shifted};
ghost use Rattle.silage_parse.specs.Private.Precedence.{rank as rank_of, precedence_of, operation, operated, right_operand, binary_operators, binary_operator as the_binary_operator, IsBetween, NoneBetween, tightest_after};
ghost use Rattle.silage_lex.specs.declared.Token.{Token as AToken};
ghost use Rattle.silage_lex.specs.declared.punctuation.TheConstants as punctuation;
ghost use Rattle.silage_lex.specs.declared.keywords.TheConstants as keyword;

use crate::ParseFault;
use crate::parser::{Effect, Parser};
use silage_lex::{TokenKind, keywords, punctuation};
use silage_syntax::{BinOp, Expr, Lit, Place};
use std::alloc::{AllocError, AllocFailed};

/// The precedence of an operator between two operands, the loosest first.
#[derive(Clone, Copy, Drop)]
pub enum Precedence {
    Or,
    And,
    Comparison,
    Sum,
    Product,
}

impl Precedence {
    /// The precedence of an operator.
    fn of(operator: BinOp) -> Precedence
        ensures { result ≡ precedence_of operator }
    {
        match operator {
            BinOp::Or => Precedence::Or,
            BinOp::And => Precedence::And,
            BinOp::Lt | BinOp::Le | BinOp::Eq | BinOp::Ne | BinOp::Gt | BinOp::Ge => {
                Precedence::Comparison
            }
            BinOp::Add | BinOp::Sub => Precedence::Sum,
            BinOp::Mul => Precedence::Product,
        }
    }

    /// How many precedences are looser.
    fn rank(self) -> u8
        ensures { result ≡ rank_of self }
    {
        match self {
            Precedence::Or => 0,
            Precedence::And => 1,
            Precedence::Comparison => 2,
            Precedence::Sum => 3,
            Precedence::Product => 4,
        }
    }

    /// The tightest precedence of an operator after one of this precedence and its operand: comparisons do not chain.
    fn tightest_after(self) -> Precedence
        ensures { result ≡ tightest_after self }
    {
        match self {
            Precedence::Comparison => Precedence::And,
            other => other,
        }
    }
}

/// The operator between two operands that a symbol is.
fn operator_of(symbol: u8) -> Option<BinOp>
    ensures { result ≡ row binary_operators symbol }
{
    match symbol {
        punctuation::PIPE => Some(BinOp::Or),
        punctuation::AMPERSAND => Some(BinOp::And),
        punctuation::LESS => Some(BinOp::Lt),
        punctuation::LESS_EQUAL => Some(BinOp::Le),
        punctuation::EQUAL_EQUAL => Some(BinOp::Eq),
        punctuation::BANG_EQUAL => Some(BinOp::Ne),
        punctuation::GREATER => Some(BinOp::Gt),
        punctuation::GREATER_EQUAL => Some(BinOp::Ge),
        punctuation::PLUS => Some(BinOp::Add),
        punctuation::MINUS => Some(BinOp::Sub),
        punctuation::STAR => Some(BinOp::Mul),
        _ => None,
    }
}

impl Parser<'_> {
    /// The operator between two operands that the next token is.
    fn binary_operator(&self) -> Option<BinOp>
        ensures value { result ≡ the_binary_operator (next self.now) }
        ensures within { IsSome result → self.now.at < length self.now.tokens.now }
    {
        match self.kind() {
            Some(TokenKind::Symbol(symbol)) => operator_of(*symbol),
            _ => None,
        }
    }

    /// The operator that the next token is, if its precedence is between these two.
    fn operator_between(&self, loosest: Precedence, tightest: Precedence) -> Option<BinOp>
        ensures some { IfSome result (IsBetween loosest tightest (next self.now)) }
        ensures none { IfNone result (NoneBetween loosest tightest (next self.now)) }
        ensures within { IsSome result → self.now.at < length self.now.tokens.now }
    {
        let operator = self.binary_operator()?;
        let rank = Precedence::of(operator).rank();
        if loosest.rank() <= rank && rank <= tightest.rank() {
            Some(operator)
        } else {
            None
        }
    }

    /// Whether the shift that the next token is goes to the left.
    fn shift_operator(&self) -> Option<bool>
        ensures value { result ≡ the_shift_operator (next self.now) }
        ensures within { IsSome result → self.now.at < length self.now.tokens.now }
    {
        match self.kind() {
            Some(TokenKind::Symbol(punctuation::LESS_LESS)) => Some(true),
            Some(TokenKind::Symbol(punctuation::GREATER_GREATER)) => Some(false),
            _ => None,
        }
    }

    /// The truth value that the next token is.
    pub fn next_truth(&self) -> Option<bool>
        ensures value { result ≡ truth_of (next self.now) }
        ensures within { IsSome result → self.now.at < length self.now.tokens.now }
    {
        match self.kind() {
            Some(TokenKind::Reserved(keywords::TRUE)) => Some(true),
            Some(TokenKind::Reserved(keywords::FALSE)) => Some(false),
            _ => None,
        }
    }

    /// Reads an expression.
    #[cycle(expressions)]
    pub fn expression(&mut self) -> Result<Expr, ParseFault>
        ensures { IsParsed (Chain Or) self.old expr_value self.new result }
    {
        self.operation(Precedence::Or)
    }

    /// Reads operands with operators between them that are at least as tight as `loosest`, by precedence climbing.
    #[cycle(expressions)]
    fn operation(&mut self, loosest: Precedence) -> Result<Expr, ParseFault>
        ensures { IsParsed (operation loosest) self.old expr_value self.new result }
    {
        let mut left = self.shift()?;
        let mut tightest = Precedence::Product;
        'operators: while let Some(operator) = self.operator_between(loosest, tightest) {
            left = self.operated(left, operator)?;
            tightest = Precedence::of(operator).tightest_after();
        }
        Ok(left)
    }

    /// Reads an operator and its right operand, after its left operand.
    #[cycle(expressions)]
    #[inline(never)]
    fn operated(&mut self, left: Expr, operator: BinOp) -> Result<Expr, ParseFault>
        requires inside { self.old.at < length self.old.tokens.now }
        requires next { the_binary_operator (next self.old) ≡ Some operator }
        ensures read { IsRead (operated (precedence_of operator)) self.old (expr_value left ∷ [])
            (λ e. expr_value e ∷ []) self.new result }
        ensures advances { OnOk result (self.old.at < self.new.at) }
    {
        let at = self.start();
        let left = Box::new(self.alloc, left)?;
        let right = self.after_operator(operator)?;
        Ok(Expr::Binary(at, operator, left, right))
    }

    /// Reads an operator and its right operand, whatever its left operand is.
    #[cycle(expressions)]
    fn after_operator(&mut self, operator: BinOp) -> Result<Box<Expr>, ParseFault>
        requires inside { self.old.at < length self.old.tokens.now }
        requires next { the_binary_operator (next self.old) ≡ Some operator }
        ensures read { (left : TreeExpr) → IsRead (operated (precedence_of operator)) self.old (the.expr left ∷ [])
            (λ right. binary_value (start_of self.old) operator left right ∷ []) self.new result }
        ensures advances { OnOk result (self.old.at < self.new.at) }
    {
        self.advance(Effect::Inside)?;
        let right = self.right_operand(Precedence::of(operator))?;
        Ok(Box::new(self.alloc, right)?)
    }

    /// Reads the right operand of an operator of this precedence.
    #[cycle(expressions)]
    fn right_operand(&mut self, precedence: Precedence) -> Result<Expr, ParseFault>
        ensures { IsParsed (right_operand precedence) self.old expr_value self.new result }
    {
        match precedence {
            Precedence::Or => self.operation(Precedence::And),
            Precedence::And => self.operation(Precedence::Comparison),
            Precedence::Comparison => self.operation(Precedence::Sum),
            Precedence::Sum => self.operation(Precedence::Product),
            Precedence::Product => self.shift(),
        }
    }

    /// Reads an operand, with each shift after it.
    #[cycle(expressions)]
    fn shift(&mut self) -> Result<Expr, ParseFault>
        ensures { IsParsed Shift self.old expr_value self.new result }
    {
        let mut operand = self.unary()?;
        'shifts: while let Some(is_left) = self.shift_operator() {
            operand = self.shifted(operand, is_left)?;
        }
        Ok(operand)
    }

    /// Reads a shift after its operand.
    #[inline(never)]
    fn shifted(&mut self, operand: Expr, is_left: bool) -> Result<Expr, ParseFault>
        requires inside { self.old.at < length self.old.tokens.now }
        requires next { the_shift_operator (next self.old) ≡ Some is_left }
        ensures read { IsRead shifted self.old (expr_value operand ∷ []) (λ e. expr_value e ∷ []) self.new result }
        ensures advances { OnOk result (self.old.at < self.new.at) }
    {
        let at = self.start();
        let operand = Box::new(self.alloc, operand)?;
        self.advance(Effect::Inside)?;
        let amount = self.manifest_primary()?;
        Ok(Expr::Shift(at, is_left, operand, amount))
    }

    /// Reads a primary, with each `-` and `!` in front of it.
    #[cycle(expressions)]
    fn unary(&mut self) -> Result<Expr, ParseFault>
        ensures { IsParsed Unary self.old expr_value self.new result }
    {
        if self.is_symbol(punctuation::MINUS) {
            return self.negated();
        }
        if self.is_symbol(punctuation::BANG) {
            return self.inverted();
        }
        self.primary()
    }

    /// Reads a `!` and its operand.
    #[cycle(expressions)]
    #[inline(never)]
    fn inverted(&mut self) -> Result<Expr, ParseFault>
        requires inside { self.old.at < length self.old.tokens.now }
        requires bang { is_one (Punctuation punctuation.BANG ∷ []) (next self.old) ≡ true }
        ensures { IsParsed Unary self.old expr_value self.new result }
    {
        let at = self.start();
        self.advance(Effect::Inside)?;
        let operand = self.unary()?;
        Ok(Expr::Not(at, Box::new(self.alloc, operand)?))
    }

    /// Reads what begins with a `-`, which belongs to a number directly after it.
    #[cycle(expressions)]
    #[inline(never)]
    fn negated(&mut self) -> Result<Expr, ParseFault>
        requires inside { self.old.at < length self.old.tokens.now }
        requires minus { is_one (Punctuation punctuation.MINUS ∷ []) (next self.old) ≡ true }
        ensures { IsParsed Unary self.old expr_value self.new result }
    {
        let at = self.start();
        self.advance(Effect::Inside)?;
        if self.is_number() {
            let (digits, places) = self.number(Effect::Inside)?;
            let neg = true;
            return Ok(Expr::Lit(Lit::Number {
                neg,
                digits,
                places,
                at,
            }));
        }
        let operand = self.unary()?;
        Ok(Expr::Negate(at, Box::new(self.alloc, operand)?))
    }

    /// Reads a literal, a place, a cast, a choice or an expression in parentheses.
    #[cycle(expressions)]
    fn primary(&mut self) -> Result<Expr, ParseFault>
        ensures { IsParsed Primary self.old expr_value self.new result }
    {
        if self.is_name() {
            return self.read();
        }
        if self.is_number() {
            return self.number_literal();
        }
        if let Some(value) = self.next_truth() {
            return self.truth_literal(value);
        }
        if self.is_reserved(keywords::FIX) {
            return self.cast();
        }
        if self.is_reserved(keywords::IF) {
            return self.choice();
        }
        self.parenthesised()
    }

    /// Reads an expression in parentheses.
    #[cycle(expressions)]
    fn parenthesised(&mut self) -> Result<Expr, ParseFault>
        ensures { ReadsBetween in_parentheses expr_value self.old self.new result }
    {
        self.expect_symbol(punctuation::LEFT_PAREN, Effect::Inside)?;
        let inner = self.expression()?;
        self.expect_symbol(punctuation::RIGHT_PAREN, Effect::Inside)?;
        Ok(inner)
    }

    /// Reads a number.
    #[inline(never)]
    fn number_literal(&mut self) -> Result<Expr, ParseFault>
        requires { is_one number (next self.old) ≡ true }
        ensures { IsParsed OtherPrimary self.old expr_value self.new result }
    {
        let at = self.start();
        let (digits, places) = self.number(Effect::Inside)?;
        let neg = false;
        Ok(Expr::Lit(Lit::Number {
            neg,
            digits,
            places,
            at,
        }))
    }

    /// Reads a truth value.
    #[inline(never)]
    fn truth_literal(&mut self, value: bool) -> Result<Expr, ParseFault>
        requires inside { self.old.at < length self.old.tokens.now }
        requires truth { truth_of (next self.old) ≡ Some value }
        ensures { IsParsed OtherPrimary self.old expr_value self.new result }
    {
        let at = self.start();
        self.advance(Effect::Inside)?;
        Ok(Expr::Lit(Lit::Truth { value, at }))
    }

    /// Reads a place with its subscripts and its delay.
    #[inline(never)]
    fn read(&mut self) -> Result<Expr, ParseFault>
        requires { is_one (AName ∷ []) (next self.old) ≡ true }
        ensures { IsParsed Primary self.old expr_value self.new result }
    {
        let at = self.start();
        let name = self.name(Effect::Inside)?;
        let subs = self.subscripts(Effect::Inside, Effect::Inside)?;
        let delay = self.delay()?;
        let place = Place { name, at, subs };
        Ok(Expr::Read { place, delay })
    }

    /// Reads a cast.
    #[cycle(expressions)]
    #[inline(never)]
    fn cast(&mut self) -> Result<Expr, ParseFault>
        requires inside { self.old.at < length self.old.tokens.now }
        requires fix { is_one (Keyword keyword.FIX ∷ []) (next self.old) ≡ true }
        ensures { IsParsed OtherPrimary self.old expr_value self.new result }
    {
        let at = self.start();
        let fix = self.fix_type(Effect::Inside)?;
        let inner = self.parenthesised()?;
        Ok(Expr::Cast(at, fix, Box::new(self.alloc, inner)?))
    }

    /// Reads a choice: its conditions with their values, and the last value.
    #[cycle(expressions)]
    #[inline(never)]
    fn choice(&mut self) -> Result<Expr, ParseFault>
        requires inside { self.old.at < length self.old.tokens.now }
        requires begins { is_one (Keyword keyword.IF ∷ []) (next self.old) ≡ true }
        ensures { IsParsed OtherPrimary self.old expr_value self.new result }
    {
        let at = self.start();
        self.expect_reserved(keywords::IF, Effect::Inside)?;
        let when = self.expression()?;
        let mut branches = Vec::new(self.alloc);
        self.branch(when, &mut branches)?;
        let last = self.more_branches(&mut branches)?;
        Ok(Expr::Choose(at, branches, last))
    }

    /// Reads the `->` and the value of a branch after its condition, and adds the branch to `branches`.
    #[cycle(expressions)]
    #[inline(never)]
    fn branch(&mut self, when: Expr, branches: &mut Vec<(Expr, Expr)>) -> Result<(), ParseFault>
        ensures { ReadsBranch when branches.old.items branches.new.items self.old self.new result }
    {
        self.expect_symbol(punctuation::ARROW, Effect::Inside)?;
        let value = self.expression()?;
        branches.push((when, value))?;
        Ok(())
    }

    /// Reads the branches after the first one onto `branches`, and the last value.
    #[cycle(expressions)]
    #[inline(never)]
    fn more_branches(&mut self, branches: &mut Vec<(Expr, Expr)>) -> Result<Box<Expr>, ParseFault>
        ensures { (at : ℕ) → IsRead (Expand Arms ∷ []) self.old (branches_value at branches.old.items ∷ [])
            (λ last. choice_value at branches.new.items last ∷ []) self.new result }
    {
        'arms: loop {
            self.expect_symbol(punctuation::PIPE_PIPE, Effect::Inside)?;
            let part = self.expression()?;
            if !self.is_symbol(punctuation::ARROW) {
                return self.choice_end(part);
            }
            self.branch(part, branches)?;
        }
    }

    /// Reads `fi` after the last value of a choice.
    fn choice_end(&mut self, last: Expr) -> Result<Box<Expr>, ParseFault>
        ensures { (bar : AToken) (at : ℕ) (branches : Listed (Expr × Expr)) → IsRead choice_end self.old
            (expr_value last ∷ the.token bar ∷ branches_value at branches ∷ [])
            (λ e. choice_value at branches e ∷ []) self.new result }
    {
        self.expect_reserved(keywords::FI, Effect::Inside)?;
        Ok(Box::new(self.alloc, last)?)
    }
}
