//! Manifest constants, places and expressions as text.

ghost use Rattle.std.specs.Prelude.{◌≡◌, ◌<◌, ◌||◌, ◌++◌, ◌∷◌, [], length, map, nat_lt, Option, OnOk};
ghost use Rattle.std.specs.List.{flat_map};
ghost use Rattle.silage_lex.specs.Texts.{symbols};
ghost use Rattle.silage_syntax.specs.Tree.{view_manifest, view_place, view_delay, view_expr};
ghost use Rattle.silage_print.specs.Text as text;
ghost use Rattle.silage_print.specs.Text.{enclosed, subscript_text, manifest_text, amount_text, place_text, delay_text, expr_text, listed, after_comma};
ghost use Rattle.silage_print.specs.Private.Puts.{Puts, arm_text};

use crate::precedence::{AND, COMPARISON, OR, PRIMARY, PRODUCT, SHIFT, SUM, UNARY};
use crate::print_tokens::{put_close, put_name, put_open, put_symbol, put_whole, put_word};
use crate::print_types::{put_fix, put_lit};
use lists::Bytes;
use silage_lex::{keywords, punctuation};
use silage_syntax::{BinOp, Expr, Lit, MOp, Manifest, Place};
use std::alloc::AllocError;

fn manifest_precedence(m: &Manifest) -> u8
    ensures { result ≡ text.manifest_precedence (view_manifest m.now) }
{
    match m {
        Manifest::Whole(_, _) => PRIMARY,
        Manifest::Index(_, _) => PRIMARY,
        Manifest::Negate(_, _) => UNARY,
        Manifest::Binary(_, MOp::Mul, _, _) => PRODUCT,
        Manifest::Binary(_, _, _, _) => SUM,
    }
}

fn term_mark(op: MOp) -> u8
    ensures mark { result ≡ text.term_mark op }
    ensures symbol { result < length symbols }
{
    match op {
        MOp::Add => punctuation::PLUS,
        MOp::Sub => punctuation::MINUS,
        MOp::Mul => punctuation::STAR,
    }
}

fn term_left(op: MOp) -> u8
    ensures { result ≡ text.term_left op }
{
    match op {
        MOp::Add => SUM,
        MOp::Sub => SUM,
        MOp::Mul => PRODUCT,
    }
}

fn term_right(op: MOp) -> u8
    ensures { result ≡ text.term_right op }
{
    match op {
        MOp::Add => PRODUCT,
        MOp::Sub => PRODUCT,
        MOp::Mul => UNARY,
    }
}

#[cycle(manifests)]
pub(crate) fn put_manifest(out: &mut Bytes, m: &Manifest) -> Result<(), AllocError>
    ensures { OnOk result (Puts out.old (manifest_text (view_manifest m.now)) out.new) }
{
    match m {
        Manifest::Whole(value, _) => put_whole(out, *value),
        Manifest::Index(name, _) => put_name(out, name),
        Manifest::Negate(_, part) => {
            put_symbol(out, punctuation::MINUS)?;
            put_term(out, part, UNARY)
        }
        Manifest::Binary(_, op, left, right) => {
            put_term(out, left, term_left(*op))?;
            put_symbol(out, term_mark(*op))?;
            put_term(out, right, term_right(*op))
        }
    }
}

/// Adds the manifest constant, in parentheses where it is looser than what its context asks for.
#[cycle(manifests)]
fn put_term(out: &mut Bytes, m: &Manifest, asked: u8) -> Result<(), AllocError>
    ensures { OnOk result (Puts out.old (text.manifest_in asked (view_manifest m.now)) out.new) }
{
    let is_loose = manifest_precedence(m) < asked;
    put_open(out, is_loose)?;
    put_manifest(out, m)?;
    put_close(out, is_loose)
}

pub(crate) fn put_amount(out: &mut Bytes, m: &Manifest) -> Result<(), AllocError>
    ensures { OnOk result (Puts out.old (amount_text (view_manifest m.now)) out.new) }
{
    put_term(out, m, PRIMARY)
}

/// Adds each subscript in brackets.
fn put_subs(out: &mut Bytes, subs: &[Manifest]) -> Result<(), AllocError>
    ensures { OnOk result (Puts out.old (flat_map (λ m. subscript_text (view_manifest m)) subs.now) out.new) }
{
    for sub in subs {
        put_symbol(out, punctuation::LEFT_BRACKET)?;
        put_manifest(out, sub)?;
        put_symbol(out, punctuation::RIGHT_BRACKET)?;
    }
    Ok(())
}

pub(crate) fn put_place(out: &mut Bytes, place: &Place) -> Result<(), AllocError>
    ensures { OnOk result (Puts out.old (place_text (view_place place.now)) out.new) }
{
    put_name(out, &place.name)?;
    put_subs(out, &place.subs)
}

fn put_delay(out: &mut Bytes, delay: &Option<Manifest>) -> Result<(), AllocError>
    ensures { OnOk result (Puts out.old (delay_text (view_delay delay.now)) out.new) }
{
    match delay {
        None => Ok(()),
        Some(m) => {
            put_symbol(out, punctuation::AT)?;
            put_amount(out, m)
        }
    }
}

fn operator_mark(op: BinOp) -> u8
    ensures mark { result ≡ text.operator_mark op }
    ensures symbol { result < length symbols }
{
    match op {
        BinOp::Add => punctuation::PLUS,
        BinOp::Sub => punctuation::MINUS,
        BinOp::Mul => punctuation::STAR,
        BinOp::Lt => punctuation::LESS,
        BinOp::Le => punctuation::LESS_EQUAL,
        BinOp::Eq => punctuation::EQUAL_EQUAL,
        BinOp::Ne => punctuation::BANG_EQUAL,
        BinOp::Gt => punctuation::GREATER,
        BinOp::Ge => punctuation::GREATER_EQUAL,
        BinOp::And => punctuation::AMPERSAND,
        BinOp::Or => punctuation::PIPE,
    }
}

fn operator_precedence(op: BinOp) -> u8
    ensures { result ≡ text.operator_precedence op }
{
    match op {
        BinOp::Or => OR,
        BinOp::And => AND,
        BinOp::Add => SUM,
        BinOp::Sub => SUM,
        BinOp::Mul => PRODUCT,
        _ => COMPARISON,
    }
}

/// The precedence that the left side of an operator asks for.
fn left_precedence(op: BinOp) -> u8
    ensures { result ≡ text.left_precedence op }
{
    match op {
        BinOp::Or => OR,
        BinOp::And => AND,
        BinOp::Mul => PRODUCT,
        _ => SUM,
    }
}

/// The precedence that the right side of an operator asks for.
fn right_precedence(op: BinOp) -> u8
    ensures { result ≡ text.right_precedence op }
{
    match op {
        BinOp::Or => AND,
        BinOp::And => COMPARISON,
        BinOp::Add => PRODUCT,
        BinOp::Sub => PRODUCT,
        BinOp::Mul => SHIFT,
        _ => SUM,
    }
}

fn expr_precedence(e: &Expr) -> u8
    ensures { result ≡ text.expr_precedence (view_expr e.now) }
{
    match e {
        Expr::Lit(
            Lit::Number {
                neg: true,
                digits: _,
                places: _,
                at: _,
            },
        ) => UNARY,
        Expr::Negate(_, _) => UNARY,
        Expr::Not(_, _) => UNARY,
        Expr::Binary(_, op, _, _) => operator_precedence(*op),
        Expr::Shift(_, _, _, _) => SHIFT,
        _ => PRIMARY,
    }
}

/// Whether the expression is a number without a sign.
fn is_unsigned(e: &Expr) -> bool
    ensures { result ≡ text.is_unsigned (view_expr e.now) }
{
    match e {
        Expr::Lit(
            Lit::Number {
                neg,
                digits: _,
                places: _,
                at: _,
            },
        ) => !*neg,
        _ => false,
    }
}

/// Whether an operand of `-` needs parentheses.
fn is_loose_operand(e: &Expr) -> bool
    ensures { result ≡ text.is_loose_operand (view_expr e.now) }
{
    expr_precedence(e) < UNARY || is_unsigned(e)
}

fn shift_mark(left: bool) -> u8
    ensures mark { result ≡ text.shift_mark left }
    ensures symbol { result < length symbols }
{
    if left {
        punctuation::LESS_LESS
    } else {
        punctuation::GREATER_GREATER
    }
}

#[cycle(exprs)]
pub(crate) fn put_expr(out: &mut Bytes, e: &Expr) -> Result<(), AllocError>
    ensures { OnOk result (Puts out.old (expr_text (view_expr e.now)) out.new) }
{
    match e {
        Expr::Lit(lit) => put_lit(out, *lit),
        Expr::Read { place, delay } => {
            put_place(out, place)?;
            put_delay(out, delay)
        }
        Expr::Negate(_, part) => {
            put_symbol(out, punctuation::MINUS)?;
            put_part(out, part, is_loose_operand(part))
        }
        Expr::Not(_, part) => {
            put_symbol(out, punctuation::BANG)?;
            put_part(out, part, expr_precedence(part) < UNARY)
        }
        Expr::Binary(_, op, left, right) => {
            put_part(out, left, expr_precedence(left) < left_precedence(*op))?;
            put_symbol(out, operator_mark(*op))?;
            put_part(out, right, expr_precedence(right) < right_precedence(*op))
        }
        Expr::Shift(_, left, part, amount) => {
            put_part(out, part, expr_precedence(part) < SHIFT)?;
            put_symbol(out, shift_mark(*left))?;
            put_amount(out, amount)
        }
        Expr::Cast(_, ty, part) => {
            put_fix(out, ty)?;
            put_part(out, part, true)
        }
        Expr::Choose(_, arms, last) => {
            put_word(out, keywords::IF)?;
            put_arms(out, arms)?;
            put_expr(out, last)?;
            put_word(out, keywords::FI)
        }
    }
}

/// Adds the expression, in parentheses if it is said to be loose.
#[cycle(exprs)]
fn put_part(out: &mut Bytes, e: &Expr, is_loose: bool) -> Result<(), AllocError>
    ensures { OnOk result (Puts out.old (enclosed is_loose (expr_text (view_expr e.now))) out.new) }
{
    put_open(out, is_loose)?;
    put_expr(out, e)?;
    put_close(out, is_loose)
}

/// Adds each condition with its value.
#[cycle(exprs)]
fn put_arms(out: &mut Bytes, arms: &[(Expr, Expr)]) -> Result<(), AllocError>
    ensures { OnOk result (Puts out.old (flat_map arm_text arms.now) out.new) }
{
    for arm in arms {
        put_expr(out, &arm.0)?;
        put_symbol(out, punctuation::ARROW)?;
        put_expr(out, &arm.1)?;
        put_symbol(out, punctuation::PIPE_PIPE)?;
    }
    Ok(())
}

/// Adds the expressions with a comma before each.
fn put_other_exprs(out: &mut Bytes, exprs: &[Expr]) -> Result<(), AllocError>
    ensures { OnOk result (Puts out.old (flat_map (λ e. after_comma expr_text (view_expr e)) exprs.now) out.new) }
{
    for e in exprs {
        put_symbol(out, punctuation::COMMA)?;
        put_expr(out, e)?;
    }
    Ok(())
}

/// Adds the expressions with commas between.
pub(crate) fn put_exprs(out: &mut Bytes, exprs: &[Expr]) -> Result<(), AllocError>
    ensures { OnOk result (Puts out.old (listed expr_text (map view_expr exprs.now)) out.new) }
{
    match exprs {
        [] => Ok(()),
        [first, rest @ ..] => {
            put_expr(out, first)?;
            put_other_exprs(out, rest)
        }
    }
}

/// Adds the places with a comma before each.
fn put_other_places(out: &mut Bytes, places: &[Place]) -> Result<(), AllocError>
    ensures { OnOk result (Puts out.old (flat_map (λ p. after_comma place_text (view_place p)) places.now) out.new) }
{
    for place in places {
        put_symbol(out, punctuation::COMMA)?;
        put_place(out, place)?;
    }
    Ok(())
}

/// Adds the places with commas between.
pub(crate) fn put_places(out: &mut Bytes, places: &[Place]) -> Result<(), AllocError>
    ensures { OnOk result (Puts out.old (listed place_text (map view_place places.now)) out.new) }
{
    match places {
        [] => Ok(()),
        [first, rest @ ..] => {
            put_place(out, first)?;
            put_other_places(out, rest)
        }
    }
}
