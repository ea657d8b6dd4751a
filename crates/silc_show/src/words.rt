//! A table of operations on words, one a line, each with its result:
//!
//! - `wrap Q W`: the word of W bits for Q;
//! - `form Q SHIFT MODE WIDTH`: the word of Q in a format;
//! - `conv M F1 W F MODE`: the word in the shape (W,F) of the word M with F1 fraction bits;
//! - `literal SIGN DIGITS PLACES W F`: the word in the shape (W,F) of the literal DIGITS/10^PLACES, whose sign is `+`
//!   or `-`, or its fault;
//! - `apply OP SHIFT MODE WIDTH A B C`: the result of an operation, at three operands of which it reads its own.

ghost use Rattle.std.specs.Prelude.{◌≡◌, ◌<◌, ◌≤◌, ◌^◌, ◌↔◌, IsTrue, IfOk, unsigned_abs};
ghost use Rattle.fix_word.specs.Operations.{IsReady};
ghost use Rattle.fix_word.specs.Words.{IsFormat, IsShape};

use crate::operation_names::operation_named;
use crate::page::{Page, Refused};
use crate::source::text_of;
use fix_word::{Format, MOST_BITS, Mode, Op, Shape, apply, conv, form, literal, wrap};
use std::alloc::AllocError;

/// What is said of a row that has no result: the condition that it breaks.
type Broken = &'static str;

/// The words are no operation with its numbers.
const ROW: Broken = " refused: row";

/// A number is below -2^80 or above 2^80.
const NUMBER: Broken = " refused: number";

/// A width is not 1 to 40.
const WIDTH: Broken = " refused: width";

/// A width is not 1 to 40, or there are more fraction bits than bits.
const SHAPE: Broken = " refused: shape";

/// The fraction bits of a number are not 0 to 80.
const FRACTION_BITS: Broken = " refused: fraction bits";

/// A literal has more than 18 digits.
const DIGITS: Broken = " refused: digits";

/// A literal has more than 17 digits behind its point.
const PLACES: Broken = " refused: places";

/// A shift is not -40 to 80, or a width not 1 to 40.
const FORMAT: Broken = " refused: format";

/// The operation is one that has no result by itself.
const OPERATION: Broken = " refused: operation";

/// An operand is below -2^39 or above 2^39.
const OPERAND: Broken = " refused: operand";

/// The greatest size of a number, and of an operand.
const NUMBER_LIMIT: u128 = 1 << 80;

const OPERAND_LIMIT: u64 = 1 << 39;

/// The most fraction bits of a number.
const FRACTION_BITS_LIMIT: i16 = 80;

/// The least number with 19 digits.
const DIGITS_LIMIT: u64 = 1_000_000_000_000_000_000;

/// The most digits behind the point of a literal.
const PLACES_LIMIT: u8 = 17;

fn number(word: &str) -> Result<i128, Broken>
    ensures { IfOk result (λ q. unsigned_abs q ≤ 2 ^ 80) }
{
    let Ok(number) = word.parse::<i128>() else {
        return Err(ROW);
    };
    if number.unsigned_abs() > NUMBER_LIMIT {
        return Err(NUMBER);
    }
    Ok(number)
}

fn operand(word: &str) -> Result<i64, Broken>
    ensures { IfOk result (λ a. unsigned_abs a ≤ 2 ^ 39) }
{
    let Ok(operand) = word.parse::<i64>() else {
        return Err(ROW);
    };
    if operand.unsigned_abs() > OPERAND_LIMIT {
        return Err(OPERAND);
    }
    Ok(operand)
}

fn mode(word: &str) -> Result<Mode, Broken> {
    match word {
        "trunc" => Ok(Mode::Trunc),
        "round" => Ok(Mode::Round),
        "sat" => Ok(Mode::Sat),
        "round,sat" => Ok(Mode::RoundSat),
        _ => Err(ROW),
    }
}

fn format(shift: &str, mode_word: &str, width: &str) -> Result<Format, Broken> {
    let (Ok(shift), Ok(width)) = (shift.parse::<i8>(), width.parse::<u8>()) else {
        return Err(ROW);
    };
    Ok(Format {
        shift,
        mode: mode(mode_word)?,
        width,
    })
}

fn is_format(fmt: &Format) -> bool
    ensures { IsTrue result ↔ IsFormat fmt.now }
{
    -40 <= fmt.shift && fmt.shift <= 80 && 1 <= fmt.width && fmt.width <= MOST_BITS
}

fn wrapped(q: &str, width: &str) -> Result<i64, Broken> {
    let Ok(w) = width.parse::<u8>() else {
        return Err(ROW);
    };
    let q = number(q)?;
    if w < 1 || w > MOST_BITS {
        return Err(WIDTH);
    }
    Ok(wrap(q, w))
}

fn formed(q: &str, fmt: &Format) -> Result<i64, Broken> {
    let q = number(q)?;
    if !is_format(fmt) {
        return Err(FORMAT);
    }
    Ok(form(q, fmt))
}

fn shape(w: &str, f: &str) -> Result<Shape, Broken>
    ensures { IfOk result IsShape }
{
    let (Ok(w), Ok(f)) = (w.parse::<u8>(), f.parse::<u8>()) else {
        return Err(ROW);
    };
    if w < 1 || w > MOST_BITS || f > w {
        return Err(SHAPE);
    }
    Ok(Shape { w, f })
}

fn converted(m: &str, f1: &str, to: Shape, mode: Mode) -> Result<i64, Broken>
    requires { IsShape to }
{
    let Ok(f1) = f1.parse::<i16>() else {
        return Err(ROW);
    };
    let m = number(m)?;
    if f1 < 0 || f1 > FRACTION_BITS_LIMIT {
        return Err(FRACTION_BITS);
    }
    Ok(conv(m, f1, to, mode))
}

fn is_negative(sign: &str) -> Result<bool, Broken> {
    match sign {
        "+" => Ok(false),
        "-" => Ok(true),
        _ => Err(ROW),
    }
}

fn put_literal(page: &mut Page, sign: &str, number: [&str; 2], to: Shape) -> Result<(), Broken>
    requires { IsShape to }
{
    let neg = is_negative(sign)?;
    let (Ok(digits), Ok(places)) = (number[0].parse::<u64>(), number[1].parse::<u8>()) else {
        return Err(ROW);
    };
    if digits >= DIGITS_LIMIT {
        return Err(DIGITS);
    }
    if places > PLACES_LIMIT {
        return Err(PLACES);
    }
    match literal(neg, digits, places, to) {
        Ok(word) => page.number(" = ", word),
        Err(fault) => page.shown(" fault: ", &fault),
    }
    Ok(())
}

/// Whether the operation has a result in the format, which the formatted ones alone go through.
fn check_ready(op: Op, fmt: &Format) -> Result<(), Broken>
    ensures { IfOk result (λ _. IsReady op fmt.now) }
{
    match op {
        Op::Input | Op::Output | Op::Const | Op::Load | Op::Store | Op::Addr => { Err(OPERATION) }
        Op::Add | Op::Sub | Op::Neg | Op::Pass | Op::Mul => {
            if is_format(fmt) { Ok(()) } else { Err(FORMAT) }
        }
        Op::Lt | Op::Le | Op::Eq | Op::Ne | Op::And | Op::Or | Op::Not | Op::Sel => Ok(()),
    }
}

fn applied(name: &str, fmt: &Format, operands: [&str; 3]) -> Result<i64, Broken> {
    let Some(op) = operation_named(name) else {
        return Err(ROW);
    };
    let a = operand(operands[0])?;
    let b = operand(operands[1])?;
    let c = operand(operands[2])?;
    check_ready(op, fmt)?;
    Ok(apply(op, fmt, a, b, c))
}

fn word(row: &[&str]) -> Result<i64, Broken> {
    match row {
        [verb, q, width] if *verb == "wrap" => wrapped(q, width),
        [verb, q, shift, mode, width] if *verb == "form" => formed(q, &format(shift, mode, width)?),
        [verb, m, f1, w, f, mode_word] if *verb == "conv" => {
            converted(m, f1, shape(w, f)?, mode(mode_word)?)
        }
        [verb, name, shift, mode, width, a, b, c] if *verb == "apply" => {
            applied(name, &format(shift, mode, width)?, [*a, *b, *c])
        }
        _ => Err(ROW),
    }
}

/// Puts what a row gives.
fn put_result(page: &mut Page, row: &[&str]) -> Result<(), Broken> {
    match row {
        [verb, sign, digits, places, w, f] if *verb == "literal" => {
            put_literal(page, sign, [*digits, *places], shape(w, f)?)?
        }
        _ => page.number(" = ", word(row)?),
    }
    Ok(())
}

fn put_answer(page: &mut Page, line: &str) -> Result<(), AllocError> {
    let row: Vec<&str> = line.split(' ').collect(page.alloc)?;
    if let Err(broken) = put_result(page, &row) {
        page.text(broken);
    }
    Ok(())
}

pub fn put(page: &mut Page, table: &[u8]) -> Result<(), Refused> {
    let table = text_of(page, table)?;
    for line in table.lines() {
        page.text(line);
        if put_answer(page, line).is_err() {
            return Err(page.cut());
        }
        page.end();
    }
    Ok(())
}
