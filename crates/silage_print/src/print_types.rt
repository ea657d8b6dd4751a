//! Literals, types and declarations as text.

ghost use Rattle.std.specs.Prelude.{◌≡◌, ◌<◌, ◌++◌, ◌∷◌, [], length, OnOk};
ghost use Rattle.silage_lex.specs.Texts.{reserved_words};
ghost use Rattle.silage_print.specs.Text.{truth_word, sign_text, lit_text, dims_text, mode_text, fix_text, type_text, decl_text, after_comma, listed};
ghost use Rattle.silage_print.specs.Private.Puts.{Puts};
ghost use Rattle.std.specs.List.{flat_map};

use crate::print_tokens::{put_name, put_number, put_symbol, put_whole, put_word};
use fix_word::{FixType, Mode, SigType};
use lists::{Bytes, List};
use silage_lex::keywords::{BOOL, FALSE, FIX, ROUND, SAT, TRUE, TRUNC};
use silage_lex::punctuation::{COLON, COMMA, GREATER, LEFT_BRACKET, LESS, MINUS, RIGHT_BRACKET};
use silage_syntax::{Decl, Lit};
use std::alloc::AllocError;

fn truth_word_of(value: bool) -> u8
    ensures word { result ≡ truth_word value }
    ensures reserved { result < length reserved_words }
{
    if value { TRUE } else { FALSE }
}

/// Adds `-` if it is wanted.
#[tactic(auto, using(crate::proofs::Spelled::no_sign))]
fn put_sign(out: &mut Bytes, wanted: bool) -> Result<(), AllocError>
    ensures { OnOk result (Puts out.old (sign_text wanted) out.new) }
{
    if wanted {
        put_symbol(out, MINUS)
    } else {
        Ok(())
    }
}

pub(crate) fn put_lit(out: &mut Bytes, lit: Lit) -> Result<(), AllocError>
    ensures { OnOk result (Puts out.old (lit_text lit) out.new) }
{
    match lit {
        Lit::Number {
            neg,
            digits,
            places,
            at: _,
        } => {
            put_sign(out, neg)?;
            put_number(out, digits, places)
        }
        Lit::Truth { value, at: _ } => put_word(out, truth_word_of(value)),
    }
}

/// Adds each dim in brackets.
pub(crate) fn put_dims(out: &mut Bytes, dims: &List<u32>) -> Result<(), AllocError>
    ensures { OnOk result (Puts out.old (dims_text dims.now) out.new) }
{
    for dim in dims.iter() {
        put_symbol(out, LEFT_BRACKET)?;
        put_whole(out, u64::from(*dim))?;
        put_symbol(out, RIGHT_BRACKET)?;
    }
    Ok(())
}

/// Adds a mode: a word, or two with a comma between.
fn put_mode(out: &mut Bytes, mode: Mode) -> Result<(), AllocError>
    ensures { OnOk result (Puts out.old (mode_text mode) out.new) }
{
    match mode {
        Mode::Trunc => put_word(out, TRUNC),
        Mode::Round => put_word(out, ROUND),
        Mode::Sat => put_word(out, SAT),
        Mode::RoundSat => {
            put_word(out, ROUND)?;
            put_symbol(out, COMMA)?;
            put_word(out, SAT)
        }
    }
}

pub(crate) fn put_fix(out: &mut Bytes, ty: &FixType) -> Result<(), AllocError>
    ensures { OnOk result (Puts out.old (fix_text ty.now) out.new) }
{
    put_word(out, FIX)?;
    put_symbol(out, LESS)?;
    put_whole(out, u64::from(ty.shape.w))?;
    put_symbol(out, COMMA)?;
    put_whole(out, u64::from(ty.shape.f))?;
    put_symbol(out, COMMA)?;
    put_mode(out, ty.mode)?;
    put_symbol(out, GREATER)
}

fn put_type(out: &mut Bytes, ty: &SigType) -> Result<(), AllocError>
    ensures { OnOk result (Puts out.old (type_text ty.now) out.new) }
{
    match ty {
        SigType::Fix(fix) => put_fix(out, fix),
        SigType::Bool => put_word(out, BOOL),
    }
}

pub(crate) fn put_decl(out: &mut Bytes, decl: &Decl) -> Result<(), AllocError>
    ensures { OnOk result (Puts out.old (decl_text decl.now) out.new) }
{
    put_name(out, &decl.name)?;
    put_dims(out, &decl.dims)?;
    put_symbol(out, COLON)?;
    put_type(out, &decl.ty)
}

/// Adds the declarations with a comma before each.
fn put_other_decls(out: &mut Bytes, decls: &[Decl]) -> Result<(), AllocError>
    ensures { OnOk result (Puts out.old (flat_map (after_comma decl_text) decls.now) out.new) }
{
    for decl in decls {
        put_symbol(out, COMMA)?;
        put_decl(out, decl)?;
    }
    Ok(())
}

/// Adds the declarations with commas between.
pub(crate) fn put_decls(out: &mut Bytes, decls: &[Decl]) -> Result<(), AllocError>
    ensures { OnOk result (Puts out.old (listed decl_text decls.now) out.new) }
{
    match decls {
        [] => Ok(()),
        [first, rest @ ..] => {
            put_decl(out, first)?;
            put_other_decls(out, rest)
        }
    }
}

/// Adds the literals with a comma before each.
fn put_other_lits(out: &mut Bytes, lits: &[Lit]) -> Result<(), AllocError>
    ensures { OnOk result (Puts out.old (flat_map (after_comma lit_text) lits.now) out.new) }
{
    for lit in lits {
        put_symbol(out, COMMA)?;
        put_lit(out, *lit)?;
    }
    Ok(())
}

/// Adds the literals with commas between.
pub(crate) fn put_lits(out: &mut Bytes, lits: &[Lit]) -> Result<(), AllocError>
    ensures { OnOk result (Puts out.old (listed lit_text lits.now) out.new) }
{
    match lits {
        [] => Ok(()),
        [first, rest @ ..] => {
            put_lit(out, *first)?;
            put_other_lits(out, rest)
        }
    }
}
