//! Items as text.

ghost use Rattle.std.specs.Prelude.{◌≡◌, ◌++◌, ◌∷◌, [], length, map, OnOk};
ghost use Rattle.silage_syntax.specs.Tree.{view_manifest, view_place, view_expr, view_item, view_items};
ghost use Rattle.silage_print.specs.Text.{grouped, call_text, turns_text, place_text, listed, clause_text, items_text};
ghost use Rattle.silage_print.specs.Private.Puts.{Puts};

use crate::print_exprs::{put_amount, put_expr, put_exprs, put_manifest, put_place, put_places};
use crate::print_tokens::{is_several, put_close, put_name, put_open, put_symbol, put_word};
use crate::print_types::put_lit;
use lists::{Bytes, Name};
use silage_lex::keywords::{BEGIN, END};
use silage_lex::punctuation::{
    AT_AT, COLON, COLON_COLON, DOT_DOT, EQUAL, LEFT_PAREN, RIGHT_PAREN, SEMICOLON,
};
use silage_syntax::{Expr, Item, Manifest, Place};
use std::alloc::AllocError;

/// Adds the targets of a call.
fn put_targets(out: &mut Bytes, places: &[Place]) -> Result<(), AllocError>
    ensures { OnOk result (Puts out.old (grouped place_text (map view_place places.now)) out.new) }
{
    let are_several = is_several(places.len());
    put_open(out, are_several)?;
    put_places(out, places)?;
    put_close(out, are_several)
}

/// Adds a function's name and its arguments.
fn put_call(out: &mut Bytes, func: &Name, args: &[Expr]) -> Result<(), AllocError>
    ensures { OnOk result (Puts out.old (call_text func.now (map view_expr args.now)) out.new) }
{
    put_name(out, func)?;
    put_symbol(out, LEFT_PAREN)?;
    put_exprs(out, args)?;
    put_symbol(out, RIGHT_PAREN)
}

/// Adds the index of a loop and its bounds.
fn put_turns(out: &mut Bytes, index: &Name, lo: &Manifest, hi: &Manifest) -> Result<(), AllocError>
    ensures { OnOk result (Puts out.old (turns_text index.now (view_manifest lo.now) (view_manifest hi.now)) out.new) }
{
    put_symbol(out, LEFT_PAREN)?;
    put_name(out, index)?;
    put_symbol(out, COLON)?;
    put_manifest(out, lo)?;
    put_symbol(out, DOT_DOT)?;
    put_manifest(out, hi)?;
    put_symbol(out, RIGHT_PAREN)
}

/// Adds an item without the `;` after it.
#[cycle(items)]
fn put_clause(out: &mut Bytes, item: &Item) -> Result<(), AllocError>
    ensures { OnOk result (Puts out.old (clause_text (view_item item.now)) out.new) }
{
    match item {
        Item::Equation { place, value } => {
            put_place(out, place)?;
            put_symbol(out, EQUAL)?;
            put_expr(out, value)
        }
        Item::Call {
            places,
            func,
            args,
            at: _,
        } => {
            put_targets(out, places)?;
            put_symbol(out, EQUAL)?;
            put_call(out, func, args)
        }
        Item::Loop {
            index,
            lo,
            hi,
            items,
            at: _,
        } => {
            put_turns(out, index, lo, hi)?;
            put_symbol(out, COLON_COLON)?;
            put_word(out, BEGIN)?;
            put_items(out, items)?;
            put_word(out, END)
        }
        Item::Initial { place, k, value } => {
            put_place(out, place)?;
            put_symbol(out, AT_AT)?;
            put_amount(out, k)?;
            put_symbol(out, EQUAL)?;
            put_lit(out, *value)
        }
    }
}

#[cycle(items)]
pub(crate) fn put_items(out: &mut Bytes, items: &[Item]) -> Result<(), AllocError>
    ensures { OnOk result (Puts out.old (items_text (view_items items.now)) out.new) }
{
    for item in items {
        put_clause(out, item)?;
        put_symbol(out, SEMICOLON)?;
    }
    Ok(())
}
