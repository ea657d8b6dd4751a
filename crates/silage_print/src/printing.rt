//! The canonical text of a program.

ghost use Rattle.std.specs.Prelude.{◌≡◌, ◌||◌, nat_lt, OnOk, IfOk};
ghost use Rattle.std.specs.List.{flat_map};
ghost use Rattle.silage_syntax.specs.Tree.{view_items, view_func, view_top, view};
ghost use Rattle.silage_print.specs.Parentheses.{EachPairIsNeeded};
ghost use Rattle.silage_print.specs.ReadAgain.{ProgramTree, HasSource, HasSourceWithin, IsReadAgain, IsReadWithin};
ghost use Rattle.silage_print.specs.Text.{enclosed, listed, decl_text, words_text, table_text, local_text, head_text, body_text, func_text, top_text, canonical};
ghost use Rattle.silage_print.specs.Private.Puts.{Puts};

use crate::print_items::put_items;
use crate::print_tokens::{is_several, put_close, put_name, put_open, put_symbol, put_word};
use crate::print_types::{put_decl, put_decls, put_dims, put_fix, put_lits};
use lists::{Bytes, List};
use silage_lex::keywords::{BEGIN, CONST, END, FUNC, VAR};
use silage_lex::punctuation::{COLON, EQUAL, SEMICOLON};
use silage_syntax::{ConstDef, Decl, Func, Item, Lit, Program, Top};
use std::alloc::{AllocError, Global};
use thiserror::Error;

/// Why a program was not printed.
#[derive(Debug, Clone, Copy, PartialEq, Eq, Drop, Error)]
pub enum TreeFault {
    /// No memory was left.
    #[error("no memory")]
    Memory,
}

impl From<AllocError> for TreeFault {
    ghost use Rattle.silage_print.specs.declared.printing.TreeFault.TheVariants.{Memory};

    ghost from_gives = { λ _ fault. fault ≡ Memory };

    fn from(_: AllocError) -> TreeFault {
        TreeFault::Memory
    }
}

/// Whether the words of a table are in parentheses.
fn are_words_enclosed(dims: usize, words: usize) -> bool
    ensures { result ≡ (nat_lt 0 dims || nat_lt 1 words) }
{
    dims > 0 || words > 1
}

/// Adds the numbers of a table.
fn put_words(out: &mut Bytes, dims: &List<u32>, words: &List<Lit>) -> Result<(), AllocError>
    ensures { OnOk result (Puts out.old (words_text dims.now words.now) out.new) }
{
    let are_enclosed = are_words_enclosed(dims.len(), words.len());
    put_open(out, are_enclosed)?;
    put_lits(out, words)?;
    put_close(out, are_enclosed)
}

fn put_table(out: &mut Bytes, table: &ConstDef) -> Result<(), AllocError>
    ensures { OnOk result (Puts out.old (table_text table.now) out.new) }
{
    put_word(out, CONST)?;
    put_name(out, &table.name)?;
    put_dims(out, &table.dims)?;
    put_symbol(out, COLON)?;
    put_fix(out, &table.ty)?;
    put_symbol(out, EQUAL)?;
    put_words(out, &table.dims, &table.words)?;
    put_symbol(out, SEMICOLON)
}

/// Adds the declarations, in parentheses if they are said to be enclosed.
fn put_decls_in(out: &mut Bytes, decls: &List<Decl>, are_enclosed: bool) -> Result<(), AllocError>
    ensures { OnOk result (Puts out.old (enclosed are_enclosed (listed decl_text decls.now)) out.new) }
{
    put_open(out, are_enclosed)?;
    put_decls(out, decls)?;
    put_close(out, are_enclosed)
}

fn put_head(out: &mut Bytes, func: &Func) -> Result<(), AllocError>
    ensures { OnOk result (Puts out.old (head_text (view_func func.now)) out.new) }
{
    put_word(out, FUNC)?;
    put_name(out, &func.name)?;
    put_decls_in(out, &func.params, true)?;
    put_decls_in(out, &func.results, is_several(func.results.len()))
}

/// Adds a `var` for each local.
fn put_locals(out: &mut Bytes, locals: &[Decl]) -> Result<(), AllocError>
    ensures { OnOk result (Puts out.old (flat_map local_text locals.now) out.new) }
{
    for local in locals {
        put_word(out, VAR)?;
        put_decl(out, local)?;
        put_symbol(out, SEMICOLON)?;
    }
    Ok(())
}

fn put_body(out: &mut Bytes, locals: &[Decl], items: &[Item]) -> Result<(), AllocError>
    ensures { OnOk result (Puts out.old (body_text locals.now (view_items items.now)) out.new) }
{
    put_word(out, BEGIN)?;
    put_locals(out, locals)?;
    put_items(out, items)?;
    put_word(out, END)?;
    put_symbol(out, SEMICOLON)
}

fn put_func(out: &mut Bytes, func: &Func) -> Result<(), AllocError>
    ensures { OnOk result (Puts out.old (func_text (view_func func.now)) out.new) }
{
    put_head(out, func)?;
    put_symbol(out, EQUAL)?;
    put_body(out, &func.locals, &func.items)
}

fn put_top(out: &mut Bytes, top: &Top) -> Result<(), AllocError>
    ensures { OnOk result (Puts out.old (top_text (view_top top.now)) out.new) }
{
    match top {
        Top::Const(table) => put_table(out, table),
        Top::Func(func) => put_func(out, func),
    }
}

fn put_tops(out: &mut Bytes, tops: &[Top]) -> Result<(), AllocError>
    ensures { OnOk result (Puts out.old (flat_map (λ top. top_text (view_top top)) tops.now) out.new) }
{
    for top in tops {
        put_top(out, top)?;
    }
    Ok(())
}

/// The canonical text of a program. An error says that no memory was left.
pub fn print(alloc: Global, program: &Program) -> Result<Bytes, TreeFault>
    ensures { IfOk result (λ bytes. bytes ≡ canonical (view program.now)) }
{
    let mut out = Bytes::new(alloc);
    put_tops(&mut out, &program.tops)?;
    Ok(out)
}

/// The canonical text of a program that some source has is read as that program, up to positions, and no token of the
/// text passes a nesting limit where none of the source does.
pub fn print_is_read()
    ensures again { (program : ProgramTree) → HasSource program → IsReadAgain program }
    ensures within { (program : ProgramTree) → HasSourceWithin program → IsReadWithin program }
{}

/// Without any one of its pairs of parentheses the canonical text gives another tree, or none; only the pair around the
/// one word of a table can be left out.
pub fn parentheses_are_needed()
    ensures { EachPairIsNeeded }
{}
