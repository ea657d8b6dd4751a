//! Tables and functions, and all of them in order.

ghost use Rattle.std.specs.Prelude.{◌≡◌, ◌<◌, ◌^◌, length, None, MatchOption};
ghost use Rattle.fault_order.specs.Private.FirstMet.{first, MeetsOr};
ghost use Rattle.silage_syntax.specs.Tree.{view, view_top, view_func};
ghost use Rattle.silage_syntax.specs.Names.{main_of};
ghost use Rattle.name_rules.specs.NameRules.{table_rules, function_rules, top_rules, all_top_rules};
ghost use Rattle.name_rules.specs.NameFaults.{IsMain};
ghost use Rattle.name_rules.specs.FirstTops as first_top;

use crate::context::{Context, Indices};
use crate::declarations::signals_of;
use crate::items::check_items;
use crate::sizes::{element_count, is_fix_type};
use name_rules::{NameFault, Tops};
use silage_syntax::{ConstDef, Func, Program, Top};
use std::alloc::Global;

fn check_table(table: &ConstDef) -> Result<(), NameFault>
    ensures { result ≡ first (table_rules table.now) }
{
    let count = element_count(&table.dims).ok_or(NameFault::Size(table.at))?;
    if !is_fix_type(&table.ty) {
        return Err(NameFault::Size(table.at));
    }
    if table.words.len() != count as usize {
        return Err(NameFault::Arity(table.at));
    }
    Ok(())
}

fn check_function(alloc: Global, tops: &Tops, func: &Func) -> Result<(), NameFault>
    ensures { let p = view tops.now.program.now in
        MeetsOr NameFault.Memory (first (function_rules p (view_func func.now))) result }
{
    let signals = signals_of(alloc, tops.names, func)?;
    let context = Context {
        tops: *tops,
        func,
        signals: &signals,
        indices: &Indices::Outermost,
    };
    check_items(&context, &func.items)
}

fn check_top(alloc: Global, tops: &Tops, top: &Top) -> Result<(), NameFault>
    ensures { MeetsOr NameFault.Memory (first (top_rules (view tops.now.program.now) (view_top top.now))) result }
{
    match top {
        Top::Const(table) => check_table(table),
        Top::Func(func) => check_function(alloc, tops, func),
    }
}

/// The inside of each table and function.
pub(crate) fn check_tops(alloc: Global, tops: &Tops) -> Result<(), NameFault>
    ensures { MeetsOr NameFault.Memory (first (all_top_rules (view tops.now.program.now))) result }
{
    for top in tops.program.tops.as_slice() {
        check_top(alloc, tops, top)?;
    }
    Ok(())
}

/// Whether a table or function is the function `main`.
fn is_main(top: &Top) -> bool
    ensures { result ≡ first_top.is_main (view_top top.now) }
{
    match top {
        Top::Const(_) => false,
        Top::Func(func) => func.name.as_slice() == b"main".as_slice(),
    }
}

/// The position of the function `main`.
pub(crate) fn main_position(program: &Program) -> Option<u32>
    requires { length (view program.now).tops < 2 ^ 32 }
    ensures { MatchOption result (main_of (view program.now) ≡ None) (IsMain (view program.now)) }
{
    for at in 0..program.tops.len() as u32 {
        if is_main(&program.tops[at as usize]) {
            return Some(at);
        }
    }
    None
}
