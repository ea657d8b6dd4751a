//! The first function that can reach itself by calls.

ghost use Rattle.std.specs.Prelude.{◌≡◌, ◌≢◌, ◌++◌, ◌<◌, ◌^◌, length, IfOk, OnOk, IfErr};
ghost use Rattle.silage_syntax.specs.Tree.{view, view_top, view_item, view_items};
ghost use Rattle.name_rules.specs.TopNames.{top_names};
ghost use Rattle.name_rules.specs.Calls.{called, all_called, called_by, Calls};
ghost use Rattle.digraph.specs.Arcs.{HasNoCycle};
ghost use Rattle.name_rules.specs.Private.CallLists.{places, call_lists};
ghost use Rattle.name_rules.specs.FirstTops.{IsRecursive};

use digraph::first_cyclic;
use lists::List;
use name_rules::{NameFault, NameMap, top_at};
use silage_syntax::{Item, Program, Top};
use std::alloc::{AllocError, AllocFailed, Global};

/// Adds the positions of what an item calls.
#[cycle(items)]
fn add_calls(calls: &mut List<u32>, tops: &NameMap, item: &Item) -> Result<(), AllocError>
    ensures { OnOk result (calls.new ≡ calls.old ++ places tops.now (called (view_item item.now))) }
{
    match item {
        Item::Equation { .. } | Item::Initial { .. } => Ok(()),
        Item::Call { func, .. } => {
            if let Some(callee) = tops.position(func) {
                calls.push(callee)?;
            }
            Ok(())
        }
        Item::Loop { items, .. } => add_all_calls(calls, tops, items),
    }
}

/// Adds the positions of what the items call.
#[cycle(items)]
fn add_all_calls(calls: &mut List<u32>, tops: &NameMap, items: &[Item]) -> Result<(), AllocError>
    ensures { OnOk result (calls.new ≡ calls.old ++ places tops.now (all_called (view_items items.now))) }
{
    for item in items {
        add_calls(calls, tops, item)?;
    }
    Ok(())
}

/// The positions of what a table or function calls.
fn calls_of_top(alloc: Global, tops: &NameMap, top: &Top) -> Result<List<u32>, AllocError>
    ensures { IfOk result (λ callees. callees ≡ places tops.now (called_by (view_top top.now))) }
{
    let mut callees = List::new(alloc);
    if let Top::Func(function) = top {
        add_all_calls(&mut callees, tops, &function.items)?;
    }
    Ok(callees)
}

/// For each table and function the positions of what it calls.
fn calls_of_all(
    alloc: Global,
    tops: &NameMap,
    program: &Program,
) -> Result<List<List<u32>>, AllocError>
    requires { tops.now ≡ top_names (view program.now) }
    ensures { IfOk result (λ calls. calls ≡ call_lists (view program.now)) }
{
    let mut calls = List::new(alloc);
    for top in program.tops.as_slice() {
        let callees = calls_of_top(alloc, tops, top)?;
        calls.push(callees)?;
    }
    Ok(calls)
}

/// Refuses a program in which a function reaches itself by calls: `Recursive` at the first such function.
pub(crate) fn check_recursion(
    alloc: Global,
    tops: &NameMap,
    program: &Program,
) -> Result<(), NameFault>
    requires few { length (view program.now).tops < 2 ^ 32 }
    requires names { tops.now ≡ top_names (view program.now) }
    ensures none { OnOk result (HasNoCycle (Calls (view program.now))) }
    ensures first { IfErr result (λ fault. fault ≢ NameFault.Memory → IsRecursive (view program.now) fault) }
{
    let calls = calls_of_all(alloc, tops, program)?;
    match first_cyclic(alloc, calls.as_slice())? {
        None => Ok(()),
        Some(function) => Err(NameFault::Recursive(top_at(&program.tops[function as usize]))),
    }
}
