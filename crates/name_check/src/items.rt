//! Items: equations, calls, loops and initial values.

ghost use Rattle.std.specs.Prelude.{◌≡◌, ◌∷◌, Option, map};
ghost use Rattle.fault_order.specs.Rules.{parts};
ghost use Rattle.fault_order.specs.Private.FirstMet.{first};
ghost use Rattle.silage_syntax.specs.Tree.{view_manifest, view_item, view_items};
ghost use Rattle.name_rules.specs.NameRules as rules;
ghost use Rattle.name_rules.specs.NameRules.{head_rules, item_rules, items_rules};
ghost use Rattle.name_check.specs.Private.Views.{context_of};

use crate::calls::check_call;
use crate::context::{Context, Indices};
use crate::expressions::check_expr;
use crate::indices::{check_manifest, has_index};
use crate::lookups::{is_signal, is_top};
use crate::places::check_target;
use lists::Name;
use name_rules::NameFault;
use silage_syntax::{Item, Manifest};

/// Whether an index has a name that nothing else has where the loop is.
fn is_free_index(context: &Context, index: &Name) -> bool
    ensures { result ≡ rules.is_free_index (context_of context.now) index.now }
{
    let is_taken = is_top(context.tops.names, index)
        || is_signal(context, index)
        || has_index(context.indices, index);
    !is_taken
}

/// The index of a loop and its bounds.
fn check_head(
    context: &Context,
    index: &Name,
    lo: &Manifest,
    hi: &Manifest,
    at: u32,
) -> Result<(), NameFault>
    ensures { let c = context_of context.now in
        result ≡ first (head_rules c index.now (view_manifest lo.now) (view_manifest hi.now) at) }
{
    if !is_free_index(context, index) {
        return Err(NameFault::Twice(at));
    }
    check_manifest(context, lo)?;
    check_manifest(context, hi)
}

#[cycle(items)]
fn check_item(context: &Context, item: &Item) -> Result<(), NameFault>
    ensures { result ≡ first (item_rules (context_of context.now) (view_item item.now)) }
{
    match item {
        Item::Equation { place, value } => {
            check_target(context, place)?;
            check_expr(context, value)
        }
        Item::Call {
            places,
            func,
            args,
            at,
        } => check_call(context, places, func, args, *at),
        Item::Loop {
            index,
            lo,
            hi,
            items,
            at,
        } => {
            check_head(context, index, lo, hi, *at)?;
            let indices = Indices::Inside {
                index: &*index,
                outer: context.indices,
            };
            let inner = Context {
                tops: context.tops,
                func: context.func,
                signals: context.signals,
                indices: &indices,
            };
            check_items(&inner, items)
        }
        Item::Initial { place, k, value: _ } => {
            check_target(context, place)?;
            check_manifest(context, k)
        }
    }
}

#[cycle(items)]
pub(crate) fn check_items(context: &Context, items: &[Item]) -> Result<(), NameFault>
    ensures { result ≡ first (parts (items_rules (context_of context.now) (view_items items.now))) }
{
    for item in items {
        check_item(context, item)?;
    }
    Ok(())
}
