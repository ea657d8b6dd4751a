//! What items say of elements, in the turns of the loops around them.

ghost use Rattle.std.specs.Prelude.{◌≡◌, ◌≤◌, ℕ, length, map, OnOk};
ghost use Rattle.silage_syntax.specs.Manifests.{HasValue};
ghost use Rattle.silage_syntax.specs.Tree.{view_manifest, view_place};
ghost use Rattle.type_rules.specs.TypedTree as typed;
ghost use Rattle.loop_expand.specs.Private.Elements.{Puts};
ghost use Rattle.loop_expand.specs.Private.Facts as is;
ghost use Rattle.loop_expand.specs.Private.Groups.{view_ref, view_group, view_groups};
ghost use Rattle.loop_expand.specs.Private.Known.{IsKnownTarget, IsKnownExpr};
ghost use Rattle.loop_expand.specs.Private.Scopes.{total};
ghost use Rattle.loop_expand.specs.Private.Sites.{IsItemOf, AreItemsOf, IsGroupOf, AreGroupsOf};
ghost use Rattle.loop_expand.specs.Private.Views.{view_scope};

use crate::amounts::samples;
use crate::calls::call;
use crate::elements::{define, preset};
use crate::expressions::{flat, target};
use crate::groups::Group;
use crate::scope::Scope;
use crate::turns::env_at;
use lists::List;
use name_rules::Env;
use signal_graph::FlatElem;
use silage_syntax::{Manifest, Place};
use std::alloc::AllocError;
use type_rules::{TypedExpr, TypedItem};

fn expand_equation(
    scope: &Scope,
    env: &Env,
    elems: &mut [FlatElem],
    place: &Place,
    value: &TypedExpr,
) -> Result<(), AllocError>
    requires elements { length elems.old ≡ total (view_scope scope.now) }
    requires target { IsKnownTarget (view_scope scope.now) env.now (view_place place.now) }
    requires value { IsKnownExpr (view_scope scope.now) env.now (typed.view_expr value.now) }
    ensures { OnOk result (Puts (is.item_facts (view_scope scope.now) env.now
        (typed.equation (view_place place.now) (typed.view_expr value.now))) elems.old elems.new) }
{
    let elem = target(scope, env, place);
    define(elems, elem, flat(scope, env, value)?);
    Ok(())
}

fn expand_initial(
    scope: &Scope,
    env: &Env,
    elems: &mut [FlatElem],
    place: &Place,
    k: &Manifest,
    word: i64,
) -> Result<(), AllocError>
    requires elements { length elems.old ≡ total (view_scope scope.now) }
    requires target { IsKnownTarget (view_scope scope.now) env.now (view_place place.now) }
    requires sample { (j : ℕ) × HasValue env.now (view_manifest k.now) j × (j ≤ 1023) }
    ensures { OnOk result (Puts (is.item_facts (view_scope scope.now) env.now
        (typed.initial (view_place place.now) (view_manifest k.now) word)) elems.old elems.new) }
{
    let elem = target(scope, env, place);
    preset(scope.alloc, elems, elem, samples(env, k), word)
}

fn expand_item(
    scope: &Scope,
    env: &Env,
    last: &mut usize,
    elems: &mut [FlatElem],
    item: &TypedItem,
) -> Result<(), AllocError>
    requires elements { length elems.old ≡ total (view_scope scope.now) }
    requires of { IsItemOf (view_scope scope.now) env.now (typed.view_item item.now) }
    ensures { OnOk result (Puts (is.item_facts (view_scope scope.now) env.now (typed.view_item item.now))
        elems.old elems.new) }
{
    match item {
        TypedItem::Equation { place, value } => expand_equation(scope, env, elems, place, value),
        TypedItem::Call {
            places,
            func: _,
            args,
            at,
        } => call(scope, env, last, elems, *at, places, args),
        TypedItem::Loop {
            index: _,
            lo: _,
            hi: _,
            items: _,
        } => unreachable!(),
        TypedItem::Initial { place, k, raw } => {
            expand_initial(scope, env, elems, place, k, *raw)
        }
    }
}

/// Items in one turn of the loops around them.
fn expand_items(
    scope: &Scope,
    env: &Env,
    last: &mut usize,
    elems: &mut [FlatElem],
    items: &[&TypedItem],
) -> Result<(), AllocError>
    requires elements { length elems.old ≡ total (view_scope scope.now) }
    requires of { AreItemsOf (view_scope scope.now) env.now (map view_ref items.now) }
    ensures { OnOk result (Puts (is.turn_facts (view_scope scope.now) (map view_ref items.now) env.now)
        elems.old elems.new) }
{
    for item in items {
        expand_item(scope, env, last, elems, *item)?;
    }
    Ok(())
}

fn expand_group(scope: &Scope, elems: &mut [FlatElem], group: &Group) -> Result<(), AllocError>
    requires elements { length elems.old ≡ total (view_scope scope.now) }
    requires of { IsGroupOf (view_scope scope.now) (view_group group.now) }
    ensures { OnOk result (Puts (is.group_facts (view_scope scope.now) (view_group group.now))
        elems.old elems.new) }
{
    let mut last = scope.number as usize;
    let mut env = List::new(scope.alloc);
    for k in 0..group.turns.count {
        env = env_at(env, &group.turns, k)?;
        expand_items(scope, &env, &mut last, elems, &group.items)?;
    }
    Ok(())
}

pub(crate) fn expand_groups(
    scope: &Scope,
    elems: &mut [FlatElem],
    groups: &[Group],
) -> Result<(), AllocError>
    requires elements { length elems.old ≡ total (view_scope scope.now) }
    requires of { AreGroupsOf (view_scope scope.now) (view_groups groups.now) }
    ensures { OnOk result (Puts (is.groups_facts (view_scope scope.now) (view_groups groups.now))
        elems.old elems.new) }
{
    for group in groups {
        expand_group(scope, elems, group)?;
    }
    Ok(())
}
