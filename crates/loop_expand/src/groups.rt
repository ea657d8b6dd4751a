//! The items of functions in the turns of the loops around them.
//!
//! The turns of a loop follow from the indices around it, and are worked out for all turns of the loops around at once.
//! A loop without turns adds nothing to the load, so very many of them may be inside thousands of turns.

ghost use Rattle.std.specs.Prelude.{◌≡◌, ◌<◌, ◌++◌, ◌∷◌, [], ℕ, map, IfOk, OnOk};
ghost use Rattle.type_rules.specs.TypedTree as typed;
ghost use Rattle.loop_expand.specs.Private.Turns.{indices_at, view_turns};
ghost use Rattle.loop_expand.specs.Private.Groups as is;
ghost use Rattle.loop_expand.specs.Private.Groups.{view_ref, view_group, view_groups, groups_in, loop_groups};

use crate::columns::Turns;
use crate::turns::within;
use std::alloc::{AllocError, AllocFailed, Global};
use type_rules::TypedItem;

/// Turns of the loops around items, and those of the items that are no loops.
#[derive(Drop)]
pub(crate) struct Group<'a> {
    pub turns: Turns<'a>,
    pub items: Vec<&'a TypedItem>,
}

fn is_loop(item: &TypedItem) -> bool
    ensures { result ≡ is.is_loop (typed.view_item item.now) }
{
    match item {
        TypedItem::Equation { place: _, value: _ } => false,
        TypedItem::Call {
            places: _,
            func: _,
            args: _,
            at: _,
        } => false,
        TypedItem::Loop {
            index: _,
            lo: _,
            hi: _,
            items: _,
        } => true,
        TypedItem::Initial {
            place: _,
            k: _,
            raw: _,
        } => false,
    }
}

/// Appends an item that is no loop.
fn put_plain<'a>(items: &mut Vec<&'a TypedItem>, item: &'a TypedItem) -> Result<(), AllocError>
    ensures { OnOk result (map view_ref items.new.items
        ≡ map view_ref items.old.items ++ is.plain (typed.view_item item.now)) }
{
    if !is_loop(item) {
        items.push(item)?;
    }
    Ok(())
}

/// Those of the items that are no loops.
fn plain_items<'a>(alloc: Global, items: &'a [TypedItem]) -> Result<Vec<&'a TypedItem>, AllocError>
    ensures { IfOk result (λ plain. map view_ref plain.items ≡ is.plain_items (typed.view_items items.now)) }
{
    let mut plain = Vec::with_capacity(alloc, items.len())?;
    for item in items {
        put_plain(&mut plain, item)?;
    }
    Ok(plain)
}

fn put_group<'a>(
    alloc: Global,
    turns: Turns<'a>,
    items: &'a [TypedItem],
    groups: &mut Vec<Group<'a>>,
) -> Result<(), AllocError>
    ensures { OnOk result (view_groups groups.new.items ≡ view_groups groups.old.items
        ++ record { turns = view_turns turns.entry; items = is.plain_items (typed.view_items items.now) } ∷ []) }
{
    let items = plain_items(alloc, items)?;
    groups.push(Group { turns, items })?;
    Ok(())
}

/// Appends the groups of a loop.
#[cycle(groups)]
fn put_loop<'a>(
    alloc: Global,
    turns: &Turns<'a>,
    item: &'a TypedItem,
    groups: &mut Vec<Group<'a>>,
) -> Result<(), AllocError>
    requires some { 0 < turns.now.count }
    requires bounds { (k : ℕ) → k < turns.now.count → is.HasBounds (indices_at turns.now k) (typed.view_item item.now) }
    ensures { OnOk result (view_groups groups.new.items ≡ view_groups groups.old.items
        ++ loop_groups (view_turns turns.now) (typed.view_item item.now)) }
{
    match item {
        TypedItem::Equation { place: _, value: _ } => Ok(()),
        TypedItem::Call {
            places: _,
            func: _,
            args: _,
            at: _,
        } => Ok(()),
        TypedItem::Loop {
            index,
            lo,
            hi,
            items,
        } => {
            let inner = within(alloc, turns, index, lo, hi)?;
            put_groups(alloc, inner, items, groups)
        }
        TypedItem::Initial {
            place: _,
            k: _,
            raw: _,
        } => Ok(()),
    }
}

/// Appends the groups of items in these turns: those of the loops among them, and the own one.
#[cycle(groups)]
fn put_groups<'a>(
    alloc: Global,
    turns: Turns<'a>,
    items: &'a [TypedItem],
    groups: &mut Vec<Group<'a>>,
) -> Result<(), AllocError>
    requires { is.HaveBoundsIn turns (typed.view_items items.now) }
    ensures { OnOk result (view_groups groups.new.items ≡ view_groups groups.old.items
        ++ groups_in (view_turns turns.entry) (typed.view_items items.now)) }
{
    if turns.count == 0 {
        return Ok(());
    }
    for item in items {
        put_loop(alloc, &turns, item, groups)?;
    }
    put_group(alloc, turns, items, groups)
}

fn one_turn<'a>(alloc: Global) -> Turns<'a>
    ensures { view_turns result ≡ [] ∷ [] }
{
    Turns {
        columns: Vec::new(alloc),
        count: 1,
    }
}

/// The groups of the items of a function.
pub(crate) fn groups_of<'a>(
    alloc: Global,
    items: &'a [TypedItem],
) -> Result<Vec<Group<'a>>, AllocError>
    requires { is.HaveBounds [] (typed.view_items items.now) }
    ensures { IfOk result (λ groups. view_groups groups.items ≡ is.groups_of (typed.view_items items.now)) }
{
    let mut groups = Vec::new(alloc);
    put_groups(alloc, one_turn(alloc), items, &mut groups)?;
    Ok(groups)
}
