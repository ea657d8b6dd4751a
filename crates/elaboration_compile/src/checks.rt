//! Checks of manifest constants.

ghost use Rattle.std.specs.Prelude.{◌≡◌, ◌≤◌, ◌++◌, [], ◌∷◌, map, length, OnOk};
ghost use Rattle.silage_syntax.specs.Tree.{view_manifest};
ghost use Rattle.element_rules.specs.ElementRules as rules;
ghost use Rattle.elaboration_code.specs.Actions.{view_action};
ghost use Rattle.elaboration_code.specs.ItemActions.{viewed};
ghost use Rattle.elaboration_code.specs.ItemActions as spec;
ghost use Rattle.elaboration_code.specs.KnownIndices.{IsKnown, AreKnown};

use elaboration_code::{Action, Check, Number};
use element_rules::PlacedFault;
use lists::Name;
use silage_syntax::Manifest;
use std::alloc::{AllocError, Global};

/// Where the faults of a manifest constant as a whole are.
pub(crate) fn manifest_at(m: &Manifest) -> u32
    ensures { result ≡ rules.manifest_at (view_manifest m.now) }
{
    match m {
        Manifest::Whole(_, at) => *at,
        Manifest::Index(_, at) => *at,
        Manifest::Negate(at, _) => *at,
        Manifest::Binary(at, _, _, _) => *at,
    }
}

pub(crate) fn put(actions: &mut Vec<Action>, action: Action) -> Result<(), AllocError>
    ensures { OnOk result (viewed actions.new ≡ viewed actions.old ++ view_action action ∷ []) }
{
    actions.push(action)?;
    Ok(())
}

/// Whether the check passes in every turn.
fn passes(check: &Check) -> bool
    ensures { result ≡ spec.passes check.now }
{
    match &check.number {
        Number::Known(Some(value)) => {
            let value = i64::from(*value);
            check.least <= value && value <= check.most
        }
        _ => false,
    }
}

fn put_check(actions: &mut Vec<Action>, check: Check) -> Result<(), AllocError>
    ensures { OnOk result (viewed actions.new ≡ viewed actions.old ++ spec.kept check) }
{
    if passes(&check) {
        return Ok(());
    }
    put(actions, Action::Check(check))
}

/// Appends a check of a manifest constant.
pub(crate) fn put_number(
    alloc: Global,
    loops: &[Name],
    m: &Manifest,
    least: i64,
    most: i64,
    outside: PlacedFault,
    actions: &mut Vec<Action>,
) -> Result<(), AllocError>
    requires { IsKnown loops.now (view_manifest m.now) }
    ensures { OnOk result (viewed actions.new ≡ viewed actions.old
        ++ spec.kept (spec.number_check loops.now least most outside (view_manifest m.now))) }
{
    let check = Check {
        number: Number::of(alloc, loops, m)?,
        at: manifest_at(m),
        least,
        most,
        outside,
    };
    put_check(actions, check)
}

pub(crate) fn put_subscripts(
    alloc: Global,
    loops: &[Name],
    dims: &[u32],
    subs: &[Manifest],
    actions: &mut Vec<Action>,
) -> Result<(), AllocError>
    requires few { length subs.now ≤ length dims.now }
    requires known { AreKnown loops.now (map view_manifest subs.now) }
    ensures { OnOk result (viewed actions.new ≡ viewed actions.old
        ++ spec.subscript_checks loops.now dims.now (map view_manifest subs.now)) }
{
    match dims {
        [] => Ok(()),
        [dim, dims @ ..] => match subs {
            [] => Ok(()),
            [sub, subs @ ..] => {
                let outside = PlacedFault::Bounds(manifest_at(sub));
                put_number(alloc, loops, sub, 0, i64::from(*dim) - 1, outside, actions)?;
                put_subscripts(alloc, loops, dims, subs, actions)
            }
        },
    }
}
