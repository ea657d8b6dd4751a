//! Indices of loops, and the manifest constants in which they are used.

ghost use Rattle.std.specs.Prelude.{◌≡◌, map};
ghost use Rattle.fault_order.specs.Rules.{parts, each};
ghost use Rattle.fault_order.specs.Private.FirstMet.{first};
ghost use Rattle.silage_syntax.specs.Tree.{view_manifest, view_delay};
ghost use Rattle.name_rules.specs.Meanings.{is_among};
ghost use Rattle.name_rules.specs.NameRules.{manifest_rules, delay_rules};
ghost use Rattle.name_check.specs.Private.Views.{index_names, context_of};

use crate::context::{Context, Indices};
use lists::Name;
use name_rules::NameFault;
use silage_syntax::Manifest;

/// Whether a loop around the place has the index.
pub(crate) fn has_index(indices: &Indices, name: &Name) -> bool
    ensures { result ≡ is_among (index_names indices.now) name.now }
{
    match indices {
        Indices::Outermost => false,
        Indices::Inside { index, outer } => name == *index || has_index(outer, name),
    }
}

/// Each index in a manifest constant is that of a loop around it.
pub(crate) fn check_manifest(context: &Context, m: &Manifest) -> Result<(), NameFault>
    ensures { result ≡ first (manifest_rules (context_of context.now) (view_manifest m.now)) }
{
    match m {
        Manifest::Whole(_, _) => Ok(()),
        Manifest::Index(name, at) => {
            if !has_index(context.indices, name) {
                return Err(NameFault::Unknown(*at));
            }
            Ok(())
        }
        Manifest::Negate(_, part) => check_manifest(context, part),
        Manifest::Binary(_, _, left, right) => {
            check_manifest(context, left)?;
            check_manifest(context, right)
        }
    }
}

pub(crate) fn check_delay(context: &Context, delay: &Option<Manifest>) -> Result<(), NameFault>
    ensures { result ≡ first (delay_rules (context_of context.now) (view_delay delay.now)) }
{
    match delay {
        None => Ok(()),
        Some(m) => check_manifest(context, m),
    }
}

pub(crate) fn check_subscripts(context: &Context, subs: &[Manifest]) -> Result<(), NameFault>
    ensures { result ≡ first (parts (each (manifest_rules (context_of context.now)) (map view_manifest subs.now))) }
{
    for sub in subs {
        check_manifest(context, sub)?;
    }
    Ok(())
}
