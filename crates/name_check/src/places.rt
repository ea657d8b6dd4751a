//! Places, on the left of an item and in a read.

ghost use Rattle.std.specs.Prelude.{◌≡◌, map, option_copied, option_map};
ghost use Rattle.fault_order.specs.Private.FirstMet.{first};
ghost use Rattle.silage_syntax.specs.Tree.{view_manifest, view_place};
ghost use Rattle.name_rules.specs.Meanings as meaning;
ghost use Rattle.name_rules.specs.NameRules.{place_rules, target_rules};
ghost use Rattle.name_check.specs.Private.Views.{context_of};

use crate::context::Context;
use crate::indices::check_subscripts;
use crate::lookups::signal_dims;
use name_rules::NameFault;
use silage_syntax::{Decl, Manifest, Place};

/// Whether the subscripts pick one element of an array with these dims.
pub(crate) fn is_element(subs: &[Manifest], dims: &[u32]) -> bool
    ensures { result ≡ meaning.is_element (map view_manifest subs.now) dims.now }
{
    subs.len() == dims.len()
}

/// Whether a name with these subscripts and dims is that of a whole array with the wanted dims.
pub(crate) fn is_whole_array(wanted: &[u32], subs: &[Manifest], dims: &[u32]) -> bool
    ensures { result ≡ meaning.is_whole_array wanted.now (map view_manifest subs.now) dims.now }
{
    subs.is_empty() && dims == wanted
}

/// Whether a place with these subscripts, of a name with these dims, takes the result of a call.
fn takes(taken: Option<&Decl>, subs: &[Manifest], dims: &[u32]) -> bool
    ensures { result ≡ meaning.takes (option_copied taken.entry) (map view_manifest subs.now) dims.now }
{
    match taken {
        None => subs.is_empty() || is_element(subs, dims),
        Some(d) if d.dims.is_empty() => is_element(subs, dims),
        Some(d) => is_whole_array(&d.dims, subs, dims),
    }
}

/// The name of a place is known and its dims fit the use. `fits` is `None` where the name is unknown.
pub(crate) fn check_place(
    context: &Context,
    place: &Place,
    fits: Option<bool>,
) -> Result<(), NameFault>
    ensures { result ≡ first (place_rules (context_of context.now) fits (view_place place.now)) }
{
    match fits {
        None => Err(NameFault::Unknown(place.at)),
        Some(false) => Err(NameFault::Arity(place.at)),
        Some(true) => check_subscripts(context, &place.subs),
    }
}

/// A place that an equation or an initial value defines is one element of a signal.
pub(crate) fn check_target(context: &Context, place: &Place) -> Result<(), NameFault>
    ensures { let is_element = meaning.is_element (map view_manifest place.now.subs) in
        result ≡ first (target_rules (context_of context.now) is_element (view_place place.now)) }
{
    let fits = signal_dims(context, &place.name).map(|dims| is_element(&place.subs, dims));
    check_place(context, place, fits)
}

/// Whether a place takes the result of a call, if its name is known.
fn taking(context: &Context, place: &Place, taken: Option<&Decl>) -> Option<bool>
    ensures { let takes = meaning.takes (option_copied taken.entry) (map view_manifest place.now.subs) in
        result ≡ option_map takes (meaning.signal_dims (context_of context.now) place.now.name) }
{
    let dims = signal_dims(context, &place.name)?;
    Some(takes(taken, &place.subs, dims))
}

/// A place that takes a result of a call.
pub(crate) fn check_taking(
    context: &Context,
    place: &Place,
    taken: Option<&Decl>,
) -> Result<(), NameFault>
    ensures { let takes = meaning.takes (option_copied taken.entry) (map view_manifest place.now.subs) in
        result ≡ first (target_rules (context_of context.now) takes (view_place place.now)) }
{
    check_place(context, place, taking(context, place, taken))
}
