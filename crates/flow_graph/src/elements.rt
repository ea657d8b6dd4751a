//! The numbers of the nodes of elements.

ghost use Rattle.std.specs.Prelude.{◌≡◌, ◌<◌, ◌^◌, ℕ, ℤ, List as Listed, Some, length, map, slice_get, slice_index, IfOk};
ghost use Rattle.signal_graph.specs.Flat.{view};
ghost use Rattle.signal_graph.specs.FlatRules.{IsFlat};
ghost use Rattle.signal_graph.specs.FlatSolves.{IsFlatLoopless};
ghost use Rattle.signal_graph.specs.GraphOf.{sites, Site as Place};
ghost use Rattle.flow_graph.specs.Private.Aliases.{IsInside};
ghost use Rattle.flow_graph.specs.Private.Delayed.{TellsDelayed};
ghost use Rattle.flow_graph.specs.Private.ElementNodes.{AreElementNumbers};
ghost use Rattle.flow_graph.specs.Private.LastPlaces.{AreLast};
ghost use Rattle.flow_graph.specs.Private.Nodes.{AreNumbers};
ghost use Rattle.flow_graph.specs.Private.Sites.{view_site};

use crate::aliases::ends_of_aliases;
use crate::sites::Site;
use signal_graph::FlatProgram;
use std::alloc::{AllocError, AllocFailed, Global};

/// For each element the number of its last place.
fn last_numbers(
    alloc: Global,
    sites: &[Site],
    numbers: &[u32],
    elements: usize,
) -> Result<Vec<u32>, AllocError>
    requires size { length numbers.now ≡ length sites.now }
    requires within { (i : ℕ) → (s : Place) → slice_get (map view_site sites.now) i ≡ Some s
        → s.element < elements }
    ensures { IfOk result (λ last. AreLast (map view_site sites.now) numbers.now elements last.items) }
{
    let mut last = vec![in alloc; 0; elements]?;
    for place in 0..sites.len() {
        last[sites[place].elem as usize] = numbers[place];
    }
    Ok(last)
}

/// For each element the number of the last place of the one whose node it has.
fn numbers_at(alloc: Global, last: &[u32], ends: &[u32]) -> Result<Vec<u32>, AllocError>
    requires { (e : ℕ) → e < length ends.now → slice_index ends.now e < length last.now }
    ensures { IfOk result (λ numbers. numbers.items ≡ map (λ end. slice_index last.now end) ends.now) }
{
    let mut numbers = Vec::with_capacity(alloc, ends.len())?;
    for end in ends {
        numbers.push(last[*end as usize])?;
    }
    Ok(numbers)
}

/// For each element the number of its node. The table says which are read with a delay.
pub(crate) fn element_numbers(
    alloc: Global,
    flat: &FlatProgram,
    delayed: &[bool],
    places: &[Site],
    numbers: &[u32],
) -> Result<Vec<u32>, AllocError>
    requires sound { IsFlat (view flat.now) }
    requires loopless { IsFlatLoopless (view flat.now) }
    requires delayed { TellsDelayed (view flat.now) delayed.now }
    requires places { map view_site places.now ≡ sites (view flat.now) }
    requires numbers { (words : Listed (ℤ × ℕ)) × AreNumbers (sites (view flat.now)) numbers.now words }
    ensures { IfOk result (λ elements. AreElementNumbers (view flat.now) elements.items) }
{
    let ends = ends_of_aliases(alloc, flat, delayed)?;
    let last = last_numbers(alloc, places, numbers, ends.len())?;
    numbers_at(alloc, &last, &ends)
}
