//! Aliases: the element whose value an element is another name for.

ghost use Rattle.std.specs.Prelude.{◌≡◌, ◌<◌, ◌≤◌, ◌^◌, ◌+◌, ℕ, length, slice_index, IfOk};
ghost use Rattle.signal_graph.specs.Flat.{view, view_body};
ghost use Rattle.signal_graph.specs.FlatRules.{IsFlat};
ghost use Rattle.signal_graph.specs.FlatSolves.{IsFlatLoopless};
ghost use Rattle.signal_graph.specs.Flat.{Program};
ghost use Rattle.flow_graph.specs.Private.Delayed.{TellsDelayed};
ghost use Rattle.flow_graph.specs.Private.Aliases.{alias, IsInside, Jumps, AreAliases, AreEnds};

use signal_graph::{FlatBody, FlatElem, FlatExpr, FlatProgram};
use std::alloc::{AllocError, AllocFailed, Global};

/// The element that an alias reads, and itself for any other.
fn alias_of(elem: u32, element: &FlatElem, is_delayed: bool) -> u32
    ensures { result ≡ alias is_delayed elem (view_body element.now.body) }
{
    match &element.body {
        FlatBody::Value(FlatExpr::Read { elem: read, delay }) => {
            if *delay > 0 || is_delayed {
                elem
            } else {
                *read
            }
        }
        _ => elem,
    }
}

/// Leads each element where the one to which it leads goes on to. So each leads twice as far.
fn double(leads: &mut [u32])
    requires { IsInside leads.old }
    ensures inside { IsInside leads.new }
    ensures doubled { (p : Program) → (height : ℕ → ℕ) → (far : ℕ) → Jumps p height far leads.old
        → Jumps p height (far + far) leads.new }
{
    for elem in 0..leads.len() {
        leads[elem] = leads[leads[elem] as usize];
    }
}

/// Leads each element to the end of its chain of aliases.
fn lead_to_ends(leads: &mut [u32])
    requires inside { IsInside leads.old }
    requires few { length leads.old < 2 ^ 32 }
    ensures inside { IsInside leads.new }
    ensures ends { (p : Program) → (height : ℕ → ℕ) → Jumps p height 1 leads.old
        → ((e : ℕ) → e < length leads.old → height e ≤ length leads.old) → AreEnds p leads.new }
{
    let mut far = 1;
    while far <= leads.len() {
        double(leads);
        far *= 2;
    }
}

/// For each element the one that it reads where it is an alias, and itself for any other.
fn aliases_of(alloc: Global, flat: &FlatProgram, delayed: &[bool]) -> Result<Vec<u32>, AllocError>
    requires few { length (view flat.now).elems < 2 ^ 32 }
    requires delayed { TellsDelayed (view flat.now) delayed.now }
    ensures { IfOk result (λ aliases. AreAliases (view flat.now) aliases.items) }
{
    let mut aliases = Vec::with_capacity(alloc, flat.elems.len())?;
    for elem in 0..flat.elems.len() {
        aliases.push(alias_of(elem as u32, &flat.elems[elem], delayed[elem]))?;
    }
    Ok(aliases)
}

/// For each element the one whose node it has, at the end of its chain of aliases. The table says which are read with a
/// delay.
pub(crate) fn ends_of_aliases(
    alloc: Global,
    flat: &FlatProgram,
    delayed: &[bool],
) -> Result<Vec<u32>, AllocError>
    requires sound { IsFlat (view flat.now) }
    requires loopless { IsFlatLoopless (view flat.now) }
    requires delayed { TellsDelayed (view flat.now) delayed.now }
    ensures size { IfOk result (λ ends. length ends.items ≡ length (view flat.now).elems) }
    ensures inside { IfOk result (λ ends. IsInside ends.items) }
    ensures ends { IfOk result (λ ends. AreEnds (view flat.now) ends.items) }
{
    let mut ends = aliases_of(alloc, flat, delayed)?;
    lead_to_ends(&mut ends);
    Ok(ends)
}
