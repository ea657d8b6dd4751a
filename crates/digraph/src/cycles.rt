//! The first vertex that reaches itself.

ghost use Rattle.std.specs.Prelude.{◌<◌, ◌^◌, ◌↔◌, ℕ, Contains, length, IsTrue, IfOk};
ghost use Rattle.digraph.specs.Arcs.{HasArc, IsWithin, IsCycleIn};
ghost use Rattle.digraph.specs.Private.Walk.{HasHeadInOwnComponent};

use crate::walk::{Mark, components};
use lists::List;
use std::alloc::{AllocError, Global};

/// Whether an arc leads from a vertex to one of its own component. Then it reaches itself.
fn is_cyclic(marks: &[Mark], vertex: u32, heads: &[u32]) -> bool
    requires vertex { vertex < length marks.now }
    requires heads { (g : ℕ) → Contains heads.now g → g < length marks.now }
    ensures { IsTrue result ↔ HasHeadInOwnComponent marks.now vertex heads.now }
{
    let own = marks[vertex as usize].component();
    for head in heads {
        if marks[*head as usize].component() == own {
            return true;
        }
    }
    false
}

/// The first vertex that reaches itself along the arcs, which are given by the list of heads of each vertex.
pub fn first_cyclic(alloc: Global, arcs: &[List<u32>]) -> Result<Option<u32>, AllocError>
    requires few { length arcs.now < 2 ^ 32 }
    requires within { IsWithin arcs.now }
    ensures { IfOk result (IsCycleIn (HasArc arcs.now)) }
{
    let marks = components(alloc, arcs)?;
    for vertex in 0..arcs.len() as u32 {
        if is_cyclic(&marks, vertex, &arcs[vertex as usize]) {
            return Ok(Some(vertex));
        }
    }
    Ok(None)
}
