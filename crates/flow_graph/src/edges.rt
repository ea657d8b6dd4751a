//! The edges of nodes.

ghost use Rattle.std.specs.Prelude.{◌≡◌, All, map, IfOk};
ghost use Rattle.flow_graph.specs.Private.Edges.{edge_by, HasNumber};
ghost use Rattle.flow_graph.specs.Private.Sites.{view_operand};

use crate::sites::Operand;
use crate::words::Words;
use signal_graph::{Edge, Edges};
use std::alloc::{AllocError, AllocFailed, Global};

/// The edge of an operand of a node of an element whose places begin at `first`.
fn edge_of(operand: Operand, first: usize, words: &Words, places: &[u32], elements: &[u32]) -> Edge
    requires { HasNumber words.now places.now elements.now first (view_operand operand) }
    ensures { result ≡ edge_by words.now places.now elements.now first (view_operand operand) }
{
    match operand {
        Operand::Number(word) => Edge {
            node: match words.get(word) {
                Some(node) => node,
                None => unreachable!(),
            },
            delay: 0,
        },
        Operand::Place(place) => Edge {
            node: places[first + place],
            delay: 0,
        },
        Operand::Element { elem, delay } => Edge {
            node: elements[elem as usize],
            delay,
        },
    }
}

/// The edges of the operands of such a node.
pub(crate) fn edges_of(
    alloc: Global,
    operands: &[Operand],
    first: usize,
    words: &Words,
    places: &[u32],
    elements: &[u32],
) -> Result<Edges, AllocError>
    requires { All (HasNumber words.now places.now elements.now first)
        (map view_operand operands.now) }
    ensures { IfOk result (λ edges. edges ≡ map
        (λ operand. edge_by words.now places.now elements.now first (view_operand operand))
        operands.now) }
{
    let mut edges = Edges::new(alloc);
    for operand in operands {
        edges.push(edge_of(*operand, first, words, places, elements))?;
    }
    Ok(edges)
}
