//! The nodes that are made at places.

ghost use Rattle.std.specs.Prelude.{◌≡◌, ◌<◌, [], length, map, pos, if◌then◌else◌, option_map, slice_get, IfOk};
ghost use Rattle.fix_word.specs.Words.{IsMachineWord};
ghost use Rattle.fix_word.specs.declared.operation.Op.TheVariants as op;
ghost use Rattle.signal_graph.specs.Operations.{class_of};
ghost use Rattle.signal_graph.specs.Rules.{width_of, plain};
ghost use Rattle.signal_graph.specs.Flat.{view};
ghost use Rattle.signal_graph.specs.FlatRules.{IsFlat};
ghost use Rattle.signal_graph.specs.GraphOf as made_by;
ghost use Rattle.signal_graph.specs.GraphOf.{constant};
ghost use Rattle.flow_graph.specs.Private.Edges.{edge_by, HasNumber};
ghost use Rattle.flow_graph.specs.Private.ElementNodes.{AreElementNumbers};
ghost use Rattle.flow_graph.specs.Private.Nodes.{AreNumbers};
ghost use Rattle.flow_graph.specs.Private.NodesBy.{CanBeMade, IsNodeBy, is_made_by, is_end_before, IsMadeAt, IsSomethingAt, AreMade};
ghost use Rattle.flow_graph.specs.Private.Sites.{view_made, view_site};

use crate::edges::edges_of;
use crate::sites::{Made, Site, bits};
use crate::widths::least_width;
use crate::words::Words;
use fix_word::{Format, Mode, Op};
use lists::List;
use signal_graph::{Edges, FlatElem, FlatProgram, Node};
use std::alloc::{AllocError, AllocFailed, Global};

/// The width of a truth value.
const TRUTH_BITS: u8 = 2;

/// The format of nodes that do not quantise.
pub(crate) fn no_format() -> Format
    ensures { result ≡ plain 0 }
{
    Format {
        shift: 0,
        mode: Mode::Trunc,
        width: 0,
    }
}

/// The format of the node of an operation.
fn node_format(op: Op, fmt: Format) -> Format
    ensures { result ≡ made_by.node_format (class_of op) fmt }
{
    match op {
        Op::Add | Op::Sub | Op::Neg | Op::Pass | Op::Mul => fmt,
        _ => no_format(),
    }
}

/// The width of the node of an operation.
fn node_width(op: Op, fmt: Format) -> u8
    ensures { result ≡ made_by.node_width (class_of op) fmt }
{
    match op {
        Op::Lt | Op::Le | Op::Eq | Op::Ne | Op::And | Op::Or | Op::Not => TRUTH_BITS,
        _ => fmt.width,
    }
}

/// The node of a raw word.
fn constant_node(alloc: Global, word: i64) -> Node
    requires { IsMachineWord word }
    ensures { IsNodeBy 0 [] (edge_by [] [] [] 0) (constant word) result }
{
    Node {
        op: Op::Const,
        fmt: no_format(),
        arg: word,
        edges: Edges::new(alloc),
        inits: List::new(alloc),
        width: least_width(word),
        ram: 0,
    }
}

/// The initial values of the node at a place: the element's at its last place.
fn inits_of(
    alloc: Global,
    element: &FlatElem,
    is_last: bool,
) -> Result<List<(u16, i64)>, AllocError>
    ensures { IfOk result (λ inits. inits ≡ (if is_last then element.now.inits else [])) }
{
    if is_last {
        List::from_slice(alloc, element.inits.as_slice())
    } else {
        Ok(List::new(alloc))
    }
}

/// Whether a node is made at the place that has the number, where there are so many nodes before.
fn is_made(made: &Made, number: u32, count: usize) -> bool
    ensures { result ≡ is_made_by number count (view_made made.now) }
{
    match made {
        Made::Nothing => false,
        Made::Constant(_) => number as usize == count,
        Made::Input(_) | Made::Operation { .. } => true,
    }
}

/// The node that is made at a place of an element whose places begin at `first`.
fn node_of(
    alloc: Global,
    element: &FlatElem,
    made: &Made,
    is_last: bool,
    first: usize,
    words: &Words,
    places: &[u32],
    elements: &[u32],
) -> Result<Node, AllocError>
    requires { CanBeMade (HasNumber words.now places.now elements.now first) (view_made made.now) }
    ensures { IfOk result (IsNodeBy (width_of element.now.ty) (if is_last then element.now.inits else [])
        (edge_by words.now places.now elements.now first) (view_made made.now)) }
{
    match made {
        Made::Nothing => unreachable!(),
        Made::Constant(word) => Ok(constant_node(alloc, *word)),
        Made::Input(word) => Ok(Node {
            op: Op::Input,
            fmt: no_format(),
            arg: i64::from(*word),
            edges: Edges::new(alloc),
            inits: inits_of(alloc, element, is_last)?,
            width: bits(element.ty),
            ram: 0,
        }),
        Made::Operation { op, fmt, operands } => Ok(Node {
            op: *op,
            fmt: node_format(*op, *fmt),
            arg: 0,
            edges: edges_of(alloc, operands.as_slice(), first, words, places, elements)?,
            inits: inits_of(alloc, element, is_last)?,
            width: node_width(*op, *fmt),
            ram: 0,
        }),
    }
}

/// Whether the place at the index is of another element, or none.
fn is_end(sites: &[Site], index: usize, elem: u32) -> bool
    ensures { result ≡ is_end_before (option_map view_site (slice_get sites.now index)) elem }
{
    match sites.get(index) {
        None => true,
        Some(site) => site.elem != elem,
    }
}

/// The node that is made at the place with this index.
fn node_at(
    alloc: Global,
    flat: &FlatProgram,
    sites: &[Site],
    index: usize,
    words: &Words,
    places: &[u32],
    elements: &[u32],
) -> Result<Node, AllocError>
    requires sound { IsFlat (view flat.now) }
    requires sites { map view_site sites.now ≡ made_by.sites (view flat.now) }
    requires numbers { AreNumbers (made_by.sites (view flat.now)) places.now words.now }
    requires elements { AreElementNumbers (view flat.now) elements.now }
    requires index { index < length sites.now }
    requires made { IsSomethingAt (view flat.now) index }
    ensures { IfOk result (IsMadeAt (view flat.now) index) }
{
    let site = &sites[index];
    let element = &flat.elems[site.elem as usize];
    let is_last = is_end(sites, index + 1, site.elem);
    let first = index - site.place;
    node_of(
        alloc, element, &site.made, is_last, first, words, places, elements,
    )
}

/// The nodes that are made at all places.
pub(crate) fn nodes_of_places(
    alloc: Global,
    flat: &FlatProgram,
    sites: &[Site],
    words: &Words,
    places: &[u32],
    elements: &[u32],
) -> Result<List<Node>, AllocError>
    requires sound { IsFlat (view flat.now) }
    requires sites { map view_site sites.now ≡ made_by.sites (view flat.now) }
    requires numbers { AreNumbers (made_by.sites (view flat.now)) places.now words.now }
    requires elements { AreElementNumbers (view flat.now) elements.now }
    ensures { IfOk result (AreMade (view flat.now)) }
{
    let mut nodes = List::with_capacity(alloc, sites.len())?;
    for index in 0..sites.len() {
        if is_made(&sites[index].made, places[index], nodes.len()) {
            let node = node_at(alloc, flat, sites, index, words, places, elements)?;
            nodes.push(node)?;
        }
    }
    Ok(nodes)
}
