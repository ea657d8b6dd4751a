//! Where the nodes that are planned come from: a line for each, with its node in the graph of the source, the line in
//! which its element is defined, the element, and its operation. Where a node gets no delay line, the nodes are those
//! of the graph, and the fault follows. Pages `docs/GRAPH.md`, "The graph of a flat program", and `docs/PLANNING.md`,
//! "Delay lines".

ghost use Rattle.silage_syntax.specs.Tree.{view};
ghost use Rattle.signal_graph.specs.Flat as flat_form;
ghost use Rattle.signal_graph.specs.FlatRules.{IsFlat};
ghost use Rattle.signal_graph.specs.GraphRules.{IsGraph};
ghost use Rattle.datapath.specs.Allowed.{IsDatapath};
ghost use Rattle.source_faults.specs.Faults.{HasProgram};

use crate::definitions::{Definition, defined_at, definitions};
use crate::elements::put_signal;
use crate::flat::expanded_of;
use crate::graph::{accepted_of, put_operands};
use crate::page::{Page, Refused};
use crate::path::datapath_of;
use crate::source::line_of;
use datapath::Datapath;
use delay_memory::{LineFault, lower};
use element_rules::{Element, Elements};
use fix_word::Op;
use flow_graph::build;
use front_end::Accepted;
use lists::List;
use node_names::{Owner, owners_of};
use operations::operation_name;
use signal_graph::{FlatProgram, Graph, Node};
use silage_tree::{Program, Top};

/// What the origins of nodes are told from.
#[derive(Clone, Copy)]
struct Origins<'a> {
    source: &'a [u8],
    program: &'a Program,
    elements: &'a Elements,
    definitions: &'a [Definition],
    /// For each node of the graph its element.
    owners: &'a [Owner],
}

/// The name of an element, after that of its function where this is not main's instance.
fn put_element(page: &mut Page, program: &Program, func: u32, element: &Element) {
    let Some(Top::Func(func)) = program.tops.get(func as usize) else {
        return;
    };
    if element.inst > 0 {
        page.name("", &func.name);
        page.text(".");
    }
    put_signal(page, func, element);
}

/// The line and the name of the element with this number.
fn put_origin(page: &mut Page, of: &Origins<'_>, number: u32) {
    let Some(element) = of.elements.elements.get(number as usize) else {
        return;
    };
    let Some(instance) = of.elements.instances.get(element.inst as usize) else {
        return;
    };
    let line = match defined_at(of.program, of.definitions, instance, element) {
        Some(at) => line_of(of.source, at),
        None => None,
    };
    page.number(" line ", line.unwrap_or(0));
    page.number(" element ", number);
    page.text(" ");
    put_element(page, of.program, instance.func, element);
}

fn put_operation(page: &mut Page, node: &Node) {
    page.text(" op ");
    page.text(operation_name(node.op));
    page.number(" argument ", node.arg);
    page.number(" bits ", node.width);
    page.number(" ram ", node.ram);
    put_operands(page, node);
    page.end();
}

/// Whether a node is one of a delay line, which belongs to the node of the graph before it.
fn is_of_line(op: Op) -> bool {
    matches!(op, Op::Addr | Op::Store | Op::Load)
}

fn put_nodes(page: &mut Page, of: &Origins<'_>, nodes: &List<Node>) {
    let mut count = 0usize;
    for (number, node) in nodes.iter().enumerate() {
        if !is_of_line(node.op) {
            count = count.saturating_add(1);
        }
        let graph_node = count.saturating_sub(1);
        page.number("node ", number);
        page.number(" graph ", graph_node);
        if let Some(owner) = of.owners.get(graph_node) {
            put_origin(page, of, owner.element);
        }
        put_operation(page, node);
    }
}

/// For each node of the graph of a flat program its element.
fn node_owners(page: &mut Page, flat: &FlatProgram) -> Result<Vec<Owner>, Refused>
    requires { IsFlat (flat_form.view flat.now) }
{
    let Ok(whole) = build(page.alloc, flat) else {
        return Err(page.cut());
    };
    match owners_of(page.alloc, flat, &whole) {
        Ok(owners) => Ok(owners),
        Err(_) => Err(page.cut()),
    }
}

/// The nodes that are planned, or those of the graph and the fault of the first that gets no delay line.
fn put_lowered(
    page: &mut Page,
    of: &Origins<'_>,
    graph: &Graph,
    path: &Datapath,
) -> Result<(), Refused>
    requires sound { IsGraph graph.now }
    requires path { IsDatapath path.now }
{
    match lower(page.alloc, graph, path) {
        Ok(lowered) => put_nodes(page, of, &lowered.nodes),
        Err(LineFault::Memory) => return Err(page.cut()),
        Err(fault) => {
            put_nodes(page, of, &graph.nodes);
            page.shown("fault ", &fault);
            page.end();
        }
    }
    Ok(())
}

fn put_planned(
    page: &mut Page,
    source: &[u8],
    accepted: &Accepted,
    path: &Datapath,
) -> Result<(), Refused>
    requires program { HasProgram source.now (view accepted.now.program) }
    requires sound { IsGraph accepted.now.graph }
    requires path { IsDatapath path.now }
{
    let program = &accepted.program;
    let expanded = expanded_of(page, source, program)?;
    let owners = node_owners(page, &expanded.flat)?;
    let Ok(definitions) = definitions(page.alloc, program, &expanded.elements) else {
        return Err(page.cut());
    };
    let of = Origins {
        source,
        program,
        elements: &expanded.elements,
        definitions: &definitions,
        owners: &owners,
    };
    put_lowered(page, &of, &accepted.graph, path)
}

pub fn put(page: &mut Page, source: &[u8], path: &[u8]) -> Result<(), Refused> {
    let accepted = accepted_of(page, source)?;
    let path = datapath_of(page, path)?;
    put_planned(page, source, &accepted, &path)
}
