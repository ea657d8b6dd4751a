//! The graph of a source, without the nodes from which no output is reached: a line for the type of each input word and
//! one for each node.

ghost use Rattle.std.specs.Prelude.{IfOk};
ghost use Rattle.silage_syntax.specs.Tree.{view};
ghost use Rattle.source_faults.specs.Faults.{HasProgram};
ghost use Rattle.signal_graph.specs.GraphRules.{IsGraph};
ghost use Rattle.signal_graph.specs.GraphSolves.{IsGraphLoopless};

use crate::page::{Page, Refused};
use front_end::{Accepted, accept};
use operations::operation_name;
use signal_graph::{Graph, Node};
use source_faults::{FrontError, Rejection};

fn refuse_source(page: &mut Page, rejection: &Rejection) -> Refused {
    match rejection.error {
        FrontError::Fault(fault) => page.refuse_at(&fault, rejection.line),
        FrontError::Memory => page.cut(),
    }
}

/// The program of a source, and its graph.
pub fn accepted_of(page: &mut Page, source: &[u8]) -> Result<Accepted, Refused>
    ensures program { IfOk result (λ accepted. HasProgram source.now (view accepted.program)) }
    ensures sound { IfOk result (λ accepted. IsGraph accepted.graph) }
    ensures loopless { IfOk result (λ accepted. IsGraphLoopless accepted.graph) }
{
    match accept(page.alloc, source) {
        Ok(accepted) => Ok(accepted),
        Err(rejection) => Err(refuse_source(page, &rejection)),
    }
}

pub fn graph_of(page: &mut Page, source: &[u8]) -> Result<Graph, Refused>
    ensures sound { IfOk result IsGraph }
    ensures loopless { IfOk result IsGraphLoopless }
{
    Ok(accepted_of(page, source)?.graph)
}

pub fn put_operands(page: &mut Page, node: &Node) {
    page.text(" operands");
    for edge in &node.edges {
        page.number(" ", edge.node);
        if edge.delay > 0 {
            page.number("@", edge.delay);
        }
    }
}

fn put_initial_values(page: &mut Page, node: &Node) {
    for (delay, word) in &node.inits {
        page.number(" initial @", *delay);
        page.number(" ", *word);
    }
}

fn put_node(page: &mut Page, number: usize, node: &Node) {
    page.number("node ", number);
    page.text(" ");
    page.text(operation_name(node.op));
    page.format(node.fmt);
    page.number(" argument ", node.arg);
    page.number(" bits ", node.width);
    put_operands(page, node);
    put_initial_values(page, node);
    page.end();
}

pub fn put(page: &mut Page, source: &[u8]) -> Result<(), Refused> {
    let graph = graph_of(page, source)?;
    for ty in &graph.inputs {
        page.sig_type("input ", *ty);
        page.end();
    }
    for (number, node) in graph.nodes.iter().enumerate() {
        put_node(page, number, node);
    }
    Ok(())
}
