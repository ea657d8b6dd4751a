//! The names of the nodes of a source's graph.

ghost use Rattle.std.specs.Prelude.{◌<◌, ◌^◌, length, IfOk};
ghost use Rattle.silage_syntax.specs.Tree.{view};
ghost use Rattle.element_rules.specs.Signatures.{HaveResults};
ghost use Rattle.signal_graph.specs.Flat as flat_form;
ghost use Rattle.signal_graph.specs.FlatRules.{IsFlat};
ghost use Rattle.signal_graph.specs.FlatSolves.{IsFlatLoopless};

use crate::owners::{Owner, owners_of};
use crate::signals::put_element;
use crate::text::{put, put_number};
use element_rules::Elements;
use fix_word::Op;
use flow_graph::{build, pruned_graph};
use front_end::accept_flat;
use name_check::check_names;
use operations::operation_name;
use signal_graph::{Edge, FlatProgram, Graph, Node};
use silage_syntax::Program;
use single_def::check_elements;
use source_faults::{FrontError, Rejection};
use std::alloc::{AllocError, Global};

/// How many operations deep an expression is put. What is below is put as two dots.
const DEPTH: u8 = 3;

/// The nodes of a graph, and the elements to which they belong.
#[derive(Drop)]
struct Nodes {
    graph: Graph,
    owners: Vec<Owner>,
}

/// The nodes of a source's graph by their names.
#[derive(Drop)]
pub struct NodeNames {
    program: Program,
    elements: Elements,
    nodes: Nodes,
}

fn no_memory() -> Rejection {
    Rejection {
        error: FrontError::Memory,
        line: None,
        element: None,
    }
}

fn elements_of(alloc: Global, program: &Program) -> Result<Elements, Rejection>
    requires few { length (view program.now).tops < 2 ^ 32 }
    requires results { HaveResults (view program.now) }
{
    let Ok(names) = check_names(alloc, program) else {
        return Err(no_memory());
    };
    match check_elements(alloc, program, &names) {
        Ok(elements) => Ok(elements),
        Err(_) => Err(no_memory()),
    }
}

fn whole_graph(alloc: Global, flat: &FlatProgram) -> Result<Graph, Rejection>
    requires { IsFlat (flat_form.view flat.now) }
{
    match build(alloc, flat) {
        Ok(graph) => Ok(graph),
        Err(_) => Err(no_memory()),
    }
}

fn owners(alloc: Global, flat: &FlatProgram) -> Result<Vec<Owner>, Rejection>
    requires { IsFlat (flat_form.view flat.now) }
{
    let whole = whole_graph(alloc, flat)?;
    match owners_of(alloc, flat, &whole) {
        Ok(owners) => Ok(owners),
        Err(_) => Err(no_memory()),
    }
}

fn nodes_of(alloc: Global, flat: &FlatProgram) -> Result<Nodes, Rejection>
    requires sound { IsFlat (flat_form.view flat.now) }
    requires loopless { IsFlatLoopless (flat_form.view flat.now) }
{
    let owners = owners(alloc, flat)?;
    match pruned_graph(alloc, flat) {
        Ok(graph) => Ok(Nodes { graph, owners }),
        Err(_) => Err(no_memory()),
    }
}

/// The names of the nodes of a source's graph, which is that of `accept`. Fails as `accept` does.
pub fn node_names(alloc: Global, source: &[u8]) -> Result<NodeNames, Rejection> {
    let accepted = accept_flat(alloc, source)?;
    let elements = elements_of(alloc, &accepted.program)?;
    let nodes = nodes_of(alloc, &accepted.flat)?;
    Ok(NodeNames {
        program: accepted.program,
        elements,
        nodes,
    })
}

/// The symbol of an operation between two operands.
fn infix(op: Op) -> Option<&'static str> {
    match op {
        Op::Add => Some(" + "),
        Op::Sub => Some(" - "),
        Op::Mul => Some("*"),
        Op::Lt => Some(" < "),
        Op::Le => Some(" <= "),
        Op::Eq => Some(" == "),
        Op::Ne => Some(" != "),
        Op::And => Some(" & "),
        Op::Or => Some(" | "),
        _ => None,
    }
}

/// How the operands of an operation are put: what stands before, between and behind them.
#[derive(Clone, Copy)]
struct Marks {
    before: &'static str,
    between: &'static str,
    behind: &'static str,
}

/// The marks of an operation that is the whole name, or a part of one.
fn marks_of(op: Op, is_part: bool) -> Marks {
    match infix(op) {
        Some(between) if is_part => Marks {
            before: "(",
            between,
            behind: ")",
        },
        Some(between) => Marks {
            before: "",
            between,
            behind: "",
        },
        None => Marks {
            before: "(",
            between: ", ",
            behind: ")",
        },
    }
}

impl NodeNames {
    fn node(&self, number: u32) -> Option<&Node> {
        self.nodes.graph.nodes.get(number as usize)
    }

    /// The number of the element whose words a node has.
    fn element(&self, number: u32) -> Option<u32> {
        match self.nodes.owners.get(number as usize) {
            Some(owner) if owner.is_whole => Some(owner.element),
            _ => None,
        }
    }

    /// Puts the name of the output whose node has this number.
    fn put_output_node(&self, text: &mut Vec<u8>, number: u32) -> Result<(), AllocError> {
        put(text, "output ")?;
        match self.nodes.owners.get(number as usize) {
            Some(owner) => put_element(text, &self.program, &self.elements, owner.element),
            None => Ok(()),
        }
    }

    /// Puts a node that is no element's: a constant or an output, or an operation on its operands.
    #[cycle(values)]
    fn put_value(
        &self,
        text: &mut Vec<u8>,
        number: u32,
        depth: u8,
        is_part: bool,
    ) -> Result<(), AllocError> {
        let Some(node) = self.node(number) else {
            return Ok(());
        };
        match node.op {
            Op::Const => put_number(text, "", node.arg),
            Op::Output => self.put_output_node(text, number),
            _ => {
                if depth == 0 {
                    put(text, "..")
                } else {
                    self.put_operation(text, node, depth - 1, is_part)
                }
            }
        }
    }

    #[cycle(values)]
    fn put_operation(
        &self,
        text: &mut Vec<u8>,
        node: &Node,
        depth: u8,
        is_part: bool,
    ) -> Result<(), AllocError> {
        let marks = marks_of(node.op, is_part);
        if infix(node.op).is_none() {
            put(text, operation_name(node.op))?;
        }
        put(text, marks.before)?;
        let mut is_first = true;
        for edge in node.edges.iter() {
            if !is_first {
                put(text, marks.between)?;
            }
            is_first = false;
            self.put_operand(text, *edge, depth)?;
        }
        put(text, marks.behind)
    }

    /// Puts an operand, with its delay.
    #[cycle(values)]
    fn put_operand(&self, text: &mut Vec<u8>, edge: Edge, depth: u8) -> Result<(), AllocError> {
        match self.element(edge.node) {
            Some(element) => put_element(text, &self.program, &self.elements, element)?,
            None => self.put_value(text, edge.node, depth, true)?,
        }
        if edge.delay > 0 {
            put_number(text, "@", edge.delay)?;
        }
        Ok(())
    }

    /// Puts the name of the output with this number behind a text.
    pub fn put_output(&self, text: &mut Vec<u8>, output: u8) -> Result<(), AllocError> {
        let graph = &self.nodes.graph;
        let first = graph.nodes.len().saturating_sub(usize::from(graph.outs));
        match u32::try_from(first.saturating_add(usize::from(output))) {
            Ok(number) => self.put_output_node(text, number),
            Err(_) => Ok(()),
        }
    }

    /// Puts the name of a node behind a text: that of the signal whose words it has, or the operation that it is on the
    /// way to one, on constants as raw words and on signals.
    pub fn put(&self, text: &mut Vec<u8>, number: u32) -> Result<(), AllocError> {
        match self.element(number) {
            Some(element) => put_element(text, &self.program, &self.elements, element),
            None => self.put_value(text, number, DEPTH, false),
        }
    }
}
