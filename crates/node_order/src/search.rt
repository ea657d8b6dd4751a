//! The search for an order, which goes depth first.

ghost use Rattle.std.specs.Prelude.{◌≡◌, ◌<◌, ℕ, [], length, IfOk, OnOk, IfSome, IfNone};
ghost use Rattle.std.specs.List.{All};
ghost use Rattle.node_order.specs.Topological.{CanBeOrdered, IsTopologicalOrder};
ghost use Rattle.node_order.specs.Private.Search.{mark_of, IsNewOperand, IsSearch, Visits, Keeps};
ghost use Rattle.node_order.specs.declared.search.Mark.TheVariants.{New, Placed};

use lists::List;
use signal_graph::Node;
use std::alloc::{AllocError, Global};

/// How far the search has come with a node.
#[derive(Clone, Copy)]
pub(crate) enum Mark {
    New,
    /// It waits for its operands.
    Open,
    Placed,
}

/// The nodes that have a place in the order so far.
#[derive(Drop)]
pub(crate) struct Search {
    pub order: List<u32>,
    /// For each node.
    pub marks: List<Mark>,
}

/// The first operand without a delay that is new.
fn new_operand(node: &Node, marks: &List<Mark>) -> Option<u32>
    requires { All (λ edge. edge.delay ≡ 0 → edge.node < length marks.now) node.now.edges }
    ensures some { IfSome result (IsNewOperand node.now marks.now) }
    ensures none { IfNone result ((u : ℕ) → IsNewOperand node.now marks.now u → ⊥) }
{
    for edge in node.edges.iter() {
        if edge.delay == 0 && matches!(marks[edge.node as usize], Mark::New) {
            return Some(edge.node);
        }
    }
    None
}

/// Looks at an open node from the stack: puts a new operand above it, or gives the node its place.
fn visit(
    nodes: &[Node],
    v: u32,
    stack: &mut Vec<u32>,
    search: &mut Search,
) -> Result<(), AllocError>
    requires nodes { CanBeOrdered nodes.now }
    requires node { v < length nodes.now }
    requires count { length search.old.marks ≡ length nodes.now }
    ensures { OnOk result (Visits nodes.now v stack.old.items search.old stack.new.items search.new) }
{
    match new_operand(&nodes[v as usize], &search.marks) {
        Some(u) => {
            stack.push(v)?;
            stack.push(u)?;
            search.marks[u as usize] = Mark::Open;
        }
        None => {
            search.order.push(v)?;
            search.marks[v as usize] = Mark::Placed;
        }
    }
    Ok(())
}

/// Gives a node its place, and before it each node on which it depends without a delay.
fn place(
    nodes: &[Node],
    root: u32,
    stack: &mut Vec<u32>,
    search: &mut Search,
) -> Result<(), AllocError>
    requires nodes { CanBeOrdered nodes.now }
    requires root { root < length nodes.now }
    requires fresh { mark_of search.old root ≡ New }
    requires empty { stack.old.items ≡ [] }
    requires search { IsSearch nodes.now [] search.old }
    ensures empty { OnOk result (stack.new.items ≡ []) }
    ensures search { OnOk result (IsSearch nodes.now [] search.new) }
    ensures root { OnOk result (mark_of search.new root ≡ Placed) }
    ensures keeps { OnOk result (Keeps search.old search.new) }
{
    stack.push(root)?;
    search.marks[root as usize] = Mark::Open;
    while let Some(v) = stack.pop() {
        visit(nodes, v, stack, search)?;
    }
    Ok(())
}

/// Gives each node its place. The search has a stack of its own, since a chain of nodes may be as long as the graph.
fn place_all(nodes: &[Node], search: &mut Search, stack: &mut Vec<u32>) -> Result<(), AllocError>
    requires nodes { CanBeOrdered nodes.now }
    requires empty { stack.old.items ≡ [] }
    requires search { IsSearch nodes.now [] search.old }
    ensures search { OnOk result (IsSearch nodes.now [] search.new) }
    ensures all { OnOk result ((v : ℕ) → v < length nodes.now → mark_of search.new v ≡ Placed) }
{
    for root in 0..nodes.len() {
        if matches!(search.marks[root], Mark::New) {
            place(nodes, root as u32, stack, search)?;
        }
    }
    Ok(())
}

/// The nodes in the order in which a search that goes depth first leaves them.
pub(crate) fn searched_order(alloc: Global, nodes: &[Node]) -> Result<List<u32>, AllocError>
    requires { CanBeOrdered nodes.now }
    ensures { IfOk result (IsTopologicalOrder nodes.now) }
{
    let mut search = Search {
        order: List::with_capacity(alloc, nodes.len())?,
        marks: List::from_vec(vec![in alloc; Mark::New; nodes.len()]?),
    };
    let mut stack = Vec::new(alloc);
    place_all(nodes, &mut search, &mut stack)?;
    Ok(search.order)
}
