//! Flat programs, graphs of nodes, and what both mean. The code is types and copies of them: the meaning is in
//! `specs/`. That each sound program and graph without a delay-free loop has exactly one solution, and that the graph
//! of a program and a pruned graph keep solutions, is in `proofs/`. Page `docs/GRAPH.md`.
#![tactic(auto)]

mod copies;
mod expressions;
mod flat;
mod graph;

pub use copies::node_copies;
pub use expressions::{expr_copy, operation_count};
pub use flat::{FlatBody, FlatElem, FlatExpr, FlatProgram};
pub use graph::{Edge, Edges, Graph, Node};
