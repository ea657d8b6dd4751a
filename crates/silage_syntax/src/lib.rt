//! The tree of a source. `specs/` has its grammar, as a relation between tokens and trees, and the nesting limits.
#![tactic(auto)]

mod tree;

pub use tree::{BinOp, ConstDef, Decl, Expr, Func, Item, Lit, MOp, Manifest, Place, Program, Top};
