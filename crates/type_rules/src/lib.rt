//! Typed programs: the rules on types and their faults, and each expression as raw words, reads and operations
//! by formats.
#![tactic(auto)]

mod fault;
mod typed;

pub use fault::TypeFault;
pub use typed::{Typed, TypedConst, TypedExpr, TypedFunc, TypedItem};
