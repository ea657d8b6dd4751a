//! The plan of a graph: delay lines, units, cycles, lifetimes and registers, by the passes in their order.
//! Page `docs/PLANNING.md`.
#![tactic(auto)]

mod fault;
mod passes;

pub use fault::PlanFault;
pub use passes::plan;
