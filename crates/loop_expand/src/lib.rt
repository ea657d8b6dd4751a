//! The flat program of a program: its calls and loops expanded. Page `docs/GRAPH.md`, "Expansion".
#![tactic(auto)]

mod amounts;
mod arithmetic;
mod body;
mod calls;
mod columns;
mod elements;
mod expressions;
mod fault;
mod functions;
mod groups;
mod initials;
mod instances;
mod item_facts;
mod keys;
mod lookups;
mod program;
mod scope;
mod turns;
mod values;

pub use fault::ExpandFault;
pub use program::expand;
