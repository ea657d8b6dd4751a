//! The canonical text of a program.
#![tactic(auto)]

mod precedence;
mod print_exprs;
mod print_items;
mod print_tokens;
mod print_types;
mod printing;

pub use printing::{TreeFault, parentheses_are_needed, print, print_is_read};
