//! Why a source has no program, over all phases, with the line and the element that the text of a fault names.
#![tactic(auto)]

mod element;
mod fault;
mod rejection;

pub use element::{Element, NamedElement};
pub use element_rules::DefFault;
pub use fault::{FrontError, FrontFault};
pub use name_rules::NameFault;
pub use rejection::Rejection;
pub use silage_lex::LexFault;
pub use silage_parse::ParseFault;
pub use type_rules::TypeFault;
