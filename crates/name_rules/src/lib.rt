//! What the names of a program mean: the rules on names and their faults, the tables and functions by name, and the
//! values of manifest constants.
#![tactic(auto)]

mod fault;
mod manifests;
mod name_map;
mod name_set;
mod sizes;
mod tops;

pub use fault::{ManifestFault, NameFault};
pub use manifests::{Env, combine, manifest};
pub use name_map::{NameMap, Names, top_at};
pub use name_set::NameSet;
pub use sizes::element_count;
pub use tops::Tops;
