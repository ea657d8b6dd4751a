//! Whether microcode runs a source, whoever made it: by labels that are found and then checked. Whether it is for
//! a datapath.
#![tactic(auto)]

mod comparison;
mod on_path;
mod refusal;
mod unfit;

pub use comparison::runs_source;
pub use on_path::fits_datapath;
pub use refusal::Refusal;
pub use unfit::PathRefusal;
