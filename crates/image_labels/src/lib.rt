//! Labels of an image: which words of a graph its registers and cells hold. An image whose labels fit the graph runs the
//! graph's solution, whoever made it.
#![tactic(auto)]

mod copies;
mod cycles;
mod fits;
mod folds;
mod hardware;
mod label;
mod labels;
mod misfits;
mod mismatch;
mod narrow;
mod operands;
mod recovery;
mod rows;
mod settled;
mod starts;
mod validation;
mod written;

pub use label::{Certificate, Label};
pub use mismatch::Mismatch;
pub use recovery::recover;
pub use validation::validate;
