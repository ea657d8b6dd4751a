//! Samples as a stream: rows are read piece by piece, run, and written.
#![tactic(auto)]

mod engine;
mod evaluator;
mod machine;
mod output;
mod stream;
mod writing;

pub use engine::Engine;
pub use evaluator::eval_stream;
pub use machine::run_stream;
pub use stream::{StreamFault, run_all};
