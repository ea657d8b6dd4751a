//! The command of two rates: `frame` compiles a program that runs several times per sample of the machine. The samples
//! of the machine are frames, whose rows hold the words of all those runs. Page `docs/RATES.md`.
//!
//! In `specs/`, `FrameGraphs` says which graph a program has over frames and what it keeps, `FramePlans` which plan a
//! source has or why it has none, and `Frame` when each status comes.
#![tactic(auto)]

mod framer;
mod planning;

pub use framer::frame;
pub use planning::{flat_in, frame_graph, frame_graph_in, frame_plan_of, read_frame_plan};
