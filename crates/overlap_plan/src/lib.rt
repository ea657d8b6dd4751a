//! Plans whose samples overlap (software pipelining by modulo scheduling): a sample is issued over several stages of a
//! period each, and the next one begins a period later. Page `docs/PLANNING.md`, "Overlapped samples".
#![tactic(auto)]

mod fault;
mod guard_fault;
mod passes;
mod placing;
mod plan;
mod plan_text;
mod scheduler;
mod staged;

pub use fault::StageFault;
pub use guard_fault::GuardFault;
pub use passes::stage_plan;
pub use plan::StagePlan;
pub use plan_text::stage_text;
pub use staged::Staged;
