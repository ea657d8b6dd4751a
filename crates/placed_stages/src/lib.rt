//! Plans over several stages with units and cycles that are given, by whatever planner: their buses, lifetimes and
//! registers are found, or the first node that cannot stand at its place is reported. Page `docs/PLANNING.md`, "Plans
//! from elsewhere".
#![tactic(auto)]

mod fault;
mod in_stages;
mod passes;
mod placing;
mod units;

pub use fault::StagePlaceFault;
pub use passes::stage_plan_at;
