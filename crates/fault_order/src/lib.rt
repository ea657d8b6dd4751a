//! Faults with ranks.
#![tactic(auto)]
