//! The image of a plan, and the run of it: on every stream it runs without a conflict, and its output rows are those of
//! the one solution of the graph. The crate is definitions and proofs. Page `docs/PROOF.md`.
#![tactic(auto)]
