//! What a program means: definitions in `specs/` and lemmas on them in `proofs/`, and no code.
#![tactic(auto)]
