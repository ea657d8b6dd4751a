//! Systems of recurrence equations over samples: definitions in `specs/`, existence and uniqueness of the solution in
//! `proofs/`, and no code.
#![tactic(auto)]
