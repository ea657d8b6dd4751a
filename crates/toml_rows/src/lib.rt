//! Tables of a TOML file, read key by key: which keys a table may have, and what may stand at each.
//!
//! A format is a list of rows, one for each key (`specs/Rows`). By it `specs/Reading` says what a table is read to, or
//! which fault is met first, and `specs/RowRules` has the rules of a key as a table of rules. All are over any type
//! of faults.
#![tactic(auto)]

mod misfit;
mod tables;

pub use misfit::Misfit;
pub use tables::{as_whole, has_only, member};
