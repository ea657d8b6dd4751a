//! The rows that the processors of a net put: those of the run of each image over the rows that its wires bring. And a
//! list of rows, one behind the other.
#![tactic(auto)]

mod row_list;

pub use row_list::RowList;
