//! The operations, and the functional units that do them: which kind of unit does an operation, how many operands it
//! has, whether its result is quantised; how many ports a kind of unit has; and their names.
//!
//! `specs/Operations` has a row for each operation.
#![tactic(auto)]

mod names;
mod operand;
mod operation;
mod units;

pub use names::operation_name;
pub use operand::Operand;
pub use operation::{is_formatted, reads};
pub use units::{Kind, PortRef};
