//! The operations of a processor by their names.

use fix_word::Op;
use micro_file::OPERATIONS;
use operations::operation_name;

pub fn operation_named(text: &str) -> Option<Op> {
    for op in OPERATIONS {
        if operation_name(op) == text {
            return Some(op);
        }
    }
    None
}
