//! Why a program is not expanded.

use std::alloc::{AllocError, AllocFailed};
use thiserror::Error;

/// Why a program is not expanded.
#[derive(Debug, Clone, Copy, PartialEq, Eq, Drop, Error)]
pub enum ExpandFault {
    /// Out of memory.
    #[error("no memory")]
    Memory,
}

impl<T: Drop> From<AllocFailed<T>> for ExpandFault {
    fn from(_: AllocFailed<T>) -> ExpandFault {
        ExpandFault::Memory
    }
}

impl From<AllocError> for ExpandFault {
    fn from(_: AllocError) -> ExpandFault {
        ExpandFault::Memory
    }
}
