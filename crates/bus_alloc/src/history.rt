//! The operations that a table has. Clauses alone see them: a snapshot takes no memory.

use plan_core::Slot;
use std::snapshot::Snapshot;

/// The operations that are placed so far: none, or one after the earlier ones.
#[derive(Drop)]
pub enum History {
    Empty,
    Then {
        earlier: Snapshot<History>,
        unit: u8,
        slot: Snapshot<Slot>,
    },
}
