//! Where and when nodes are done. Page `docs/PLANNING.md`, "Units" and "Cycles".

use crate::delay_lines::Lowered;
use datapath::PortRef;
use lists::List;
use short_lists::ShortList;

/// For how many transfers a slot has room in itself.
const TRANSFERS: usize = 4;

/// Nodes, each bound to a functional unit.
#[derive(Drop)]
pub struct Assigned {
    pub lowered: Lowered,
    /// The unit number of each node.
    pub units: List<u8>,
}

/// The transfer of a result to a register file, in the cycle in which the result is there.
#[derive(Clone, Copy)]
pub struct Transfer {
    /// The port whose file takes it.
    pub port: PortRef,
    pub bus: u8,
}

/// The blank of a list's room.
impl Default for Transfer {
    fn default() -> Transfer {
        Transfer {
            port: PortRef { unit: 0, port: 0 },
            bus: 0,
        }
    }
}

/// The transfers of one result, by unit, then port.
pub type Transfers = ShortList<Transfer, TRANSFERS>;

/// The place of a node in the schedule.
#[derive(Drop)]
pub struct Slot {
    /// The cycle of the sample in which the node is issued.
    pub cycle: u16,
    /// A transfer for each port that reads the node.
    pub transfers: Transfers,
}

/// A slot for each node.
#[derive(Drop)]
pub struct Schedule {
    pub slots: List<Slot>,
}
