//! The reservation table of overlapped samples, which callers see as the operations that it has.

ghost use Rattle.std.specs.Prelude.{◌≡◌, ◌+◌, ◌<◌, ◌≤◌, ◌*◌, ℕ, length, IfOk, OnErr};
ghost use Rattle.std.specs.List.{All};
ghost use Rattle.datapath.specs.Allowed.{IsDatapath};
ghost use Rattle.plan_core.specs.Hardware.{gap_on};
ghost use Rattle.bus_alloc.specs.Table.{none_placed, with_placed, HasPort, FitsAround, IsFirstFitAround, AreTransfersAround};

use crate::fresh::fresh_rows;
use crate::history::History;
use crate::rows::Rows;
use crate::table::TableFault;
use datapath::{Datapath, PortRef};
use plan_core::{Slot, Transfers};
use std::alloc::Global;
use std::marker::Model;
use std::snapshot::Snapshot;

/// The modulo reservation table of a schedule whose samples overlap: what an operation takes it takes in each period,
/// so the table has the cycles of one.
#[derive(Drop)]
pub struct ModuloTable {
    alloc: Global,
    rows: Rows,
    datapath: Snapshot<Datapath>,
    history: History,
}

impl Model for ModuloTable {
    ghost use Rattle.bus_alloc.specs.Table.{Reservations};

    ghost Value = { Reservations };

    ghost use Rattle.bus_alloc.specs.Private.History.{reservations};
    ghost use Rattle.bus_alloc.specs.Private.Stands.{AreRowsAround};

    ghost view = { λ table. reservations table.datapath.value table.history };

    ghost invariant = { λ table. AreRowsAround (reservations table.datapath.value table.history) table.rows };
}

impl ModuloTable {
    /// An empty table. The transfers that it gives are in memory of this allocator.
    pub fn new(alloc: Global, datapath: &Datapath) -> Result<ModuloTable, TableFault>
        requires { IsDatapath datapath.now }
        ensures { IfOk result (λ table. table ≡ none_placed datapath.now) }
    {
        Ok(ModuloTable {
            alloc,
            rows: fresh_rows(alloc, datapath)?,
            datapath: Snapshot::of(datapath),
            history: History::Empty,
        })
    }

    /// The first cycle from this one on at which an operation fits on the unit, with its result going to these ports:
    /// it ends before the given end, and in no period it meets another on the unit, in a register file or on all buses
    /// to a port. Looks at a period of cycles at most. Takes no memory.
    pub fn first_fit(&self, unit: u8, from: u16, end: u16, dests: &[PortRef]) -> Option<u16>
        requires unit { unit < length self.now.datapath.units }
        requires ports { All (HasPort self.now.datapath) dests.now }
        requires from { from ≤ 32768 }
        ensures { IsFirstFitAround end self.now unit from dests.now result }
    {
        let latency = self.rows.latency(unit);
        let first = (from + latency - 1) % self.rows.period;
        let away = match self.rows.first_open_around(unit, dests, first) {
            Some(away) => away,
            None => return None,
        };
        if from + away + latency <= end {
            Some(from + away)
        } else {
            None
        }
    }

    /// Takes the unit, the register files and the first free buses for an operation that fits, and gives its transfers
    /// to the ports.
    ///
    /// # Errors
    ///
    /// `Memory` where no memory is left for the transfers; the table stays as it was.
    pub fn take(&mut self, unit: u8, cycle: u16, dests: &[PortRef]) -> Result<Transfers, TableFault>
        requires unit { unit < length self.old.datapath.units }
        requires ports { All (HasPort self.old.datapath) dests.now }
        requires gap { gap_on self.old.datapath unit ≤ self.old.datapath.period }
        requires cycle { cycle ≤ 32768 }
        requires fits { (end : ℕ) × FitsAround end self.old unit cycle dests.now }
        ensures transfers { IfOk result (AreTransfersAround self.old unit cycle dests.now) }
        ensures taken { IfOk result (λ transfers. self.new ≡ with_placed self.old unit cycle transfers) }
        ensures unchanged { OnErr result (self.new ≡ self.old) }
    {
        let end = (cycle + self.rows.latency(unit) - 1) % self.rows.period;
        let transfers = self.rows.transfers(self.alloc, unit, end, dests)?;
        self.rows.reserve_around(unit, end, &transfers);
        let slot = Slot { cycle, transfers };
        self.history = History::Then {
            earlier: Snapshot::of(&self.history),
            unit,
            slot: Snapshot::of(&slot),
        };
        Ok(slot.transfers)
    }
}
