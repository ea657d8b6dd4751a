//! The rows of a table before anything is taken.

ghost use Rattle.std.specs.Prelude.{◌≡◌, ◌≤◌, ◌*◌, ℕ, length, IfOk};
ghost use Rattle.datapath.specs.Allowed.{IsDatapath};
ghost use Rattle.bus_alloc.specs.Private.Rows.{AreRows};
ghost use Rattle.bus_alloc.specs.Private.Fresh.{AreFreshUnits, AreFreshFiles, AreFreshBuses, AreFresh};

use crate::cycles::CycleSet;
use crate::routes::{driven_by, leading_to};
use crate::rows::{FileRow, MOST_PORTS, Rows, UnitRow};
use datapath::{Bus, Datapath, PortRef, Unit};
use lists::List;
use std::alloc::{AllocError, Global};

/// A datapath has at most this many buses.
const MOST_BUSES: usize = 32;

fn unit_rows(alloc: Global, units: &[Unit], buses: &[Bus]) -> Result<List<UnitRow>, AllocError>
    requires units { length units.now ≤ 32 }
    requires buses { length buses.now ≤ 32 }
    ensures { IfOk result (AreFreshUnits units.now buses.now (length units.now)) }
{
    let mut rows = List::with_capacity(alloc, units.len())?;
    for (number, unit) in units.iter().enumerate() {
        rows.push(UnitRow {
            latency: unit.latency,
            gap: unit.gap,
            drives: driven_by(buses, number as u8),
            busy: CycleSet::new(),
        })?;
    }
    Ok(rows)
}

fn file_rows(alloc: Global, units: usize, buses: &[Bus]) -> Result<List<FileRow>, AllocError>
    requires units { units ≤ 32 }
    requires buses { length buses.now ≤ 32 }
    ensures { IfOk result (AreFreshFiles buses.now (3 * units)) }
{
    let mut rows = List::with_capacity(alloc, MOST_PORTS * units)?;
    for number in 0..MOST_PORTS * units {
        let port = PortRef {
            unit: (number / MOST_PORTS) as u8,
            port: (number % MOST_PORTS) as u8,
        };
        rows.push(FileRow {
            sources: leading_to(buses, port),
            written: CycleSet::new(),
        })?;
    }
    Ok(rows)
}

fn bus_rows(alloc: Global) -> Result<List<CycleSet>, AllocError>
    ensures { IfOk result (AreFreshBuses 32) }
{
    let mut rows = List::with_capacity(alloc, MOST_BUSES)?;
    for _ in 0..MOST_BUSES {
        rows.push(CycleSet::new())?;
    }
    Ok(rows)
}

/// The rows of a table in which nothing is taken.
pub fn fresh_rows(alloc: Global, datapath: &Datapath) -> Result<Rows, AllocError>
    requires { IsDatapath datapath.now }
    ensures rows { IfOk result AreRows }
    ensures fresh { IfOk result (AreFresh datapath.now) }
{
    let units = unit_rows(alloc, &datapath.units, &datapath.buses)?;
    let files = file_rows(alloc, datapath.units.len(), &datapath.buses)?;
    let buses = bus_rows(alloc)?;
    Ok(Rows {
        period: datapath.period,
        units,
        files,
        buses,
    })
}
