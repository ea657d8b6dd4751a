//! Which units can drive a bus to which ports.

ghost use Rattle.std.specs.Prelude.{◌≡◌, ◌<◌, ◌≤◌, ◌*◌, ◌↔◌, ℕ, length, replicate, All, Contains, IfOk};
ghost use Rattle.datapath.specs.Allowed.{IsDatapath};
ghost use Rattle.unit_assign.specs.Private.UnitSets.{Has, none_of_32};
ghost use Rattle.unit_assign.specs.Private.Drivers.{most_ports, most_units, place, AreDrivers, HasPlace, IsAddedTo};

use bit_sets::Set32;
use datapath::{Bus, Datapath, PortRef};
use lists::List;
use std::alloc::{AllocError, Global};

/// The most ports that a unit has.
pub(crate) const PORTS: usize = 3;

/// The place of a port in a list that has `PORTS` entries for each unit.
pub(crate) fn place_of(unit: u8, port: usize) -> usize
    requires { port < most_ports }
    ensures { result ≡ place unit port }
{
    usize::from(unit) * PORTS + port
}

/// The units that can drive the bus.
fn bus_drivers(bus: &Bus) -> Set32
    requires { All (λ unit. unit < most_units) bus.now.from }
    ensures { (u : ℕ) → Has result u ↔ Contains bus.now.from u }
{
    let mut drivers = Set32::empty();
    for unit in bus.from.iter() {
        drivers = drivers.with(*unit);
    }
    drivers
}

/// Adds the drivers of a bus to the ports that it leads to.
fn add_drivers(table: &mut List<Set32>, ports: &[PortRef], drivers: Set32)
    requires { All (HasPlace (length table.old)) ports.now }
    ensures { IsAddedTo drivers ports.now (length ports.now) table.old table.new }
{
    for port in ports {
        let place = place_of(port.unit, usize::from(port.port));
        let all = table[place].union(drivers);
        table[place] = all;
    }
}

fn no_drivers(alloc: Global, count: usize) -> Result<List<Set32>, AllocError>
    ensures { IfOk result (λ table. table ≡ replicate count none_of_32) }
{
    let mut table = List::with_capacity(alloc, count)?;
    for _ in 0..count {
        table.push(Set32::empty())?;
    }
    Ok(table)
}

/// For each port of each unit, at its place, the units from which a bus leads to it.
pub(crate) fn all_drivers(alloc: Global, datapath: &Datapath) -> Result<List<Set32>, AllocError>
    requires { IsDatapath datapath.now }
    ensures { IfOk result (AreDrivers datapath.now) }
{
    let mut table = no_drivers(alloc, datapath.units.len() * PORTS)?;
    for bus in datapath.buses.iter() {
        add_drivers(&mut table, bus.to.as_slice(), bus_drivers(bus));
    }
    Ok(table)
}
