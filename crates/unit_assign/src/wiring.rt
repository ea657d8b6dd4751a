//! What is looked up of a datapath for each node: the units of each kind, and the routes between units.

ghost use Rattle.std.specs.Prelude.{◌≡◌, ◌<◌, ◌≤◌, ◌*◌, ◌↔◌, ℕ, length, IfOk};
ghost use Rattle.datapath.specs.Allowed.{IsDatapath};
ghost use Rattle.unit_assign.specs.Private.UnitSets.{Has, set_at};
ghost use Rattle.unit_assign.specs.Private.Drivers.{most_ports, most_units, place, AreDrivers};
ghost use Rattle.unit_assign.specs.Private.Wiring.{AreTakers, IsWiring};

use crate::drivers::{PORTS, all_drivers, place_of};
use crate::kinds::Kinds;
use bit_sets::Set32;
use datapath::Datapath;
use lists::List;
use std::alloc::{AllocError, Global};

/// The units of each kind, and the routes between units.
#[derive(Drop)]
pub(crate) struct Wiring {
    pub kinds: Kinds,
    /// For each port of each unit, at its place, the units from which a bus leads to it.
    pub drivers: List<Set32>,
    /// For each unit and each number of a port, at their place, the units to whose port a bus leads from the unit.
    pub takers: List<Set32>,
}

/// The units to whose port of this number a bus leads from the unit.
fn takers_of(drivers: &List<Set32>, units: usize, unit: u8, port: usize) -> Set32
    requires few { units ≤ most_units }
    requires count { length drivers.now ≡ units * most_ports }
    requires unit { unit < most_units }
    requires port { port < most_ports }
    ensures { (u : ℕ) → Has result u ↔ ((u < units) × Has (set_at drivers.now (place u port)) unit) }
{
    let mut takers = Set32::empty();
    for number in 0..units {
        let taker = number as u8;
        if drivers[place_of(taker, port)].contains(unit) {
            takers = takers.with(taker);
        }
    }
    takers
}

/// For each unit and each number of a port, at their place, the units to whose port a bus leads from the unit.
fn all_takers(
    alloc: Global,
    datapath: &Datapath,
    drivers: &List<Set32>,
) -> Result<List<Set32>, AllocError>
    requires datapath { IsDatapath datapath.now }
    requires drivers { AreDrivers datapath.now drivers.now }
    ensures { IfOk result (AreTakers datapath.now (length datapath.now.units * most_ports)) }
{
    let units = datapath.units.len();
    let mut takers = List::with_capacity(alloc, units * PORTS)?;
    for place in 0..units * PORTS {
        takers.push(takers_of(drivers, units, (place / PORTS) as u8, place % PORTS))?;
    }
    Ok(takers)
}

pub(crate) fn wiring_of(alloc: Global, datapath: &Datapath) -> Result<Wiring, AllocError>
    requires { IsDatapath datapath.now }
    ensures { IfOk result (IsWiring datapath.now) }
{
    let drivers = all_drivers(alloc, datapath)?;
    let takers = all_takers(alloc, datapath, &drivers)?;
    Ok(Wiring {
        kinds: Kinds::of(datapath),
        drivers,
        takers,
    })
}
