//! Nodes on the units of their places.

ghost use Rattle.std.specs.Prelude.{◌≡◌, ◌⊎◌, ◌<◌, ◌^◌, ◌↔◌, length, IsTrue, IfOk, IfErr, OnOk};
ghost use Rattle.plan_core.specs.Operands.{node_of};
ghost use Rattle.plan_core.specs.Assigned.{IsForRam, IsRightUnit};
ghost use Rattle.placed_plan.specs.Places.{CanBeOn, place_of};
ghost use Rattle.placed_plan.specs.Private.Units.{AreFirstUnits, IsUnfit, IsMisplaced};
ghost use Rattle.placed_plan.specs.declared.fault.PlaceFault.TheVariants.{Memory};

use crate::fault::PlaceFault;
use crate::place::Place;
use datapath::{Datapath, Kind};
use fix_word::Op;
use lists::List;
use plan_core::Lowered;
use signal_graph::Node;
use std::alloc::Global;

/// Whether a unit is meant for the ram of a node.
fn is_for_ram(datapath: &Datapath, node: &Node, unit: u8) -> bool
    requires { unit < length datapath.now.units }
    ensures { IsTrue result ↔ IsForRam datapath.now node.now.op node.now.ram unit }
{
    match node.op {
        Op::Load | Op::Store => unit == node.ram,
        Op::Addr => datapath.units[usize::from(unit)].ram == node.ram,
        _ => true,
    }
}

/// Whether a unit that is there does the operation of a node.
fn is_right(datapath: &Datapath, node: &Node, unit: u8) -> bool
    requires { unit < length datapath.now.units }
    ensures { IsTrue result ↔ IsRightUnit datapath.now node.now unit }
{
    datapath.units[usize::from(unit)].kind == Kind::of(node.op) && is_for_ram(datapath, node, unit)
}

/// Whether the unit is there and does the operation of the node.
pub fn is_right_unit(datapath: &Datapath, node: &Node, unit: u8) -> bool
    ensures { IsTrue result ↔ IsRightUnit datapath.now node.now unit }
{
    usize::from(unit) < datapath.units.len() && is_right(datapath, node, unit)
}

/// Refuses a node that cannot be on the unit of its place.
fn check_unit(
    lowered: &Lowered,
    places: &[Place],
    datapath: &Datapath,
    v: usize,
) -> Result<(), PlaceFault>
    requires node { v < length lowered.now.nodes }
    requires place { v < length places.now }
    requires few { length lowered.now.nodes < 2 ^ 32 }
    ensures can { OnOk result (CanBeOn datapath.now (node_of lowered.now.nodes v) (place_of places.now v).unit) }
    ensures fault { IfErr result (IsUnfit places.now datapath.now lowered.now v) }
{
    let node = &lowered.nodes[v];
    if node.width > datapath.word {
        return Err(PlaceFault::TooWide(v as u32));
    }
    if !is_right_unit(datapath, node, places[v].unit) {
        return Err(PlaceFault::WrongUnit(v as u32));
    }
    Ok(())
}

/// The units of the places, of which there is one for each node.
pub(crate) fn units_of(
    alloc: Global,
    lowered: &Lowered,
    places: &[Place],
    datapath: &Datapath,
) -> Result<List<u8>, PlaceFault>
    requires count { length places.now ≡ length lowered.now.nodes }
    requires few { length lowered.now.nodes < 2 ^ 32 }
    ensures count { IfOk result (λ units. length units ≡ length lowered.now.nodes) }
    ensures units { IfOk result (AreFirstUnits places.now datapath.now lowered.now) }
    ensures fault { IfErr result (λ fault. (fault ≡ Memory) ⊎ IsMisplaced places.now datapath.now lowered.now fault) }
{
    let mut units = List::with_capacity(alloc, places.len())?;
    for v in 0..places.len() {
        check_unit(lowered, places, datapath, v)?;
        units.push(places[v].unit)?;
    }
    Ok(units)
}
