//! Nodes on the units of their places.

ghost use Rattle.std.specs.Prelude.{◌≡◌, ◌⊎◌, ◌<◌, ◌^◌, length, IfOk, IfErr, OnOk};
ghost use Rattle.plan_core.specs.Operands.{node_of};
ghost use Rattle.placed_plan.specs.Places.{CanBeOn, place_of, AreOnGivenUnits};
ghost use Rattle.placed_plan.specs.Private.Units.{AreFirstUnits};
ghost use Rattle.placed_stages.specs.Private.Units.{IsMiscounted, IsUnfit, IsMisplaced, IsUngiven, bound};
ghost use Rattle.placed_stages.specs.declared.fault.StagePlaceFault.TheVariants.{Memory};

use crate::fault::StagePlaceFault;
use datapath::Datapath;
use lists::List;
use placed_plan::{Place, is_right_unit};
use plan_core::Lowered;
use std::alloc::Global;

/// Refuses places that are not as many as the nodes.
fn check_count(nodes: usize, places: usize) -> Result<(), StagePlaceFault>
    requires { nodes < 2 ^ 32 }
    ensures same { OnOk result (places ≡ nodes) }
    ensures fault { IfErr result (IsMiscounted places nodes) }
{
    if places < nodes {
        return Err(StagePlaceFault::Missing(places as u32));
    }
    if nodes < places {
        return Err(StagePlaceFault::Surplus(nodes as u32));
    }
    Ok(())
}

/// Refuses a node that cannot be on the unit of its place.
fn check_unit(
    lowered: &Lowered,
    places: &[Place],
    datapath: &Datapath,
    v: usize,
) -> Result<(), StagePlaceFault>
    requires node { v < length lowered.now.nodes }
    requires place { v < length places.now }
    requires few { length lowered.now.nodes < 2 ^ 32 }
    ensures can { OnOk result (CanBeOn datapath.now (node_of lowered.now.nodes v) (place_of places.now v).unit) }
    ensures fault { IfErr result (IsUnfit places.now datapath.now lowered.now v) }
{
    let node = &lowered.nodes[v];
    if node.width > datapath.word {
        return Err(StagePlaceFault::TooWide(v as u32));
    }
    if !is_right_unit(datapath, node, places[v].unit) {
        return Err(StagePlaceFault::WrongUnit(v as u32));
    }
    Ok(())
}

/// The units of the places, of which there is one for each node.
fn units_of(
    alloc: Global,
    lowered: &Lowered,
    places: &[Place],
    datapath: &Datapath,
) -> Result<List<u8>, StagePlaceFault>
    requires count { length places.now ≡ length lowered.now.nodes }
    requires few { length lowered.now.nodes < 2 ^ 32 }
    ensures count { IfOk result (λ units. length units ≡ length lowered.now.nodes) }
    ensures units { IfOk result (AreFirstUnits places.now datapath.now lowered.now) }
    ensures fault { IfErr result (λ fault. (fault ≡ Memory) ⊎ IsMisplaced places.now datapath.now lowered.now fault) }
{
    let mut units = List::with_capacity(alloc, places.len())?;
    for v in 0..places.len() {
        check_unit(lowered, places, datapath, v)?;
        units.push(places[v].unit)?;
    }
    Ok(units)
}

/// The units of the places, one for each node.
pub(crate) fn units_at(
    alloc: Global,
    lowered: &Lowered,
    places: &[Place],
    datapath: &Datapath,
) -> Result<List<u8>, StagePlaceFault>
    requires few { length lowered.now.nodes < 2 ^ 32 }
    ensures units { IfOk result (λ units. AreOnGivenUnits places.now datapath.now (bound lowered.now units)) }
    ensures fault { IfErr result (λ fault. (fault ≡ Memory) ⊎ IsUngiven places.now datapath.now lowered.now fault) }
{
    check_count(lowered.nodes.len(), places.len())?;
    units_of(alloc, lowered, places, datapath)
}
