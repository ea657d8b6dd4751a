//! The placing of nodes at their places over several stages, one after another.

ghost use Rattle.std.specs.Prelude.{◌≡◌, ◌<◌, ◌⊎◌, ◌↔◌, ◌+◌, ◌≤◌, length, All, IsTrue, IfOk, IfErr, OnOk};
ghost use Rattle.plan_core.specs.Hardware.{latency_on};
ghost use Rattle.plan_core.specs.ListSchedule.{AreDestinations};
ghost use Rattle.bus_alloc.specs.Table.{HasPort, FitsAround};
ghost use Rattle.schedule_priority.specs.Order.{IsOrderOf};
ghost use Rattle.list_schedule.specs.Placing.{of_slots};
ghost use Rattle.overlap_plan.specs.Staged.{IsSoundStaged, path_of, nodes_on};
ghost use Rattle.placed_stages.specs.StagePlaces.{IsStageScheduleAt};
ghost use Rattle.placed_stages.specs.Private.Placing.{HasTable, Places, ArePlaced, IsOpen, IsObstacle, IsStopped};
ghost use Rattle.placed_stages.specs.Private.Placing.{IsUnplaced};
ghost use Rattle.placed_stages.specs.declared.fault.StagePlaceFault.TheVariants.{Memory};

use crate::fault::StagePlaceFault;
use bus_alloc::ModuloTable;
use datapath::PortRef;
use list_schedule::{no_slots, ready};
use lists::List;
use overlap_plan::Staged;
use placed_plan::Place;
use plan_core::{Schedule, Slot};
use schedule_priority::{Destinations, placing_order};
use std::alloc::Global;

/// The slots of the nodes that are placed, and the reservation table that has them.
#[derive(Drop)]
pub(crate) struct Placing {
    pub slots: List<Slot>,
    pub table: ModuloTable,
}

/// Whether an operation on the unit fits at the cycle, of which it ends before this end, with its result going to
/// these ports.
fn fits_at(table: &ModuloTable, unit: u8, cycle: u16, end: u16, ports: &[PortRef]) -> bool
    requires unit { unit < length table.now.datapath.units }
    requires ports { All (HasPort table.now.datapath) ports.now }
    requires cycle { cycle ≤ 32768 }
    requires end { end ≡ cycle + latency_on table.now.datapath unit }
    ensures { IsTrue result ↔ FitsAround end table.now unit cycle ports.now }
{
    table.first_fit(unit, cycle, end, ports).is_some()
}

/// Refuses node v, which these ports read, where it cannot be issued at the cycle.
fn check_cycle(
    staged: &Staged,
    v: u32,
    cycle: u16,
    ports: &[PortRef],
    placing: &Placing,
) -> Result<(), StagePlaceFault>
    requires staged { IsSoundStaged staged.now }
    requires node { v < length (nodes_on staged.now).lowered.nodes }
    requires ports { AreDestinations (nodes_on staged.now) v ports.now }
    requires table { HasTable staged.now placing.now }
    ensures stands { OnOk result (IsOpen staged.now placing.now v cycle ports.now) }
    ensures fault { IfErr result (IsObstacle staged.now placing.now v cycle ports.now) }
{
    let node = v as usize;
    if ready(&staged.problem, node, &placing.slots) > cycle {
        return Err(StagePlaceFault::Late(v));
    }
    let end = u32::from(cycle) + u32::from(staged.latency(node));
    if end > u32::from(staged.length()) {
        return Err(StagePlaceFault::Past(v));
    }
    let unit = staged.problem.unit(node);
    let gap = staged.problem.datapath.units[usize::from(unit)].gap;
    if u16::from(gap) > staged.problem.datapath.period {
        return Err(StagePlaceFault::Busy(v));
    }
    let end = end as u16;
    if !fits_at(&placing.table, unit, cycle, end, &[]) {
        return Err(StagePlaceFault::Busy(v));
    }
    if !fits_at(&placing.table, unit, cycle, end, ports) {
        return Err(StagePlaceFault::Blocked(v));
    }
    Ok(())
}

/// Places node v, which these ports read, in the cycle of its place.
fn issue(
    staged: &Staged,
    places: &[Place],
    v: u32,
    ports: &[PortRef],
    placing: &mut Placing,
) -> Result<(), StagePlaceFault>
    requires staged { IsSoundStaged staged.now }
    requires node { v < length (nodes_on staged.now).lowered.nodes }
    requires places { length places.now ≡ length (nodes_on staged.now).lowered.nodes }
    requires ports { AreDestinations (nodes_on staged.now) v ports.now }
    requires table { HasTable staged.now placing.old }
    ensures placed { OnOk result (Places places.now staged.now v placing.old placing.new) }
    ensures fault { IfErr result (λ fault. (fault ≡ Memory) ⊎ IsStopped places.now staged.now placing.old v fault) }
{
    let node = v as usize;
    let cycle = places[node].cycle;
    check_cycle(staged, v, cycle, ports, placing)?;
    let transfers = placing.table.take(staged.problem.unit(node), cycle, ports)?;
    placing.slots.replace(node, Slot { cycle, transfers });
    Ok(())
}

/// Places node v. What the list of ports has is lost.
fn place(
    staged: &Staged,
    places: &[Place],
    v: u32,
    destinations: &Destinations,
    ports: &mut Vec<PortRef>,
    placing: &mut Placing,
) -> Result<(), StagePlaceFault>
    requires staged { IsSoundStaged staged.now }
    requires node { v < length (nodes_on staged.now).lowered.nodes }
    requires places { length places.now ≡ length (nodes_on staged.now).lowered.nodes }
    requires destinations { destinations.now ≡ nodes_on staged.now }
    requires table { HasTable staged.now placing.old }
    ensures placed { OnOk result (Places places.now staged.now v placing.old placing.new) }
    ensures fault { IfErr result (λ fault. (fault ≡ Memory) ⊎ IsStopped places.now staged.now placing.old v fault) }
{
    destinations.list(v, ports)?;
    issue(staged, places, v, ports.as_slice(), placing)
}

/// Places the nodes in this order.
fn place_all(
    alloc: Global,
    staged: &Staged,
    places: &[Place],
    order: &Vec<u32>,
    destinations: &Destinations,
    placing: &mut Placing,
) -> Result<(), StagePlaceFault>
    requires staged { IsSoundStaged staged.now }
    requires places { length places.now ≡ length (nodes_on staged.now).lowered.nodes }
    requires destinations { destinations.now ≡ nodes_on staged.now }
    requires none { ArePlaced places.now staged.now order.now.items 0 placing.old }
    ensures placed { OnOk result (ArePlaced places.now staged.now order.now.items (length order.now.items)
        placing.new) }
    ensures fault { IfErr result (λ fault. (fault ≡ Memory) ⊎ IsUnplaced places.now staged.now.stages (path_of staged.now)
        (nodes_on staged.now) fault) }
{
    let mut ports = Vec::new(alloc);
    for v in order.iter() {
        place(staged, places, *v, destinations, &mut ports, placing)?;
    }
    Ok(())
}

/// The slots of all nodes.
fn slots_of(
    alloc: Global,
    staged: &Staged,
    places: &[Place],
    order: &Vec<u32>,
    destinations: &Destinations,
) -> Result<List<Slot>, StagePlaceFault>
    requires staged { IsSoundStaged staged.now }
    requires places { length places.now ≡ length (nodes_on staged.now).lowered.nodes }
    requires order { IsOrderOf (path_of staged.now) (nodes_on staged.now) order.now.items }
    requires destinations { destinations.now ≡ nodes_on staged.now }
    ensures schedule { IfOk result (λ slots.
        IsStageScheduleAt places.now staged.now.stages (path_of staged.now) (nodes_on staged.now) (of_slots slots)) }
    ensures fault { IfErr result (λ fault. (fault ≡ Memory) ⊎ IsUnplaced places.now staged.now.stages (path_of staged.now)
        (nodes_on staged.now) fault) }
{
    let mut placing = Placing {
        slots: no_slots(alloc, staged.problem.count())?,
        table: ModuloTable::new(alloc, staged.problem.datapath)?,
    };
    place_all(alloc, staged, places, order, destinations, &mut placing)?;
    Ok(placing.slots)
}

/// The schedule with each node in the cycle of its place. The nodes take their units, register files and buses in the
/// order of a list schedule, so that the places of one give its transfers.
pub(crate) fn stage_schedule_at(
    alloc: Global,
    staged: &Staged,
    places: &[Place],
) -> Result<Schedule, StagePlaceFault>
    requires staged { IsSoundStaged staged.now }
    requires places { length places.now ≡ length (nodes_on staged.now).lowered.nodes }
    ensures schedule { IfOk result
        (IsStageScheduleAt places.now staged.now.stages (path_of staged.now) (nodes_on staged.now)) }
    ensures fault { IfErr result (λ fault. (fault ≡ Memory) ⊎ IsUnplaced places.now staged.now.stages (path_of staged.now)
        (nodes_on staged.now) fault) }
{
    let order = placing_order(alloc, &staged.problem)?;
    let destinations = Destinations::new(alloc, &staged.problem)?;
    let slots = slots_of(alloc, staged, places, &order, &destinations)?;
    Ok(Schedule { slots })
}
