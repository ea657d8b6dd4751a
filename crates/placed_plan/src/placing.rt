//! The placing of nodes at their places, one after another.

ghost use Rattle.std.specs.Prelude.{◌≡◌, ◌<◌, ◌⊎◌, length, take, IfOk, IfErr, OnOk};
ghost use Rattle.plan_core.specs.ListSchedule.{AreDestinations};
ghost use Rattle.schedule_priority.specs.Parts.{nodes_of, IsSound};
ghost use Rattle.schedule_priority.specs.Order.{IsOrderOf};
ghost use Rattle.list_schedule.specs.Placing.{of_slots};
ghost use Rattle.placed_plan.specs.Places.{IsScheduleAt};
ghost use Rattle.placed_plan.specs.Private.Placing.{HasTable, AreNodes, Places, ArePlaced, Fits, IsInTime, IsObstacle};
ghost use Rattle.placed_plan.specs.Private.Placing.{IsStopped, IsUnplaced};
ghost use Rattle.placed_plan.specs.declared.fault.PlaceFault.TheVariants.{Memory};

use crate::fault::PlaceFault;
use crate::obstacles::{check_ports, late_operand};
use crate::place::Place;
use bus_alloc::Table;
use datapath::PortRef;
use list_schedule::no_slots;
use lists::List;
use plan_core::{Schedule, Slot};
use schedule_priority::{Destinations, Problem, placing_order};
use std::alloc::Global;

/// The slots of the nodes that are placed, and the reservation table that has them.
#[derive(Drop)]
pub(crate) struct Placing {
    pub slots: List<Slot>,
    pub table: Table,
}

/// Refuses node v, which these ports read, where it cannot be issued at the cycle beside the nodes that are placed.
fn check_cycle(
    problem: &Problem,
    placed: &[u32],
    v: u32,
    cycle: u16,
    ports: &[PortRef],
    placing: &Placing,
) -> Result<(), PlaceFault>
    requires problem { IsSound problem.now }
    requires placed { AreNodes problem.now.assigned.now placed.now }
    requires node { v < length (nodes_of problem.now) }
    requires ports { AreDestinations problem.now.assigned.now v ports.now }
    requires table { HasTable problem.now.datapath.now problem.now.assigned.now placing.now }
    ensures in_time { OnOk result (IsInTime problem.now.datapath.now problem.now.assigned.now placing.now v cycle) }
    ensures fits { OnOk result (Fits problem.now.datapath.now problem.now.assigned.now placing.now v cycle
        ports.now) }
    ensures fault { IfErr result (IsObstacle problem.now.datapath.now problem.now.assigned.now placing.now placed.now
        v cycle ports.now) }
{
    let node = v as usize;
    if let Some((operand, from)) = late_operand(problem, node, cycle, &placing.slots) {
        return Err(PlaceFault::Late {
            node: v,
            operand,
            from,
        });
    }
    let end = u32::from(cycle) + u32::from(problem.latency(node));
    if end > u32::from(problem.datapath.period) {
        return Err(PlaceFault::Past(v));
    }
    if !placing.table.fits(problem.unit(node), cycle, &[]) {
        return Err(PlaceFault::Busy(v));
    }
    check_ports(problem, placed, v, cycle, ports, placing)
}

/// Places node v, which these ports read, in the cycle of its place.
fn issue(
    problem: &Problem,
    places: &[Place],
    placed: &[u32],
    v: u32,
    ports: &[PortRef],
    placing: &mut Placing,
) -> Result<(), PlaceFault>
    requires problem { IsSound problem.now }
    requires placed { AreNodes problem.now.assigned.now placed.now }
    requires node { v < length (nodes_of problem.now) }
    requires places { length places.now ≡ length (nodes_of problem.now) }
    requires ports { AreDestinations problem.now.assigned.now v ports.now }
    requires table { HasTable problem.now.datapath.now problem.now.assigned.now placing.old }
    ensures placed { OnOk result (Places places.now problem.now.datapath.now problem.now.assigned.now
        v placing.old placing.new) }
    ensures fault { IfErr result (λ fault. (fault ≡ Memory)
        ⊎ IsStopped places.now problem.now.datapath.now problem.now.assigned.now placing.old placed.now v fault) }
{
    let node = v as usize;
    let cycle = places[node].cycle;
    check_cycle(problem, placed, v, cycle, ports, placing)?;
    let transfers = placing.table.take(problem.unit(node), cycle, ports)?;
    placing.slots.replace(node, Slot { cycle, transfers });
    Ok(())
}

/// Places node v. What the list of ports has is lost.
fn place(
    problem: &Problem,
    places: &[Place],
    placed: &[u32],
    v: u32,
    destinations: &Destinations,
    ports: &mut Vec<PortRef>,
    placing: &mut Placing,
) -> Result<(), PlaceFault>
    requires problem { IsSound problem.now }
    requires placed { AreNodes problem.now.assigned.now placed.now }
    requires node { v < length (nodes_of problem.now) }
    requires places { length places.now ≡ length (nodes_of problem.now) }
    requires destinations { destinations.now ≡ problem.now.assigned.now }
    requires table { HasTable problem.now.datapath.now problem.now.assigned.now placing.old }
    ensures placed { OnOk result (Places places.now problem.now.datapath.now problem.now.assigned.now
        v placing.old placing.new) }
    ensures fault { IfErr result (λ fault. (fault ≡ Memory)
        ⊎ IsStopped places.now problem.now.datapath.now problem.now.assigned.now placing.old placed.now v fault) }
{
    destinations.list(v, ports)?;
    issue(problem, places, placed, v, ports.as_slice(), placing)
}

/// Places the nodes in this order.
fn place_all(
    alloc: Global,
    problem: &Problem,
    places: &[Place],
    order: &[u32],
    destinations: &Destinations,
    placing: &mut Placing,
) -> Result<(), PlaceFault>
    requires problem { IsSound problem.now }
    requires places { length places.now ≡ length (nodes_of problem.now) }
    requires destinations { destinations.now ≡ problem.now.assigned.now }
    requires none { ArePlaced places.now problem.now.datapath.now problem.now.assigned.now order.now 0 placing.old }
    ensures placed { OnOk result (ArePlaced places.now problem.now.datapath.now problem.now.assigned.now
        order.now (length order.now) placing.new) }
    ensures fault { IfErr result (λ fault. (fault ≡ Memory)
        ⊎ IsUnplaced places.now problem.now.datapath.now problem.now.assigned.now fault) }
{
    let mut ports = Vec::new(alloc);
    for k in 0..order.len() {
        let placed = order.split_at(k).0;
        place(
            problem,
            places,
            placed,
            order[k],
            destinations,
            &mut ports,
            placing,
        )?;
    }
    Ok(())
}

/// The slots of all nodes.
fn slots_of(
    alloc: Global,
    problem: &Problem,
    places: &[Place],
    order: &[u32],
    destinations: &Destinations,
) -> Result<List<Slot>, PlaceFault>
    requires problem { IsSound problem.now }
    requires places { length places.now ≡ length (nodes_of problem.now) }
    requires order { IsOrderOf problem.now.datapath.now problem.now.assigned.now order.now }
    requires destinations { destinations.now ≡ problem.now.assigned.now }
    ensures schedule { IfOk result (λ slots.
        IsScheduleAt places.now problem.now.datapath.now problem.now.assigned.now (of_slots slots)) }
    ensures fault { IfErr result (λ fault. (fault ≡ Memory)
        ⊎ IsUnplaced places.now problem.now.datapath.now problem.now.assigned.now fault) }
{
    let mut placing = Placing {
        slots: no_slots(alloc, problem.count())?,
        table: Table::new(alloc, problem.datapath)?,
    };
    place_all(alloc, problem, places, order, destinations, &mut placing)?;
    Ok(placing.slots)
}

/// The schedule with each node in the cycle of its place. The nodes take their units, register files and buses in the
/// order of a list schedule, so that the places of one give its transfers.
pub(crate) fn schedule_at(
    alloc: Global,
    problem: &Problem,
    places: &[Place],
) -> Result<Schedule, PlaceFault>
    requires problem { IsSound problem.now }
    requires places { length places.now ≡ length (nodes_of problem.now) }
    ensures schedule { IfOk result (IsScheduleAt places.now problem.now.datapath.now problem.now.assigned.now) }
    ensures fault { IfErr result (λ fault. (fault ≡ Memory)
        ⊎ IsUnplaced places.now problem.now.datapath.now problem.now.assigned.now fault) }
{
    let order = placing_order(alloc, problem)?;
    let destinations = Destinations::new(alloc, problem)?;
    let slots = slots_of(alloc, problem, places, order.as_slice(), &destinations)?;
    Ok(Schedule { slots })
}
