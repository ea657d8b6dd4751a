//! The placing of nodes, one after another.

ghost use Rattle.std.specs.Prelude.{◌≡◌, ◌<◌, ◌≤◌, ◌⊎◌, ℕ, length, replicate, IfOk, IfErr, OnOk};
ghost use Rattle.plan_core.specs.ListSchedule.{no_slot, AreDestinations, IsListSchedule};
ghost use Rattle.list_schedule.specs.Faults.{IsPeriodFault};
ghost use Rattle.schedule_priority.specs.Parts.{nodes_of, IsSound};
ghost use Rattle.schedule_priority.specs.Order.{IsOrderOf};
ghost use Rattle.list_schedule.specs.Placing.{slot_at, of_slots, last_cycle, IsFirstReady};
ghost use Rattle.list_schedule.specs.Private.Placing.{HasTable, IsFirstOpen, Places, HasNoCycle, ArePlaced};
ghost use Rattle.list_schedule.specs.declared.fault.PeriodFault.TheVariants.{Period, Memory};

use crate::fault::PeriodFault;
use bus_alloc::Table;
use datapath::PortRef;
use lists::List;
use plan_core::{Slot, Transfers};
use schedule_priority::{Destinations, Problem};
use std::alloc::{AllocError, Global};

/// The slots of the nodes that are placed, and the reservation table that has them.
#[derive(Drop)]
pub(crate) struct Placing {
    pub slots: List<Slot>,
    pub table: Table,
}

/// The first cycle at which the operands of node v of the same sample are there, where these are the slots of the nodes
/// that are placed.
pub fn ready(problem: &Problem, v: usize, slots: &List<Slot>) -> u16
    requires problem { IsSound problem.now }
    requires node { v < length (nodes_of problem.now) }
    requires count { length slots.now ≡ length (nodes_of problem.now) }
    requires early { (x : ℕ) → (slot_at slots.now x).cycle ≤ last_cycle }
    ensures { IsFirstReady problem.now.datapath.now problem.now.assigned.now slots.now v result }
{
    let mut ready = 0;
    for edge in problem.node(v).edges.iter() {
        if edge.delay == 0 {
            let x = edge.node as usize;
            ready = ready.max(slots[x].cycle + u16::from(problem.latency(x)));
        }
    }
    ready
}

/// The first cycle at which node v can be issued.
fn cycle_for(problem: &Problem, v: usize, ports: &[PortRef], placing: &Placing) -> Option<u16>
    requires problem { IsSound problem.now }
    requires node { v < length (nodes_of problem.now) }
    requires ports { AreDestinations problem.now.assigned.now v ports.now }
    requires table { HasTable problem.now.datapath.now problem.now.assigned.now placing.now }
    ensures { IsFirstOpen problem.now.datapath.now problem.now.assigned.now placing.now.slots placing.now.table v
        ports.now result }
{
    let from = ready(problem, v, &placing.slots);
    if from > problem.datapath.period {
        return None;
    }
    placing.table.first_fit(problem.unit(v), from, ports)
}

/// Places node v, which these ports read, in the first cycle at which it can be issued.
fn issue(
    problem: &Problem,
    v: u32,
    ports: &[PortRef],
    placing: &mut Placing,
) -> Result<(), PeriodFault>
    requires problem { IsSound problem.now }
    requires node { v < length (nodes_of problem.now) }
    requires ports { AreDestinations problem.now.assigned.now v ports.now }
    requires table { HasTable problem.now.datapath.now problem.now.assigned.now placing.old }
    ensures placed { OnOk result (Places problem.now.datapath.now problem.now.assigned.now v placing.old placing.new) }
    ensures fault { IfErr result (λ fault. (fault ≡ Memory) ⊎ ((fault ≡ Period v)
        × HasNoCycle problem.now.datapath.now problem.now.assigned.now v placing.old)) }
{
    let node = v as usize;
    let cycle = match cycle_for(problem, node, ports, placing) {
        Some(cycle) => cycle,
        None => return Err(PeriodFault::Period(v)),
    };
    let unit = problem.unit(node);
    let transfers = placing.table.take(unit, cycle, ports)?;
    placing.slots.replace(node, Slot { cycle, transfers });
    Ok(())
}

/// Places node v. What the list of ports has is lost.
fn place(
    problem: &Problem,
    v: u32,
    destinations: &Destinations,
    ports: &mut Vec<PortRef>,
    placing: &mut Placing,
) -> Result<(), PeriodFault>
    requires problem { IsSound problem.now }
    requires node { v < length (nodes_of problem.now) }
    requires destinations { destinations.now ≡ problem.now.assigned.now }
    requires table { HasTable problem.now.datapath.now problem.now.assigned.now placing.old }
    ensures placed { OnOk result (Places problem.now.datapath.now problem.now.assigned.now v placing.old placing.new) }
    ensures fault { IfErr result (λ fault. (fault ≡ Memory) ⊎ ((fault ≡ Period v)
        × HasNoCycle problem.now.datapath.now problem.now.assigned.now v placing.old)) }
{
    destinations.list(v, ports)?;
    issue(problem, v, ports.as_slice(), placing)
}

/// Places the nodes in this order.
fn place_all(
    alloc: Global,
    problem: &Problem,
    order: &Vec<u32>,
    destinations: &Destinations,
    placing: &mut Placing,
) -> Result<(), PeriodFault>
    requires problem { IsSound problem.now }
    requires destinations { destinations.now ≡ problem.now.assigned.now }
    requires none { ArePlaced problem.now.datapath.now problem.now.assigned.now order.now.items 0 placing.old }
    ensures placed { OnOk result (ArePlaced problem.now.datapath.now problem.now.assigned.now order.now.items
        (length order.now.items) placing.new) }
    ensures fault { IfErr result (λ fault. (fault ≡ Memory)
        ⊎ IsPeriodFault problem.now.datapath.now problem.now.assigned.now fault) }
{
    let mut ports = Vec::new(alloc);
    for v in order.iter() {
        place(problem, *v, destinations, &mut ports, placing)?;
    }
    Ok(())
}

/// As many empty slots.
pub fn no_slots(alloc: Global, count: usize) -> Result<List<Slot>, AllocError>
    ensures { IfOk result (λ slots. slots ≡ replicate count no_slot) }
{
    let mut slots = List::with_capacity(alloc, count)?;
    for _ in 0..count {
        slots.push(Slot {
            cycle: 0,
            transfers: Transfers::new(alloc),
        })?;
    }
    Ok(slots)
}

/// The slots of all nodes.
pub(crate) fn slots_of(
    alloc: Global,
    problem: &Problem,
    order: &Vec<u32>,
    destinations: &Destinations,
) -> Result<List<Slot>, PeriodFault>
    requires problem { IsSound problem.now }
    requires order { IsOrderOf problem.now.datapath.now problem.now.assigned.now order.now.items }
    requires destinations { destinations.now ≡ problem.now.assigned.now }
    ensures schedule { IfOk result
        (λ slots. IsListSchedule problem.now.datapath.now problem.now.assigned.now (of_slots slots)) }
    ensures fault { IfErr result (λ fault. (fault ≡ Memory)
        ⊎ IsPeriodFault problem.now.datapath.now problem.now.assigned.now fault) }
{
    let mut placing = Placing {
        slots: no_slots(alloc, problem.count())?,
        table: Table::new(alloc, problem.datapath)?,
    };
    place_all(alloc, problem, order, destinations, &mut placing)?;
    Ok(placing.slots)
}
