//! The placing of nodes over several stages, one after another.

ghost use Rattle.std.specs.Prelude.{◌≡◌, ◌<◌, ◌⊎◌, length, IfOk, IfErr, OnOk};
ghost use Rattle.plan_core.specs.ListSchedule.{AreDestinations};
ghost use Rattle.plan_core.specs.Stages.{IsStageScheduleOver};
ghost use Rattle.schedule_priority.specs.Order.{IsOrderOf};
ghost use Rattle.list_schedule.specs.Placing.{of_slots};
ghost use Rattle.overlap_plan.specs.Staged.{path_of, nodes_on, IsSoundStaged};
ghost use Rattle.overlap_plan.specs.Private.Placing.{Loads, HasTable, IsFirstOpen, Places, HasNoCycle, ArePlaced, IsFault};
ghost use Rattle.list_schedule.specs.declared.fault.PeriodFault.TheVariants.{Period, Memory};

use crate::staged::Staged;
use bus_alloc::ModuloTable;
use datapath::PortRef;
use list_schedule::{PeriodFault, no_slots, ready};
use lists::List;
use plan_core::Slot;
use schedule_priority::Destinations;
use std::alloc::Global;

/// The slots of the nodes that are placed, and the reservation table that has them.
#[derive(Drop)]
pub(crate) struct Placing {
    pub slots: List<Slot>,
    pub table: ModuloTable,
}

/// The first cycle at which node v can be issued. A unit that is not free again a period later can be issued nothing.
fn cycle_for(staged: &Staged, v: usize, ports: &[PortRef], placing: &Placing) -> Option<u16>
    requires staged { IsSoundStaged staged.now }
    requires node { v < length (nodes_on staged.now).lowered.nodes }
    requires ports { AreDestinations (nodes_on staged.now) v ports.now }
    requires table { HasTable staged.now placing.now }
    ensures { IsFirstOpen staged.now placing.now v ports.now result }
{
    let unit = staged.problem.unit(v);
    if u16::from(staged.problem.datapath.units[usize::from(unit)].gap)
        > staged.problem.datapath.period
    {
        return None;
    }
    let from = ready(&staged.problem, v, &placing.slots).max(staged.earliest(v));
    let end = staged.end(v, &placing.slots);
    placing.table.first_fit(unit, from, end, ports)
}

/// Places node v, which these ports read, in the first cycle at which it can be issued.
fn issue(
    staged: &Staged,
    v: u32,
    ports: &[PortRef],
    placing: &mut Placing,
) -> Result<(), PeriodFault>
    requires staged { IsSoundStaged staged.now }
    requires node { v < length (nodes_on staged.now).lowered.nodes }
    requires ports { AreDestinations (nodes_on staged.now) v ports.now }
    requires table { HasTable staged.now placing.old }
    ensures placed { OnOk result (Places staged.now v placing.old placing.new) }
    ensures fault { IfErr result (λ fault. (fault ≡ Memory)
        ⊎ ((fault ≡ Period v) × HasNoCycle staged.now v placing.old)) }
{
    let node = v as usize;
    let cycle = match cycle_for(staged, node, ports, placing) {
        Some(cycle) => cycle,
        None => return Err(PeriodFault::Period(v)),
    };
    let unit = staged.problem.unit(node);
    let transfers = placing.table.take(unit, cycle, ports)?;
    placing.slots.replace(node, Slot { cycle, transfers });
    Ok(())
}

/// Places node v. What the list of ports has is lost.
fn place(
    staged: &Staged,
    v: u32,
    destinations: &Destinations,
    ports: &mut Vec<PortRef>,
    placing: &mut Placing,
) -> Result<(), PeriodFault>
    requires staged { IsSoundStaged staged.now }
    requires node { v < length (nodes_on staged.now).lowered.nodes }
    requires destinations { destinations.now ≡ nodes_on staged.now }
    requires table { HasTable staged.now placing.old }
    ensures placed { OnOk result (Places staged.now v placing.old placing.new) }
    ensures fault { IfErr result (λ fault. (fault ≡ Memory)
        ⊎ ((fault ≡ Period v) × HasNoCycle staged.now v placing.old)) }
{
    destinations.list(v, ports)?;
    issue(staged, v, ports.as_slice(), placing)
}

/// Places the nodes in this order.
fn place_all(
    alloc: Global,
    staged: &Staged,
    order: &Vec<u32>,
    destinations: &Destinations,
    placing: &mut Placing,
) -> Result<(), PeriodFault>
    requires staged { IsSoundStaged staged.now }
    requires destinations { destinations.now ≡ nodes_on staged.now }
    requires none { ArePlaced staged.now order.now.items 0 placing.old }
    ensures placed { OnOk result (ArePlaced staged.now order.now.items (length order.now.items) placing.new) }
    ensures fault { IfErr result (IsFault staged.now) }
{
    let mut ports = Vec::new(alloc);
    for v in order.iter() {
        place(staged, *v, destinations, &mut ports, placing)?;
    }
    Ok(())
}

/// The slots of all nodes.
pub(crate) fn slots_of(
    alloc: Global,
    staged: &Staged,
    order: &Vec<u32>,
    destinations: &Destinations,
) -> Result<List<Slot>, PeriodFault>
    requires staged { IsSoundStaged staged.now }
    requires order { IsOrderOf (path_of staged.now) (nodes_on staged.now) order.now.items }
    requires destinations { destinations.now ≡ nodes_on staged.now }
    ensures schedule { IfOk result (λ slots. IsStageScheduleOver staged.now.stages (Loads (nodes_on staged.now))
        (path_of staged.now) (nodes_on staged.now) (of_slots slots)) }
    ensures fault { IfErr result (IsFault staged.now) }
{
    let mut placing = Placing {
        slots: no_slots(alloc, staged.problem.count())?,
        table: ModuloTable::new(alloc, staged.problem.datapath)?,
    };
    place_all(alloc, staged, order, destinations, &mut placing)?;
    Ok(placing.slots)
}
