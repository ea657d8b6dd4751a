//! What stands in the way of a node at a cycle.

ghost use Rattle.std.specs.Prelude.{◌≡◌, ◌≢◌, ◌<◌, ◌≤◌, ℕ, [], false, length, All, IsTrue, IfErr, OnOk, MatchOption};
ghost use Rattle.bus_alloc.specs.Table.{HasPort};
ghost use Rattle.schedule_priority.specs.Parts.{nodes_of, IsSound};
ghost use Rattle.list_schedule.specs.Placing.{slot_at, of_slots, last_cycle, IsReadyAt};
ghost use Rattle.placed_plan.specs.Causes.{IsFirstLate};
ghost use Rattle.placed_plan.specs.Private.Placing.{HasTable, AreNodes, Fits, IsInTime, IsFileFreeOf, IsBlockade};
ghost use Rattle.placed_plan.specs.Private.Placing.{IsShut};

use crate::fault::PlaceFault;
use crate::placing::Placing;
use datapath::PortRef;
use lists::List;
use plan_core::{Slot, Transfers};
use schedule_priority::Problem;

/// The first operand of node v of the same sample that is not there at the cycle, and the cycle from which it is there,
/// where these are the slots of the nodes that are placed.
pub(crate) fn late_operand(
    problem: &Problem,
    v: usize,
    cycle: u16,
    slots: &List<Slot>,
) -> Option<(u32, u16)>
    requires problem { IsSound problem.now }
    requires node { v < length (nodes_of problem.now) }
    requires count { length slots.now ≡ length (nodes_of problem.now) }
    requires early { (x : ℕ) → (slot_at slots.now x).cycle ≤ last_cycle }
    ensures { MatchOption result (IsReadyAt problem.now.datapath.now problem.now.assigned.now slots.now v cycle)
        (λ late. IsFirstLate late.0 late.1 problem.now.datapath.now problem.now.assigned.now (of_slots slots.now)
        v cycle) }
{
    for edge in problem.node(v).edges.iter() {
        if edge.delay == 0 {
            let x = edge.node as usize;
            let from = slots[x].cycle + u16::from(problem.latency(x));
            if from > cycle {
                return Some((edge.node, from));
            }
        }
    }
    None
}

/// Whether one of the transfers goes to the port.
fn goes_to(transfers: &Transfers, port: PortRef) -> bool
    ensures to { IsTrue result → All (λ transfer. transfer.port ≢ port) transfers.now → ⊥ }
    ensures none { result ≡ false → All (λ transfer. transfer.port ≢ port) transfers.now }
{
    for transfer in transfers.as_slice() {
        if transfer.port == port {
            return true;
        }
    }
    false
}

/// Whether a result of these nodes is written into the register file of the port in the cycle.
fn is_written(
    problem: &Problem,
    placed: &[u32],
    slots: &List<Slot>,
    cycle: u16,
    port: PortRef,
) -> bool
    requires problem { IsSound problem.now }
    requires placed { AreNodes problem.now.assigned.now placed.now }
    requires count { length slots.now ≡ length (nodes_of problem.now) }
    requires early { (x : ℕ) → (slot_at slots.now x).cycle ≤ last_cycle }
    ensures written { IsTrue result → IsFileFreeOf problem.now.datapath.now problem.now.assigned.now slots.now
        placed.now cycle port → ⊥ }
    ensures free { result ≡ false → IsFileFreeOf problem.now.datapath.now problem.now.assigned.now slots.now
        placed.now cycle port }
{
    for x in placed {
        let node = *x as usize;
        let slot = &slots[node];
        let end = slot.cycle + u16::from(problem.latency(node)) - 1;
        if end == cycle && goes_to(&slot.transfers, port) {
            return true;
        }
    }
    false
}

/// Why the result of node v, which is issued at the cycle, can't be transferred to the port.
fn blockade(
    problem: &Problem,
    placed: &[u32],
    v: u32,
    cycle: u16,
    port: PortRef,
    placing: &Placing,
) -> PlaceFault
    requires problem { IsSound problem.now }
    requires placed { AreNodes problem.now.assigned.now placed.now }
    requires node { v < length (nodes_of problem.now) }
    requires table { HasTable problem.now.datapath.now problem.now.assigned.now placing.now }
    requires in_time { IsInTime problem.now.datapath.now problem.now.assigned.now placing.now v cycle }
    ensures { IsBlockade problem.now.datapath.now problem.now.assigned.now placing.now placed.now v cycle port result }
{
    let end = cycle + u16::from(problem.latency(v as usize)) - 1;
    if is_written(problem, placed, &placing.slots, end, port) {
        PlaceFault::FileWritten {
            unit: port.unit,
            port: port.port,
            node: v,
        }
    } else {
        PlaceFault::NoBus {
            unit: port.unit,
            port: port.port,
            node: v,
        }
    }
}

/// Refuses ports to one of which the result of node v, which is issued at the cycle, can't be transferred. Its unit is
/// free then.
pub(crate) fn check_ports(
    problem: &Problem,
    placed: &[u32],
    v: u32,
    cycle: u16,
    ports: &[PortRef],
    placing: &Placing,
) -> Result<(), PlaceFault>
    requires problem { IsSound problem.now }
    requires placed { AreNodes problem.now.assigned.now placed.now }
    requires node { v < length (nodes_of problem.now) }
    requires ports { All (HasPort placing.now.table.datapath) ports.now }
    requires table { HasTable problem.now.datapath.now problem.now.assigned.now placing.now }
    requires in_time { IsInTime problem.now.datapath.now problem.now.assigned.now placing.now v cycle }
    requires free { Fits problem.now.datapath.now problem.now.assigned.now placing.now v cycle [] }
    ensures fits { OnOk result (Fits problem.now.datapath.now problem.now.assigned.now placing.now v cycle
        ports.now) }
    ensures fault { IfErr result (IsShut problem.now.datapath.now problem.now.assigned.now placing.now placed.now
        v cycle ports.now) }
{
    let unit = problem.unit(v as usize);
    for port in ports {
        if !placing.table.fits(unit, cycle, &[*port]) {
            return Err(blockade(problem, placed, v, cycle, *port, placing));
        }
    }
    Ok(())
}
