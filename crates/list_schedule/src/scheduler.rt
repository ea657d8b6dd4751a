//! The schedule of a graph whose nodes are bound to units.

ghost use Rattle.std.specs.Prelude.{◌≡◌, ◌⊎◌, IfOk, IfErr, Ok, Err};
ghost use Rattle.datapath.specs.Allowed.{IsDatapath};
ghost use Rattle.plan_core.specs.ListSchedule.{IsListSchedule};
ghost use Rattle.plan_core.specs.declared.schedule.Schedule as of_schedule;
ghost use Rattle.schedule_priority.specs.Schedulable.{IsSchedulable};
ghost use Rattle.list_schedule.specs.Faults.{IsPeriodFault};
ghost use Rattle.list_schedule.specs.declared.fault.PeriodFault as of_fault;
ghost use Rattle.list_schedule.specs.declared.fault.PeriodFault.TheVariants.{Memory};

use crate::fault::PeriodFault;
use crate::placing::slots_of;
use datapath::Datapath;
use plan_core::{Assigned, Schedule};
use schedule_priority::{Destinations, Problem, placing_order};
use std::alloc::Global;

/// Places the nodes by falling height, then by number, each at the least cycle at which it can be issued. Cycles count
/// from the start of the sample. Page `docs/PLANNING.md`, "Cycles".
///
/// # Errors
///
/// `Period` with the first node, in the order in which nodes are placed, that can be issued at no cycle of the period.
/// `Memory` where no memory is left.
pub fn schedule(
    alloc: Global,
    assigned: &Assigned,
    datapath: &Datapath,
) -> Result<Schedule, PeriodFault>
    requires datapath { IsDatapath datapath.now }
    requires schedulable { IsSchedulable datapath.now assigned.now }
    ensures schedule { IfOk result (IsListSchedule datapath.now assigned.now) }
    ensures fault { IfErr result (λ fault. (fault ≡ Memory) ⊎ IsPeriodFault datapath.now assigned.now fault) }
    // The one schedule is always found, unless memory runs out.
    ensures found { (s : of_schedule.Schedule) → IsListSchedule datapath.now assigned.now s
        → (result ≡ Ok s) ⊎ (result ≡ Err Memory) }
    // So is the first node without a cycle.
    ensures refused { (fault : of_fault.PeriodFault) → IsPeriodFault datapath.now assigned.now fault
        → (result ≡ Err fault) ⊎ (result ≡ Err Memory) }
{
    let problem = Problem { datapath, assigned };
    let order = placing_order(alloc, &problem)?;
    let destinations = Destinations::new(alloc, &problem)?;
    let slots = slots_of(alloc, &problem, &order, &destinations)?;
    Ok(Schedule { slots })
}
