//! The bus drives of a cycle of the period.

ghost use Rattle.std.specs.Prelude.{◌<◌, IfOk, OnOk};
ghost use Rattle.std.specs.List.{All};
ghost use Rattle.microcode_asm.specs.Private.Drives.{DrivesBy};
ghost use Rattle.overlap_plan.specs.IsStagePlan.{plan_of};
ghost use Rattle.overlap_sim.specs.Private.Staged.{HasEnables, IsIssuer, drive_in};

use crate::cycles::end_stage_of;
use crate::guarded::Staged;
use crate::issues::Issuer;
use lists::List;
use micro_image::Enable;
use microcode_asm::buses_of;
use overlap_plan::GuardFault;
use plan_core::Transfer;
use std::alloc::Global;

/// Adds a drive in a stage for each bus that a result is transferred over, by bus.
fn drive(
    enables: &mut List<Staged<Enable>>,
    unit: u8,
    stage: u8,
    transfers: &[Transfer],
) -> Result<(), GuardFault>
    requires { All (λ transfer. transfer.bus < 32) transfers.now }
    ensures { OnOk result (DrivesBy (drive_in unit stage) transfers.now enables.old enables.new) }
{
    let mut left = buses_of(transfers);
    while let Some(bus) = left.pop_first() {
        enables.push(Staged {
            part: Enable { unit, bus },
            stage,
        })?;
    }
    Ok(())
}

/// The bus drives of cycle c of each machine sample.
pub(crate) fn enables(
    alloc: Global,
    issuer: &Issuer,
    c: usize,
) -> Result<List<Staged<Enable>>, GuardFault>
    requires issuer { IsIssuer issuer.now }
    requires cycle { c < issuer.now.datapath.now.period }
    ensures { IfOk result (HasEnables issuer.now.datapath.now (plan_of issuer.now.plan.now) c) }
{
    let mut enables = List::new(alloc);
    let mut i = issuer.ended.first[c];
    while i < issuer.order.len() {
        let v = issuer.order[i];
        let stage = end_stage_of(issuer.plan, issuer.datapath, v);
        let slot = &issuer.plan.schedule.slots[v];
        drive(
            &mut enables,
            issuer.plan.assigned.units[v],
            stage,
            slot.transfers.as_slice(),
        )?;
        i = issuer.ended.next[i];
    }
    Ok(enables)
}
