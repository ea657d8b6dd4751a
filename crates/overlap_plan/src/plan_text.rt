//! The schedule of a plan over several stages as text.

ghost use Rattle.std.specs.Prelude.{◌≡◌, ◌++◌, IfOk, OnOk};
ghost use Rattle.datapath.specs.Allowed.{IsDatapath};
ghost use Rattle.overlap_plan.specs.StagePlanned.{IsStagePlanned};
ghost use Rattle.overlap_plan.specs.StageText as spec;
ghost use Rattle.overlap_plan.specs.StageText.{head_line};

use crate::guard_fault::GuardFault;
use crate::plan::StagePlan;
use datapath::Datapath;
use lists::{Bytes, List};
use microcode_asm::{Printed, put_node_lines, put_number};
use std::alloc::{AllocError, Global};

/// Adds the head line.
#[tactic(auto, unfolding(crate::specs::StageText::head_line))]
fn put_head(out: &mut Bytes, datapath: &Datapath, plan: &StagePlan) -> Result<(), AllocError>
    ensures { OnOk result (out.new ≡ out.old ++ head_line datapath.now plan.now) }
{
    put_number(out, b"period ", u64::from(datapath.period))?;
    put_number(out, b" stages ", u64::from(plan.stages))?;
    put_number(out, b" unroll ", u64::from(plan.unroll))?;
    put_number(out, b" nodes ", plan.assigned.lowered.nodes.len() as u64)?;
    Ok(out.push(b'\n')?)
}

/// The schedule of a plan over several stages as text: its period, its stages, its unroll factor, and a line for each
/// node. Cycles count from the start of the sample. Page `docs/PLANNING.md`, "Overlapped samples".
///
/// # Errors
///
/// `Memory` where no memory is left.
#[tactic(auto, unfolding(crate::specs::StageText::stage_text))]
pub fn stage_text(alloc: Global, plan: &StagePlan, datapath: &Datapath) -> Result<Bytes, GuardFault>
    requires datapath { IsDatapath datapath.now }
    requires plan { IsStagePlanned datapath.now plan.now }
    ensures { IfOk result (λ text. text ≡ spec.stage_text datapath.now plan.now) }
{
    let mut out = List::new(alloc);
    put_head(&mut out, datapath, plan)?;
    let printed = Printed {
        datapath,
        assigned: &plan.assigned,
        schedule: &plan.schedule,
        arcs: &plan.arcs,
        registers: &plan.registers,
    };
    put_node_lines(&mut out, &printed)?;
    Ok(out)
}
