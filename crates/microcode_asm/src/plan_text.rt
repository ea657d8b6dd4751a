//! The schedule of a plan as text.

ghost use Rattle.std.specs.Prelude.{◌≡◌, ◌++◌, IfOk, OnOk};
ghost use Rattle.datapath.specs.Allowed.{IsDatapath};
ghost use Rattle.microcode_asm.specs.Planned.{IsPlanned};
ghost use Rattle.microcode_asm.specs.ScheduleText as spec;
ghost use Rattle.microcode_asm.specs.ScheduleText.{head_line};
ghost use Rattle.microcode_asm.specs.Printable.{IsPrintable, node_lines};

use crate::fault::AsmFault;
use crate::node_line::put_node;
use crate::printed::Printed;
use crate::text::put_number;
use datapath::Datapath;
use fix_word::Bytes;
use lists::List;
use plan_core::Plan;
use std::alloc::{AllocError, Global};

/// Adds the head line.
#[tactic(auto, unfolding(crate::specs::ScheduleText::head_line))]
fn put_head(out: &mut Bytes, datapath: &Datapath, plan: &Plan) -> Result<(), AllocError>
    ensures { OnOk result (out.new ≡ out.old ++ head_line datapath.now plan.now) }
{
    put_number(out, b"period ", u64::from(datapath.period))?;
    put_number(out, b" unroll ", u64::from(plan.unroll))?;
    put_number(out, b" nodes ", plan.assigned.lowered.nodes.len() as u64)?;
    Ok(out.push(b'\n')?)
}

/// Adds a line for each node, by number: the text of a schedule below its head line. Page `docs/PLANNING.md`, "The text
/// of a schedule".
///
/// # Errors
///
/// An error where no memory is left. Some of the text may be added then.
pub fn put_node_lines(out: &mut Bytes, printed: &Printed) -> Result<(), AllocError>
    requires { IsPrintable printed.now }
    ensures { OnOk result (out.new ≡ out.old ++ node_lines printed.now) }
{
    for v in 0..printed.assigned.lowered.nodes.len() {
        put_node(out, printed, v)?;
    }
    Ok(())
}

/// The schedule of a plan as text: its period, its unroll factor, and a line for each node. Page `docs/PLANNING.md`,
/// "The text of a schedule".
///
/// # Errors
///
/// `Memory` where no memory is left.
#[tactic(auto, unfolding(crate::specs::ScheduleText::schedule_text))]
pub fn schedule_text(alloc: Global, plan: &Plan, datapath: &Datapath) -> Result<Bytes, AsmFault>
    requires datapath { IsDatapath datapath.now }
    requires plan { IsPlanned datapath.now plan.now }
    ensures { IfOk result (λ text. text ≡ spec.schedule_text datapath.now plan.now) }
{
    let mut out = List::new(alloc);
    put_head(&mut out, datapath, plan)?;
    let printed = Printed {
        datapath,
        assigned: &plan.assigned,
        schedule: &plan.schedule,
        arcs: &plan.arcs,
        registers: &plan.registers,
    };
    put_node_lines(&mut out, &printed)?;
    Ok(out)
}
