//! The image of a plan.

ghost use Rattle.std.specs.Prelude.{◌≡◌, map, IfOk};
ghost use Rattle.datapath.specs.Allowed.{IsDatapath};
ghost use Rattle.signal_graph.specs.GraphRules.{IsGraph};
ghost use Rattle.signal_graph.specs.declared.graph.Graph.{Graph};
ghost use Rattle.plan_core.specs.IsPlan.{IsPlan};
ghost use Rattle.micro_image.specs.Size.{IsShort};
ghost use Rattle.micro_image.specs.Valid.{IsValid};
ghost use Rattle.plan_soundness.specs.Feasible.{IsFeasiblePlan};
ghost use Rattle.plan_soundness.specs.ImageOf.{IsImageOf, width_of as width_in_file};
ghost use Rattle.plan_soundness.specs.Instances.{FindsInstances};
ghost use Rattle.plan_soundness.specs.Run.{RunsSolution};
ghost use Rattle.microcode_asm.specs.Planned.{IsPlanned, IsAssemblable};
ghost use Rattle.microcode_asm.specs.Private.Ready.{IsReady};

use crate::fault::AsmFault;
use crate::starts::units;
use crate::words::words;
use datapath::Datapath;
use fix_word::SigType;
use lists::List;
use micro_image::Image;
use plan_core::Plan;
use std::alloc::{AllocError, Global};

/// The width of a word of the type in a microcode file.
fn width_of(sig: SigType) -> u8
    ensures { result ≡ width_in_file sig }
{
    match sig {
        SigType::Fix(fix) => fix.shape.w,
        SigType::Bool => 0,
    }
}

/// The widths of words of the types in a microcode file.
///
/// # Errors
///
/// `AllocError` where no memory is left.
pub fn widths_of(alloc: Global, types: &List<SigType>) -> Result<List<u8>, AllocError>
    ensures { IfOk result (λ widths. widths ≡ map width_in_file types.now) }
{
    let mut widths = List::with_capacity(alloc, types.len())?;
    for sig in types.iter() {
        widths.push(width_of(*sig))?;
    }
    Ok(widths)
}

fn image_of(alloc: Global, plan: &Plan, datapath: &Datapath) -> Result<Image, AsmFault>
    requires { IsReady datapath.now plan.now }
    ensures { IfOk result (IsImageOf datapath.now plan.now) }
{
    Ok(Image {
        period: datapath.period,
        unroll: plan.unroll,
        inputs: widths_of(alloc, &plan.inputs)?,
        outs: plan.outs,
        units: units(alloc, plan, datapath)?,
        buses: datapath.buses.len() as u8,
        words: words(alloc, plan, datapath)?,
    })
}

/// The image of a feasible plan, whose units and cycles may have been chosen by any rule.
///
/// # Errors
///
/// `Memory` where no memory is left.
pub fn assemble_feasible(alloc: Global, plan: &Plan, datapath: &Datapath) -> Result<Image, AsmFault>
    requires datapath { IsDatapath datapath.now }
    requires plan { IsAssemblable datapath.now plan.now }
    ensures image { IfOk result (IsImageOf datapath.now plan.now) }
    ensures valid { IfOk result IsValid }
    ensures short { IfOk result IsShort }
    // The image runs the solution.
    ensures runs { (g : Graph) → IsGraph g → IsFeasiblePlan g datapath.now plan.now → IfOk result (RunsSolution g) }
{
    image_of(alloc, plan, datapath)
}

/// The image of a plan: a microword for each cycle until the microprogram repeats, and the words with which registers
/// and cells start. Page `docs/PLANNING.md`, "The image".
///
/// # Errors
///
/// `Memory` where no memory is left.
pub fn assemble(alloc: Global, plan: &Plan, datapath: &Datapath) -> Result<Image, AsmFault>
    requires datapath { IsDatapath datapath.now }
    requires plan { IsPlanned datapath.now plan.now }
    ensures image { IfOk result (IsImageOf datapath.now plan.now) }
    ensures valid { IfOk result IsValid }
    ensures short { IfOk result IsShort }
    // The image runs the solution.
    ensures runs { (g : Graph) → IsGraph g → IsPlan g datapath.now plan.now → IfOk result (RunsSolution g) }
    // Each read finds its instance.
    ensures finds { (g : Graph) → IsGraph g → (of : IsPlan g datapath.now plan.now) → IfOk result (FindsInstances of) }
{
    image_of(alloc, plan, datapath)
}
