//! The words with which cells start.

ghost use Rattle.std.specs.Prelude.{◌≡◌, ◌+◌, ◌<◌, length, IfOk};
ghost use Rattle.plan_soundness.specs.Parts.{lines_of};
ghost use Rattle.overlap_plan.specs.IsStagePlan.{plan_of};
ghost use Rattle.overlap_sim.specs.Private.Staged.{IsStageReady};
ghost use Rattle.overlap_sim.specs.Private.Cells.{AreCellsStarted};

use datapath::Datapath;
use lists::List;
use micro_image::UnitDesc;
use microcode_asm::{blank_units, write_cell};
use overlap_plan::{GuardFault, StagePlan};
use std::alloc::Global;

/// The word itself. As a result it is known to fit.
fn word_of(word: &i64) -> i64
    ensures { result ≡ word.now }
{
    *word
}

/// Puts the initial values of a node that are read from delay line l into its cells.
fn start_cells(plan: &StagePlan, datapath: &Datapath, l: usize, units: &mut List<UnitDesc>)
    requires ready { IsStageReady datapath.now plan.now }
    requires there { l < length (lines_of (plan_of plan.now)) }
    requires started { AreCellsStarted datapath.now (plan_of plan.now) l units.old }
    ensures { AreCellsStarted datapath.now (plan_of plan.now) (l + 1) units.new }
{
    let line = plan.assigned.lowered.lines[l];
    for (ago, word) in plan.assigned.lowered.nodes[line.node as usize].inits.iter() {
        if *ago > 0 && *ago <= line.depth {
            write_cell(
                units,
                line.ram,
                line.offset as usize + usize::from(*ago),
                word_of(word),
            );
        }
    }
}

/// The units of the guarded image. Registers start with 0, since no lifetime keeps a word of before sample 0.
pub(crate) fn units(
    alloc: Global,
    plan: &StagePlan,
    datapath: &Datapath,
) -> Result<List<UnitDesc>, GuardFault>
    requires { IsStageReady datapath.now plan.now }
    ensures { IfOk result (AreCellsStarted datapath.now (plan_of plan.now) (length (lines_of (plan_of plan.now)))) }
{
    let mut units = blank_units(alloc, datapath)?;
    for l in 0..plan.assigned.lowered.lines.len() {
        start_cells(plan, datapath, l, &mut units);
    }
    Ok(units)
}
