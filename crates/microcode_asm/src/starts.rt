//! The words with which registers and cells start.

ghost use Rattle.std.specs.Prelude.{◌≡◌, ◌<◌, ◌+◌, ◌/◌, length, IfOk};
ghost use Rattle.signal_graph.specs.Rules.{word_before as word_at};
ghost use Rattle.micro_image.specs.declared.image.Image.{Image};
ghost use Rattle.plan_soundness.specs.Parts.{lines_of};
ghost use Rattle.plan_soundness.specs.ImageOf.{IsImageOf};
ghost use Rattle.microcode_asm.specs.Private.Ready.{IsReady};
ghost use Rattle.microcode_asm.specs.Private.Starts.{AreStarted, AreUnitsOf};

use crate::fault::AsmFault;
use crate::issues::copy_ago;
use crate::units::{blank_units, write_cell, write_register};
use datapath::Datapath;
use lists::List;
use micro_image::UnitDesc;
use plan_core::Plan;
use std::alloc::Global;

/// The word of so many samples before sample 0: the initial value there, or 0.
fn word_before(inits: &[(u16, i64)], ago: usize) -> i64
    ensures { result ≡ word_at inits.now ago }
{
    for (k, word) in inits {
        if usize::from(*k) == ago {
            return *word;
        }
    }
    0
}

/// How many whole periods have passed in a cycle that is counted from the start of a sample. Most lifetimes end within
/// the first one, which takes no division to see.
fn periods_until(cycle: u16, period: u16) -> u16
    requires { 0 < period }
    ensures { result ≡ cycle / period }
{
    if cycle < period {
        return 0;
    }
    cycle / period
}

/// Puts the words of before sample 0 that are read through lifetime k into its registers.
fn start_registers(plan: &Plan, datapath: &Datapath, k: usize, units: &mut List<UnitDesc>)
    requires ready { IsReady datapath.now plan.now }
    requires there { k < length plan.now.arcs }
    requires units { AreUnitsOf datapath.now units.old }
    ensures units { AreUnitsOf datapath.now units.new }
    ensures started { (image : Image) → IsImageOf datapath.now plan.now image
        → AreStarted datapath.now plan.now image k 0 units.old
        → AreStarted datapath.now plan.now image (k + 1) 0 units.new }
{
    let arc = plan.arcs[k];
    let inits = plan.assigned.lowered.nodes[arc.node as usize]
        .inits
        .as_slice();
    let most = usize::from(periods_until(arc.r, datapath.period));
    for ago in 1..most + 1 {
        let reg = plan.registers.regs[k][copy_ago(arc.copies, 0, ago)];
        write_register(units, arc.port, reg, word_before(inits, ago));
    }
}

/// The word itself. As a result it is known to fit.
fn word_of(word: &i64) -> i64
    ensures { result ≡ word.now }
{
    *word
}

/// Puts the initial values of a node that are read from delay line l into its cells.
fn start_cells(plan: &Plan, datapath: &Datapath, l: usize, units: &mut List<UnitDesc>)
    requires ready { IsReady datapath.now plan.now }
    requires there { l < length (lines_of plan.now) }
    requires units { AreUnitsOf datapath.now units.old }
    ensures units { AreUnitsOf datapath.now units.new }
    ensures started { (image : Image) → IsImageOf datapath.now plan.now image
        → AreStarted datapath.now plan.now image (length plan.now.arcs) l units.old
        → AreStarted datapath.now plan.now image (length plan.now.arcs) (l + 1) units.new }
{
    let line = plan.assigned.lowered.lines[l];
    for (ago, word) in plan.assigned.lowered.nodes[line.node as usize].inits.iter() {
        if *ago > 0 && *ago <= line.depth {
            write_cell(
                units,
                line.ram,
                line.offset as usize + usize::from(*ago),
                word_of(word),
            );
        }
    }
}

/// The units of the image, with the words with which they start.
pub(crate) fn units(
    alloc: Global,
    plan: &Plan,
    datapath: &Datapath,
) -> Result<List<UnitDesc>, AsmFault>
    requires { IsReady datapath.now plan.now }
    ensures units { IfOk result (AreUnitsOf datapath.now) }
    ensures started { (image : Image) → IsImageOf datapath.now plan.now image
        → IfOk result (AreStarted datapath.now plan.now image (length plan.now.arcs)
        (length (lines_of plan.now))) }
{
    let mut units = blank_units(alloc, datapath)?;
    start_all(plan, datapath, &mut units);
    Ok(units)
}

/// Puts into registers and cells, which hold 0, the words with which they start.
fn start_all(plan: &Plan, datapath: &Datapath, units: &mut List<UnitDesc>)
    requires ready { IsReady datapath.now plan.now }
    requires units { AreUnitsOf datapath.now units.old }
    ensures units { AreUnitsOf datapath.now units.new }
    ensures started { (image : Image) → IsImageOf datapath.now plan.now image
        → AreStarted datapath.now plan.now image 0 0 units.old
        → AreStarted datapath.now plan.now image (length plan.now.arcs) (length (lines_of plan.now)) units.new }
{
    for k in 0..plan.arcs.len() {
        start_registers(plan, datapath, k, units);
    }
    for l in 0..plan.assigned.lowered.lines.len() {
        start_cells(plan, datapath, l, units);
    }
}
