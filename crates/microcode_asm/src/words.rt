//! The microwords of a plan.

ghost use Rattle.std.specs.Prelude.{◌<◌, IfOk, OnOk};
ghost use Rattle.plan_soundness.specs.ImageOf.{IsWordOf};
ghost use Rattle.microcode_asm.specs.Private.Ready.{IsReady};
ghost use Rattle.microcode_asm.specs.Private.Words.{IsIssuer, AreBehind, AreWords};

use crate::enables::enables;
use crate::fault::AsmFault;
use crate::issues::Issuer;
use crate::lifetimes::lifetimes_of;
use crate::node_cycles::node_cycles;
use crate::order::unit_order;
use crate::takes::takes;
use datapath::Datapath;
use lists::List;
use micro_image::Word;
use plan_core::Plan;
use std::alloc::Global;

/// The word of cycle c of sample n.
fn word(alloc: Global, issuer: &Issuer, n: usize, c: usize) -> Result<Word, AsmFault>
    requires issuer { IsIssuer issuer.now }
    requires sample { n < issuer.now.plan.now.unroll }
    requires cycle { c < issuer.now.datapath.now.period }
    ensures { IfOk result (IsWordOf issuer.now.datapath.now issuer.now.plan.now n c) }
{
    Ok(Word {
        issues: issuer.issues(alloc, n, c)?,
        enables: enables(alloc, issuer, c)?,
        takes: takes(alloc, issuer, n, c)?,
    })
}

/// Puts the words of sample n behind those before.
fn put_words(
    alloc: Global,
    issuer: &Issuer,
    n: usize,
    words: &mut List<Word>,
) -> Result<(), AsmFault>
    requires issuer { IsIssuer issuer.now }
    requires sample { n < issuer.now.plan.now.unroll }
    ensures { OnOk result (AreBehind issuer.now.datapath.now issuer.now.plan.now n issuer.now.datapath.now.period
        words.old words.new) }
{
    for c in 0..usize::from(issuer.datapath.period) {
        words.push(word(alloc, issuer, n, c)?)?;
    }
    Ok(())
}

/// The words of the samples until the microprogram repeats.
fn words_of(alloc: Global, issuer: &Issuer) -> Result<List<Word>, AsmFault>
    requires { IsIssuer issuer.now }
    ensures { IfOk result
        (AreWords issuer.now.datapath.now issuer.now.plan.now issuer.now.plan.now.unroll) }
{
    let unroll = usize::from(issuer.plan.unroll);
    let mut words = List::with_capacity(alloc, unroll * usize::from(issuer.datapath.period))?;
    for n in 0..unroll {
        put_words(alloc, issuer, n, &mut words)?;
    }
    Ok(words)
}

/// The words of a plan.
pub(crate) fn words(alloc: Global, plan: &Plan, datapath: &Datapath) -> Result<List<Word>, AsmFault>
    requires { IsReady datapath.now plan.now }
    ensures { IfOk result (AreWords datapath.now plan.now plan.now.unroll) }
{
    let order = unit_order(alloc, &plan.assigned, datapath)?;
    let nodes = plan.assigned.lowered.nodes.len();
    let lifetimes = lifetimes_of(alloc, &plan.arcs, nodes, datapath.period)?;
    let cycles = node_cycles(alloc, plan, datapath, &order)?;
    let issuer = Issuer {
        plan,
        datapath,
        order: &order,
        kept: &lifetimes.kept,
        issued: &cycles.issued,
        ended: &cycles.ended,
        rooms: &cycles.rooms,
        written: &lifetimes.written,
    };
    words_of(alloc, &issuer)
}
