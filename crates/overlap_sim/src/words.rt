//! The guarded words of a plan.

ghost use Rattle.std.specs.Prelude.{◌<◌, IfOk, OnOk};
ghost use Rattle.overlap_plan.specs.IsStagePlan.{plan_of};
ghost use Rattle.overlap_sim.specs.GuardedOf.{IsStagedWordOf};
ghost use Rattle.overlap_sim.specs.Private.Staged.{IsStageReady, IsIssuer, AreBehind, AreWords};

use crate::cycles::node_cycles;
use crate::enables::enables;
use crate::guarded::GuardedWord;
use crate::issues::Issuer;
use crate::takes::takes;
use datapath::Datapath;
use lists::List;
use microcode_asm::{lifetimes_of, unit_order};
use overlap_plan::{GuardFault, StagePlan};
use std::alloc::Global;

/// The word of cycle c of machine sample m.
fn word(alloc: Global, issuer: &Issuer, m: usize, c: usize) -> Result<GuardedWord, GuardFault>
    requires issuer { IsIssuer issuer.now }
    requires sample { m < issuer.now.plan.now.unroll }
    requires cycle { c < issuer.now.datapath.now.period }
    ensures { IfOk result (IsStagedWordOf issuer.now.datapath.now (plan_of issuer.now.plan.now) m c) }
{
    Ok(GuardedWord {
        issues: issuer.issues(alloc, m, c)?,
        enables: enables(alloc, issuer, c)?,
        takes: takes(alloc, issuer, m, c)?,
    })
}

/// Puts the words of machine sample m behind those before.
fn put_words(
    alloc: Global,
    issuer: &Issuer,
    m: usize,
    words: &mut List<GuardedWord>,
) -> Result<(), GuardFault>
    requires issuer { IsIssuer issuer.now }
    requires sample { m < issuer.now.plan.now.unroll }
    ensures { OnOk result (AreBehind issuer.now.datapath.now (plan_of issuer.now.plan.now) m
        issuer.now.datapath.now.period words.old words.new) }
{
    for c in 0..usize::from(issuer.datapath.period) {
        words.push(word(alloc, issuer, m, c)?)?;
    }
    Ok(())
}

/// The words of the samples until the microprogram repeats.
fn words_of(alloc: Global, issuer: &Issuer) -> Result<List<GuardedWord>, GuardFault>
    requires { IsIssuer issuer.now }
    ensures { IfOk result
        (AreWords issuer.now.datapath.now (plan_of issuer.now.plan.now) issuer.now.plan.now.unroll) }
{
    let unroll = usize::from(issuer.plan.unroll);
    let mut words = List::with_capacity(alloc, unroll * usize::from(issuer.datapath.period))?;
    for m in 0..unroll {
        put_words(alloc, issuer, m, &mut words)?;
    }
    Ok(words)
}

/// The guarded words of a plan.
pub(crate) fn words(
    alloc: Global,
    plan: &StagePlan,
    datapath: &Datapath,
) -> Result<List<GuardedWord>, GuardFault>
    requires { IsStageReady datapath.now plan.now }
    ensures { IfOk result (AreWords datapath.now (plan_of plan.now) plan.now.unroll) }
{
    let order = unit_order(alloc, &plan.assigned, datapath)?;
    let nodes = plan.assigned.lowered.nodes.len();
    let lifetimes = lifetimes_of(alloc, &plan.arcs, nodes, datapath.period)?;
    let cycles = node_cycles(alloc, plan, datapath, &order)?;
    let issuer = Issuer {
        plan,
        datapath,
        order: &order,
        kept: &lifetimes.kept,
        issued: &cycles.issued,
        ended: &cycles.ended,
        written: &lifetimes.written,
    };
    words_of(alloc, &issuer)
}
