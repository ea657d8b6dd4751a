//! One call on a source and a datapath repeated, for the scripts under `bench/` to measure, and the sum of what its
//! turns give.

ghost use Rattle.std.specs.Prelude.{IfOk};
ghost use Rattle.datapath.specs.Allowed.{IsDatapath};
ghost use Rattle.signal_graph.specs.GraphRules.{IsGraph};
ghost use Rattle.signal_graph.specs.GraphSolves.{IsGraphLoopless};
ghost use Rattle.microcode_asm.specs.Planned.{IsPlanned};

use crate::graph::graph_of;
use crate::guarded::{Stages, stage_plan_over};
use crate::lifetimes::registers;
use crate::page::{Page, Refused};
use crate::path::datapath_of;
use datapath::Datapath;
use delay_memory::lower;
use microcode_asm::{AsmFault, assemble};
use plan_core::Plan;
use planner::{PlanFault, plan};
use signal_graph::Graph;
use std::alloc::Global;
use unit_assign::assign;

/// A call on a plan, and what is added up over its turns.
#[derive(Clone, Copy)]
pub enum ReadyCall {
    /// From the lifetimes to their registers: the lifetimes.
    Allot,
    /// To the image: the words.
    Assemble,
}

/// A call, and what is added up over its turns.
#[derive(Clone, Copy)]
pub enum PlanCall {
    /// From a graph to its nodes on units: the nodes.
    Assign,
    /// From a source to its plan: the lifetimes.
    Plan,
    /// From a graph to its plan over so many stages: the lifetimes.
    Stages(Stages),
    OnPlan(ReadyCall),
}

pub fn plan_call_named(word: &str) -> Option<PlanCall> {
    match word {
        "assign" => Some(PlanCall::Assign),
        "plan" => Some(PlanCall::Plan),
        "stages-1" => Some(PlanCall::Stages(Stages::One)),
        "stages-2" => Some(PlanCall::Stages(Stages::Two)),
        "stages-3" => Some(PlanCall::Stages(Stages::Three)),
        "stages-4" => Some(PlanCall::Stages(Stages::Four)),
        "allot" => Some(PlanCall::OnPlan(ReadyCall::Allot)),
        "assemble" => Some(PlanCall::OnPlan(ReadyCall::Assemble)),
        _ => None,
    }
}

fn refuse_plan(page: &mut Page, fault: PlanFault) -> Refused {
    match fault {
        PlanFault::Memory => page.cut(),
        fault => page.refuse_in_words(&fault),
    }
}

#[tactic(auto, using(crate::proofs::Planned::planned))]
fn plan_over(page: &mut Page, graph: Graph, path: &Datapath) -> Result<Plan, Refused>
    requires sound { IsGraph graph }
    requires loopless { IsGraphLoopless graph }
    requires path { IsDatapath path.now }
    ensures { IfOk result (IsPlanned path.now) }
{
    match plan(page.alloc, graph, path) {
        Ok(plan) => Ok(plan),
        Err(fault) => Err(refuse_plan(page, fault)),
    }
}

fn plan_of(page: &mut Page, source: &[u8], path: &Datapath) -> Result<Plan, Refused>
    requires { IsDatapath path.now }
    ensures { IfOk result (IsPlanned path.now) }
{
    let graph = graph_of(page, source)?;
    plan_over(page, graph, path)
}

/// How many nodes are bound to units.
#[tactic(auto, using(crate::proofs::Planned::lowered_wired))]
fn nodes_on_units(alloc: Global, graph: &Graph, path: &Datapath) -> Result<usize, PlanFault>
    requires sound { IsGraph graph.now }
    requires path { IsDatapath path.now }
{
    let lowered = lower(alloc, graph, path)?;
    Ok(assign(alloc, &lowered, path)?.units.len())
}

fn assign_again(alloc: Global, turns: u32, graph: &Graph, path: &Datapath) -> Result<u64, PlanFault>
    requires sound { IsGraph graph.now }
    requires path { IsDatapath path.now }
{
    let mut count = 0u64;
    for _ in 0..turns {
        count = count.wrapping_add(nodes_on_units(alloc, graph, path)? as u64);
    }
    Ok(count)
}

fn assign_source(
    page: &mut Page,
    turns: u32,
    source: &[u8],
    path: &Datapath,
) -> Result<u64, Refused>
    requires { IsDatapath path.now }
{
    let graph = graph_of(page, source)?;
    match assign_again(page.alloc, turns, &graph, path) {
        Ok(nodes) => Ok(nodes),
        Err(fault) => Err(refuse_plan(page, fault)),
    }
}

/// How many lifetimes the plan has.
fn lifetimes(page: &mut Page, source: &[u8], path: &Datapath) -> Result<usize, Refused>
    requires { IsDatapath path.now }
{
    Ok(plan_of(page, source, path)?.arcs.len())
}

fn plan_again(page: &mut Page, turns: u32, source: &[u8], path: &Datapath) -> Result<u64, Refused>
    requires { IsDatapath path.now }
{
    let mut count = 0u64;
    for _ in 0..turns {
        count = count.wrapping_add(lifetimes(page, source, path)? as u64);
    }
    Ok(count)
}

fn stages_again(
    page: &mut Page,
    stages: Stages,
    turns: u32,
    source: &[u8],
    path: &Datapath,
) -> Result<u64, Refused>
    requires { IsDatapath path.now }
{
    let graph = graph_of(page, source)?;
    let mut count = 0u64;
    for _ in 0..turns {
        let plan = stage_plan_over(page, &graph, path, stages)?;
        count = count.wrapping_add(plan.arcs.len() as u64);
    }
    Ok(count)
}

/// How many microwords the image has.
fn words(page: &mut Page, plan: &Plan, path: &Datapath) -> Result<usize, Refused>
    requires path { IsDatapath path.now }
    requires plan { IsPlanned path.now plan.now }
{
    match assemble(page.alloc, plan, path) {
        Ok(image) => Ok(image.words.len()),
        Err(AsmFault::Memory) => Err(page.cut()),
    }
}

/// What one turn of a call on a plan gives.
fn turn(page: &mut Page, call: ReadyCall, plan: &Plan, path: &Datapath) -> Result<usize, Refused>
    requires path { IsDatapath path.now }
    requires plan { IsPlanned path.now plan.now }
{
    match call {
        ReadyCall::Allot => registers(page, &plan.arcs, path),
        ReadyCall::Assemble => words(page, plan, path),
    }
}

fn turn_again(
    page: &mut Page,
    call: ReadyCall,
    turns: u32,
    plan: &Plan,
    path: &Datapath,
) -> Result<u64, Refused>
    requires path { IsDatapath path.now }
    requires plan { IsPlanned path.now plan.now }
{
    let mut count = 0u64;
    for _ in 0..turns {
        count = count.wrapping_add(turn(page, call, plan, path)? as u64);
    }
    Ok(count)
}

fn plan_source(
    page: &mut Page,
    call: ReadyCall,
    turns: u32,
    source: &[u8],
    path: &Datapath,
) -> Result<u64, Refused>
    requires { IsDatapath path.now }
{
    let plan = plan_of(page, source, path)?;
    turn_again(page, call, turns, &plan, path)
}

/// Puts what the turns of a call on a source and a datapath file add up to.
pub fn put(
    page: &mut Page,
    call: PlanCall,
    turns: u32,
    source: &[u8],
    path: &[u8],
) -> Result<(), Refused> {
    let path = datapath_of(page, path)?;
    let sum = match call {
        PlanCall::Assign => assign_source(page, turns, source, &path),
        PlanCall::Plan => plan_again(page, turns, source, &path),
        PlanCall::Stages(stages) => stages_again(page, stages, turns, source, &path),
        PlanCall::OnPlan(call) => plan_source(page, call, turns, source, &path),
    };
    page.number("", sum?);
    page.end();
    Ok(())
}
