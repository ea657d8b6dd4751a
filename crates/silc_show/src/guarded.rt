//! The guarded image of a source over several stages: the lines of an image, and behind each part of a word its stage.

ghost use Rattle.std.specs.Prelude.{◌≤◌, IfOk};
ghost use Rattle.datapath.specs.Allowed.{IsDatapath};
ghost use Rattle.cycle_sim.specs.Microcode.{code_after, IsSound};
ghost use Rattle.micro_image.specs.Valid.{IsValid};
ghost use Rattle.overlap_plan.specs.StagePlanned.{IsStagePlanned};
ghost use Rattle.overlap_sim.specs.Guarded.{unguarded};
ghost use Rattle.signal_graph.specs.GraphRules.{IsGraph};
ghost use Rattle.signal_graph.specs.GraphSolves.{IsGraphLoopless};

use crate::graph::graph_of;
use crate::image::{Head, put_drive, put_head, put_issue, put_take};
use crate::page::{Page, Refused};
use crate::path::datapath_of;
use datapath::Datapath;
use overlap_plan::{GuardFault, StageFault, StagePlan, stage_plan};
use overlap_sim::{Guarded, GuardedWord, Unguarded, guard, unguard};
use signal_graph::Graph;

/// How many stages a plan has.
#[derive(Clone, Copy)]
pub enum Stages {
    One,
    Two,
    Three,
    Four,
}

impl Stages {
    fn count(self) -> u8
        ensures least { 1 ≤ result }
        ensures most { result ≤ 4 }
    {
        match self {
            Stages::One => 1,
            Stages::Two => 2,
            Stages::Three => 3,
            Stages::Four => 4,
        }
    }
}

pub fn stages_named(word: &str) -> Option<Stages> {
    match word {
        "1" => Some(Stages::One),
        "2" => Some(Stages::Two),
        "3" => Some(Stages::Three),
        "4" => Some(Stages::Four),
        _ => None,
    }
}

/// The plan of a graph over so many stages.
#[tactic(auto, using(crate::proofs::Planned::stage_planned))]
pub fn stage_plan_over(
    page: &mut Page,
    graph: &Graph,
    path: &Datapath,
    stages: Stages,
) -> Result<StagePlan, Refused>
    requires sound { IsGraph graph.now }
    requires loopless { IsGraphLoopless graph.now }
    requires path { IsDatapath path.now }
    ensures { IfOk result (IsStagePlanned path.now) }
{
    match stage_plan(page.alloc, graph, path, stages.count()) {
        Ok(plan) => Ok(plan),
        Err(StageFault::Memory) => Err(page.cut()),
        Err(fault) => Err(page.refuse_in_words(&fault)),
    }
}

fn end_stage(page: &mut Page, stage: u8) {
    page.number(" stage ", stage);
    page.end();
}

fn put_word(page: &mut Page, number: usize, word: &GuardedWord) {
    page.number("word ", number);
    page.end();
    for issue in &word.issues {
        put_issue(page, &issue.part);
        end_stage(page, issue.stage);
    }
    for drive in &word.enables {
        put_drive(page, drive.part);
        end_stage(page, drive.stage);
    }
    for take in &word.takes {
        put_take(page, take.part);
        end_stage(page, take.stage);
    }
}

fn put_guarded(page: &mut Page, guarded: &Guarded) {
    let head = Head {
        period: guarded.period,
        unroll: guarded.unroll,
        inputs: &guarded.inputs,
        outs: guarded.outs,
        units: &guarded.units,
        buses: guarded.buses,
    };
    put_head(page, head);
    for (number, word) in guarded.words.iter().enumerate() {
        put_word(page, number, word);
    }
}

/// The guarded image of a source over so many stages on the datapath of a file.
fn guarded_of(
    page: &mut Page,
    source: &[u8],
    path: &[u8],
    stages: Stages,
) -> Result<Guarded, Refused>
    ensures { IfOk result (λ guarded. IsValid (unguarded guarded)) }
{
    let graph = graph_of(page, source)?;
    let path = datapath_of(page, path)?;
    let plan = stage_plan_over(page, &graph, &path, stages)?;
    match guard(page.alloc, &plan, &path) {
        Ok(guarded) => Ok(guarded),
        Err(GuardFault::Memory) => Err(page.cut()),
    }
}

/// What a machine obeys of the guarded image of a source.
pub fn unguarded_of(
    page: &mut Page,
    source: &[u8],
    path: &[u8],
    stages: Stages,
) -> Result<Unguarded, Refused>
    ensures { IfOk result (λ parts. IsSound (code_after parts.prologue parts.image)) }
{
    let guarded = guarded_of(page, source, path, stages)?;
    match unguard(page.alloc, guarded) {
        Ok(parts) => Ok(parts),
        Err(GuardFault::Memory) => Err(page.cut()),
    }
}

/// Puts the guarded image of a source over so many stages on the datapath of a file.
pub fn put(page: &mut Page, source: &[u8], path: &[u8], stages: Stages) -> Result<(), Refused> {
    let guarded = guarded_of(page, source, path, stages)?;
    put_guarded(page, &guarded);
    Ok(())
}
