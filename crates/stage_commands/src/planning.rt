//! The plan of a source over several stages, which `stages` and `pipe` make.
ghost use Rattle.std.specs.Prelude.{◌≡◌, ◌≤◌, [], ◌∷◌, IfOk, IfErr};
ghost use Rattle.datapath.specs.Allowed.{IsDatapath};
ghost use Rattle.overlap_plan.specs.IsStagePlan.{IsStagePlan};
ghost use Rattle.signal_graph.specs.GraphRules.{IsGraph};
ghost use Rattle.signal_graph.specs.GraphSolves.{IsGraphLoopless};
ghost use Rattle.silc_files.specs.Endings.{IsAmong};
ghost use Rattle.silc_files.specs.Reading.{OnlyReads};
ghost use Rattle.stage_commands.specs.StagePlans.{plan_fault_of, IsStageError};
ghost use Rattle.stage_commands.specs.Planning.{IsWithoutStagePlan, IsInputStagePlan, IsNoInputStagePlan, IsReadStagePlan};

use datapath::Datapath;
use desk_core::Desk;
use overlap_plan::{StageFault, StagePlan, stage_plan};
use plan_commands::{datapath_in, read_inputs, source_in};
use planner::PlanFault;
use reg_alloc::FileFault;
use signal_graph::Graph;
use silc_files::Input;
use statuses::{Ending, Status};
use std::alloc::Global;

/// A plan over several stages, and the datapath that it is for.
#[derive(Drop)]
pub struct StagePlanned {
    pub plan: StagePlan,
    pub path: Datapath,
}

/// The fault as one of a plan of one stage, which has its status.
fn plan_fault(fault: StageFault) -> PlanFault
    ensures { result ≡ plan_fault_of fault }
{
    match fault {
        StageFault::Line(fault) => PlanFault::Line(fault),
        StageFault::Unit(fault) => PlanFault::Unit(fault),
        StageFault::Period(node) => PlanFault::Period(node),
        StageFault::File(FileFault::Full { unit, port, node }) => {
            PlanFault::FileFull { unit, port, node }
        }
        StageFault::File(FileFault::Memory) => PlanFault::Memory,
        StageFault::Memory => PlanFault::Memory,
    }
}

/// The plan of a graph over so many stages on the datapath. `Unit`, `LinesFull`, `Period` or `FileFull` where it has
/// none, `Memory` where no memory is left.
fn stage_plan_over(
    alloc: Global,
    graph: &Graph,
    path: &Datapath,
    stages: u8,
) -> Result<StagePlan, Status>
    requires sound { IsGraph graph.now }
    requires loopless { IsGraphLoopless graph.now }
    requires path { IsDatapath path.now }
    requires stages { (1 ≤ stages) × (stages ≤ 4) }
    ensures ok { IfOk result (IsStagePlan graph.now path.now stages) }
    ensures err { IfErr result (IsWithoutStagePlan stages graph.now path.now) }
{
    match stage_plan(alloc, graph, path, stages) {
        Ok(plan) => Ok(plan),
        Err(fault) => Err(Status::from(plan_fault(fault))),
    }
}

/// The plan of a graph, with its datapath. An error keeps the datapath, whose units it may name.
fn staged_over(
    alloc: Global,
    graph: &Graph,
    path: Datapath,
    stages: u8,
) -> Result<StagePlanned, Ending>
    requires sound { IsGraph graph.now }
    requires loopless { IsGraphLoopless graph.now }
    requires path { IsDatapath path }
    requires stages { (1 ≤ stages) × (stages ≤ 4) }
    ensures path { IfOk result (λ planned. planned.path ≡ path) }
    ensures ok { IfOk result (λ planned. IsStagePlan graph.now path stages planned.plan) }
    ensures err { IfErr result (λ ending. IsWithoutStagePlan stages graph.now path ending.status) }
{
    match stage_plan_over(alloc, graph, &path, stages) {
        Ok(plan) => Ok(StagePlanned { plan, path }),
        Err(status) => Err(Ending::on_path(status, path)),
    }
}

/// The plan of the program of the one input over so many stages, 1 to 4, on the datapath of the other.
///
/// # Errors
///
/// `FrontEnd` where the source has no program; else `Path` where the file describes no datapath; else `Unit` or
/// `LinesFull` where a node has no delay line; else `Unit`, `Period` and `FileFull` where a node has no unit, no cycle
/// and no register. `Memory` where no memory is left.
pub fn stage_plan_of(
    alloc: Global,
    source: &Input,
    datapath: &Input,
    stages: u8,
) -> Result<StagePlanned, Ending>
    requires { (1 ≤ stages) × (stages ≤ 4) }
    ensures ok { IfOk result (IsInputStagePlan stages source.now datapath.now) }
    ensures err { IfErr result (λ ending. IsNoInputStagePlan stages source.now datapath.now ending.status) }
{
    let accepted = source_in(alloc, source)?;
    let path = datapath_in(alloc, datapath)?;
    staged_over(alloc, &accepted.graph, path, stages)
}

/// Reads the source and the datapath, and then plans the one over so many stages, 1 to 4, on the other. The errors are
/// those of `stage_plan_of`, and `Desk` where a file could not be read.
pub fn read_stage_plan<D: Desk>(
    alloc: Global,
    desk: &mut D,
    source: &str,
    datapath: &str,
    stages: u8,
) -> Result<StagePlanned, Ending>
    requires { (1 ≤ stages) × (stages ≤ 4) }
    ensures reads { OnlyReads (IsAmong (source.now ∷ datapath.now ∷ [])) (D.view desk.old) (D.view desk.new) }
    ensures ok { IfOk result (IsReadStagePlan stages source.now datapath.now (D.view desk.old) (D.view desk.new)) }
    ensures err { IfErr result (λ ending.
        IsStageError stages source.now datapath.now (D.view desk.old) (D.view desk.new) ending.status) }
{
    let inputs = read_inputs(alloc, desk, source, datapath)?;
    stage_plan_of(alloc, &inputs.source, &inputs.datapath, stages)
}
