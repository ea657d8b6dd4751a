//! The plan of a source over a datapath, which `compile`, `schedule` and `run` make.
ghost use Rattle.std.specs.Prelude.{◌≡◌, [], ◌∷◌, IfOk, IfErr};
ghost use Rattle.datapath.specs.Allowed.{IsDatapath};
ghost use Rattle.fault_order.specs.Ranked.{AnswersFault};
ghost use Rattle.plan_core.specs.IsPlan.{IsPlan};
ghost use Rattle.signal_graph.specs.GraphRules.{IsGraph};
ghost use Rattle.signal_graph.specs.GraphSolves.{IsGraphLoopless};
ghost use Rattle.silage_syntax.specs.Tree.{view};
ghost use Rattle.datapath.specs.declared.types.Datapath as of_path;
ghost use Rattle.plan_core.specs.declared.plan.Plan as of_plan;
ghost use Rattle.statuses.specs.declared.status.Status as of_status;
ghost use Rattle.statuses.specs.declared.status.Status.TheVariants.{Memory};
ghost use Rattle.plan_commands.specs.PlanOf.{AnswersPlan};
ghost use Rattle.plan_commands.specs.Plans.{HasPlan, HasOnlyPlan, IsUnplanned};
ghost use Rattle.plan_commands.specs.Refusals.{IsNoPlan, IsRefusal, IsRefused, IsPlanError};
ghost use Rattle.loop_expand.specs.GraphFor.{IsGraphFor};
ghost use Rattle.plan_commands.specs.Planning.{IsSourceIn, IsNoSource, IsPathIn, IsNoPath, IsWithoutPlan, FindsPlan, TellsWhy};
ghost use Rattle.plan_commands.specs.Planning.{IsInputPlan, IsNoInputPlan, AreRead, AreUnread, IsReadPlan};
ghost use Rattle.silc_files.specs.Endings.{IsAmong};
ghost use Rattle.silc_files.specs.Reading.{OnlyReads};

use datapath::{Datapath, PathFault};
use desk_core::Desk;
use front_end::{Accepted, accept};
use plan_core::Plan;
use planner::plan;
use signal_graph::Graph;
use silc_files::{Input, read_input};
use source_faults::FrontFault;
use statuses::{Ending, Status};
use std::alloc::Global;

/// A source and a datapath, as they were read.
#[derive(Drop)]
pub struct Inputs {
    pub source: Input,
    pub datapath: Input,
}

/// A plan, and the datapath that it is for.
#[derive(Drop)]
pub struct Planned {
    pub plan: Plan,
    pub path: Datapath,
}

/// The program of the input, with its graph. `FrontEnd` where it has none, `Memory` where no memory is left.
pub fn source_in(alloc: Global, input: &Input) -> Result<Accepted, Ending>
    ensures ok { IfOk result (λ accepted. IsSourceIn input.now (view accepted.program) accepted.graph) }
    ensures graph { IfOk result (λ accepted. IsGraphFor (view accepted.program) accepted.graph) }
    ensures err { IfErr result (λ ending. IsNoSource input.now ending.status) }
{
    match input {
        Input::Whole(bytes) => Ok(accept(alloc, bytes.as_slice())?),
        Input::TooLong => Err(Ending::from(Status::FrontEnd(FrontFault::TooLong))),
    }
}

/// The datapath that the input describes. `Path` where it describes none, `Memory` where no memory is left.
pub fn datapath_in(alloc: Global, input: &Input) -> Result<Datapath, Status>
    ensures ok { IfOk result (IsPathIn input.now) }
    ensures allowed { IfOk result IsDatapath }
    ensures err { IfErr result (IsNoPath input.now) }
{
    match input {
        Input::Whole(bytes) => Ok(datapath::read(alloc, bytes.as_slice())?),
        Input::TooLong => Err(Status::Path(PathFault::TooLong)),
    }
}

/// The plan of a graph over the datapath. `Unit`, `LinesFull`, `Period` or `FileFull` where it has none, `Memory` where
/// no memory is left.
pub fn plan_over(alloc: Global, graph: Graph, path: &Datapath) -> Result<Plan, Status>
    requires sound { IsGraph graph }
    requires loopless { IsGraphLoopless graph }
    requires path { IsDatapath path.now }
    ensures ok { IfOk result (IsPlan graph path.now) }
    ensures err { IfErr result (IsWithoutPlan graph path.now) }
    ensures found { (p : of_plan.Plan) → IsPlan graph path.now p → FindsPlan p result }
    ensures refused { (why : of_status.Status) → IsUnplanned why graph path.now → TellsWhy why result }
{
    Ok(plan(alloc, graph, path)?)
}

/// The plan of a graph, with its datapath. An error keeps the datapath, whose units it may name.
pub fn planned_over(alloc: Global, graph: Graph, path: Datapath) -> Result<Planned, Ending>
    requires sound { IsGraph graph }
    requires loopless { IsGraphLoopless graph }
    requires path { IsDatapath path }
    ensures path { IfOk result (λ planned. planned.path ≡ path) }
    ensures ok { IfOk result (λ planned. IsPlan graph path planned.plan) }
    ensures err { IfErr result (λ ending. IsWithoutPlan graph path ending.status) }
{
    match plan_over(alloc, graph, &path) {
        Ok(plan) => Ok(Planned { plan, path }),
        Err(status) => Err(Ending::on_path(status, path)),
    }
}

/// The plan of the program of the one input, over the datapath of the other.
pub fn planned_of(alloc: Global, source: &Input, datapath: &Input) -> Result<Planned, Ending>
    ensures ok { IfOk result (IsInputPlan source.now datapath.now) }
    ensures err { IfErr result (λ ending. IsNoInputPlan source.now datapath.now ending.status) }
{
    let accepted = source_in(alloc, source)?;
    let path = datapath_in(alloc, datapath)?;
    planned_over(alloc, accepted.graph, path)
}

/// Reads a source and a datapath whole, one after the other, for any planning of the one over the other, which judges
/// them. `Desk` where one could not be read, `Memory` where no memory is left.
pub fn read_inputs<D: Desk>(
    alloc: Global,
    desk: &mut D,
    source: &str,
    datapath: &str,
) -> Result<Inputs, Status>
    ensures reads { OnlyReads (IsAmong (source.now ∷ datapath.now ∷ [])) (D.view desk.old) (D.view desk.new) }
    ensures ok { IfOk result (AreRead source.now datapath.now (D.view desk.old) (D.view desk.new)) }
    ensures err { IfErr result (AreUnread source.now datapath.now (D.view desk.old) (D.view desk.new)) }
{
    let source = read_input(alloc, desk, source)?;
    let datapath = read_input(alloc, desk, datapath)?;
    Ok(Inputs { source, datapath })
}

/// Reads the source and the datapath, and then plans the one over the other.
pub fn read_plan<D: Desk>(
    alloc: Global,
    desk: &mut D,
    source: &str,
    datapath: &str,
) -> Result<Planned, Ending>
    ensures reads { OnlyReads (IsAmong (source.now ∷ datapath.now ∷ [])) (D.view desk.old) (D.view desk.new) }
    ensures ok { IfOk result (IsReadPlan source.now datapath.now (D.view desk.old) (D.view desk.new)) }
    ensures err { IfErr result (λ ending.
        IsPlanError source.now datapath.now (D.view desk.old) (D.view desk.new) ending.status) }
{
    let inputs = read_inputs(alloc, desk, source, datapath)?;
    planned_of(alloc, &inputs.source, &inputs.datapath)
}

/// The plan of the program of a source over the datapath that a file describes.
///
/// # Errors
///
/// `FrontEnd` where the source has no program; else `Path` where the file describes no datapath; else `Unit` or
/// `LinesFull` where a node has no delay line; else `Unit`, `Period` and `FileFull` where a node has no unit, no cycle
/// and no register. `Memory` where no memory is left.
pub fn plan_of(alloc: Global, src: &[u8], path: &[u8]) -> Result<Planned, Status>
    ensures ok { IfOk result (λ planned. HasOnlyPlan src.now path.now planned.path planned.plan) }
    ensures allowed { IfOk result (λ planned. IsDatapath planned.path) }
    ensures err { IfErr result (IsNoPlan src.now path.now) }

    // What the source has over the datapath is what the call answers, unless memory runs out.
    ensures each_plan { (d : of_path.Datapath) (p : of_plan.Plan) → HasPlan src.now path.now d p
        → AnswersPlan d p result }
    ensures each_refusal { (why : of_status.Status) → IsRefusal why → IsRefused why src.now path.now
        → AnswersFault Memory why result }
{
    let accepted = accept(alloc, src)?;
    let path = datapath::read(alloc, path)?;
    let plan = plan_over(alloc, accepted.graph, &path)?;
    Ok(Planned { plan, path })
}
