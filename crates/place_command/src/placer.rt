//! From files to microcode.

ghost use Rattle.std.specs.Prelude.{◌≡◌, ◌≢◌, ◌≤◌, [], ◌∷◌, length, IfOk, IfErr};
ghost use Rattle.datapath.specs.Allowed.{IsDatapath};
ghost use Rattle.desk_core.specs.Desk.{FaultsNeverFall, IfSpecified};
ghost use Rattle.desk_core.specs.Whole.{IsUnchangedButInput};
ghost use Rattle.signal_graph.specs.GraphRules.{IsGraph};
ghost use Rattle.signal_graph.specs.GraphSolves.{IsGraphLoopless};
ghost use Rattle.microcode_asm.specs.Planned.{IsAssemblable};
ghost use Rattle.place_file.specs.Given.{IsGivenBy};
ghost use Rattle.silc_files.specs.Endings.{IsAmong, UsesOnly};
ghost use Rattle.silc_files.specs.Limits.{text_limit};
ghost use Rattle.silc_files.specs.Reading.{IsShort, OnlyReads};
ghost use Rattle.plan_commands.specs.Compile.{HasTheSolution};
ghost use Rattle.plan_commands.specs.Compiling.{IsMadeOf};
ghost use Rattle.place_command.specs.Placed.{IsPlanWith, ArePlaced, HasThePlan, IsPlaceAnswer, IsDone, IsUnmade};
ghost use Rattle.place_command.specs.Refusals.{IsUngiven, IsTextRefused};
ghost use Rattle.place_command.specs.Private.Endings.{IsEndingOf, HaveTheirLines, ArePlanLines, ArePlanLinesIn};
ghost use Rattle.place_command.specs.Private.Endings.{IsUngivenIn, IsPlanless, IsUnplacedIn, IsNoInputPlacing, IsNotMade};
ghost use Rattle.place_command.specs.Private.Placing.{AreGivenIn, AreRegistersIn, IsInputPlacing, IsFeasibleMicrocode};
ghost use Rattle.statuses.specs.declared.status.Status.TheVariants.{Memory};

use crate::ending::{PlaceEnding, Refusal, registerless, ungiven, unplanned};
use datapath::Datapath;
use desk_core::{Desk, write_whole};
use given_registers::GivenRegister;
use lists::{Bytes, List};
use micro_file::encode;
use microcode_asm::assemble_feasible;
use place_file::{Given, GivenRegisters, places_in, registers_in};
use placed_plan::{Place, plan_given};
use plan_commands::{Inputs, datapath_in, read_inputs, source_in};
use plan_core::Plan;
use signal_graph::Graph;
use silc_files::{Input, read_input};
use statuses::Status;
use std::alloc::Global;

/// A plan, its datapath, and the places and the registers that were given for it.
#[derive(Drop)]
pub(crate) struct Placed {
    pub plan: Plan,
    pub path: Datapath,
    pub places: List<Place>,
    pub registers: List<GivenRegister>,
}

/// The places and the registers that the lines of a text give.
#[derive(Drop)]
pub(crate) struct PlanLines {
    pub places: Given,
    pub registers: GivenRegisters,
}

/// The places that the lines of a text give.
fn places_of(alloc: Global, text: &[u8], path: &Datapath) -> Result<Given, PlaceEnding>
    requires path { IsDatapath path.now }
    requires short { length text.now ≤ text_limit }
    ensures places { IfOk result (IsGivenBy path.now text.now) }
    ensures err { IfErr result (IsEndingOf (IsUngiven path.now text.now)) }
{
    match places_in(alloc, text, path) {
        Ok(places) => Ok(places),
        Err(fault) => Err(ungiven(fault)),
    }
}

/// What the lines of a text give.
fn plan_lines_of(alloc: Global, text: &[u8], path: &Datapath) -> Result<PlanLines, PlaceEnding>
    requires path { IsDatapath path.now }
    requires short { length text.now ≤ text_limit }
    ensures lines { IfOk result (ArePlanLines text.now path.now) }
    ensures err { IfErr result (IsEndingOf (IsTextRefused path.now text.now)) }
{
    let places = places_of(alloc, text, path)?;
    match registers_in(alloc, text, path) {
        Ok(registers) => Ok(PlanLines { places, registers }),
        Err(fault) => Err(registerless(fault)),
    }
}

/// What the lines of the input give.
fn plan_lines_in(alloc: Global, text: &Input, path: &Datapath) -> Result<PlanLines, PlaceEnding>
    requires path { IsDatapath path.now }
    requires short { IsShort text.now }
    ensures numbers { IfOk result HaveTheirLines }
    ensures lines { IfOk result (ArePlanLinesIn text.now path.now) }
    ensures err { IfErr result (IsEndingOf (IsUngivenIn text.now path.now)) }
{
    match text {
        Input::Whole(bytes) => plan_lines_of(alloc, bytes.as_slice(), path),
        Input::TooLong => Err(PlaceEnding::Refused(Refusal::TooLong)),
    }
}

/// The plan of a graph with the places and the registers that these lines give.
fn placed_with(
    alloc: Global,
    graph: Graph,
    path: Datapath,
    lines: PlanLines,
) -> Result<Placed, PlaceEnding>
    requires sound { IsGraph graph }
    requires loopless { IsGraphLoopless graph }
    requires path { IsDatapath path }
    requires numbers { HaveTheirLines lines }
    ensures path { IfOk result (λ placed. placed.path ≡ path) }
    ensures plan { IfOk result (λ placed. IsPlanWith placed.places placed.registers graph path placed.plan) }
    ensures places { IfOk result (λ placed. placed.places ≡ lines.places.places) }
    ensures registers { IfOk result (λ placed. placed.registers ≡ lines.registers.registers) }
    ensures err { IfErr result (IsEndingOf (IsPlanless graph path lines)) }
{
    let PlanLines { places, registers } = lines;
    let given = registers.registers.as_slice();
    match plan_given(alloc, graph, places.places.as_slice(), given, &path) {
        Ok(plan) => Ok(Placed {
            plan,
            path,
            places: places.places,
            registers: registers.registers,
        }),
        Err(fault) => Err(unplanned(fault, places.lines.as_slice(), &registers)),
    }
}

/// The plan of a graph with the places and the registers that the input gives.
fn placed_over(
    alloc: Global,
    graph: Graph,
    path: Datapath,
    text: &Input,
) -> Result<Placed, PlaceEnding>
    requires sound { IsGraph graph }
    requires loopless { IsGraphLoopless graph }
    requires path { IsDatapath path }
    requires short { IsShort text.now }
    ensures path { IfOk result (λ placed. placed.path ≡ path) }
    ensures plan { IfOk result (λ placed. IsPlanWith placed.places placed.registers graph path placed.plan) }
    ensures gives { IfOk result (λ placed. AreGivenIn text.now placed.path placed.places) }
    ensures registers { IfOk result (λ placed. AreRegistersIn text.now placed.path placed.registers) }
    ensures err { IfErr result (IsEndingOf (IsUnplacedIn text.now graph path)) }
{
    let lines = plan_lines_in(alloc, text, &path)?;
    placed_with(alloc, graph, path, lines)
}

/// The plan of the inputs with the places and the registers that the text gives.
fn placed_of(alloc: Global, inputs: &Inputs, text: &Input) -> Result<Placed, PlaceEnding>
    requires { IsShort text.now }
    ensures ok { IfOk result (IsInputPlacing inputs.now text.now) }
    ensures err { IfErr result (IsNoInputPlacing inputs.now text.now) }
{
    let accepted = source_in(alloc, &inputs.source)?;
    let path = datapath_in(alloc, &inputs.datapath)?;
    placed_over(alloc, accepted.graph, path, text)
}

/// The microcode of a plan.
fn microcode_of(alloc: Global, placed: &Placed) -> Result<Bytes, Status>
    requires path { IsDatapath placed.now.path }
    requires plan { IsAssemblable placed.now.path placed.now.plan }
    ensures ok { IfOk result (IsFeasibleMicrocode placed.now.path placed.now.plan) }
    ensures err { IfErr result (λ status. status ≡ Memory) }
{
    let image = assemble_feasible(alloc, &placed.plan, &placed.path)?;
    Ok(encode(alloc, &image)?)
}

/// Reads the source, the datapath and the plan, and then makes the microcode.
fn make<D: Desk>(
    alloc: Global,
    desk: &mut D,
    source: &str,
    datapath: &str,
    plan: &str,
) -> Result<Bytes, PlaceEnding>
    ensures reads { OnlyReads (IsAmong (source.now ∷ datapath.now ∷ plan.now ∷ [])) (D.view desk.old)
        (D.view desk.new) }
    ensures ok { IfOk result (IsMadeOf (ArePlaced source.now datapath.now plan.now) plan.now (D.view desk.old)
        (D.view desk.new)) }
    ensures err { IfErr result (IsNotMade source.now datapath.now plan.now (D.view desk.old) (D.view desk.new)) }
{
    let inputs = read_inputs(alloc, desk, source, datapath)?;
    let text = read_input(alloc, desk, plan)?;
    let placed = placed_of(alloc, &inputs, &text)?;
    Ok(microcode_of(alloc, &placed)?)
}

/// Reads a source, a datapath and a plan, and writes to OUT the microcode of the plan that has the units and the cycles of
/// the given one, and the registers that it gives. All three are read before one is judged: first the source, then the
/// datapath, then the plan.
pub fn place<D: Desk>(
    alloc: Global,
    desk: &mut D,
    source: &str,
    datapath: &str,
    plan: &str,
    output: &str,
) -> PlaceEnding
    requires { output.now ≢ plan.now }
    ensures faults { FaultsNeverFall (D.view desk.old) (D.view desk.new) }
    // When each ending comes, so that the first of several faults is told, and what it leaves.
    ensures answer { IsPlaceAnswer source.now datapath.now plan.now output.now (D.view desk.old) (D.view desk.new)
        result }
    // What is written where it is done: the solution of the source, as microcode of the plan that is given.
    ensures headline { IsDone result → IfSpecified (HasTheSolution source.now datapath.now output.now)
        (D.view desk.old).files (D.view desk.new).files }
    ensures placed { IsDone result → IfSpecified (HasThePlan source.now datapath.now plan.now output.now)
        (D.view desk.old).files (D.view desk.new).files }
    // Where it is refused, OUT is not made.
    ensures unmade { IsUnmade result → IsUnchangedButInput (D.view desk.old) (D.view desk.new) }
    ensures only { UsesOnly (IsAmong (source.now ∷ datapath.now ∷ plan.now ∷ [])) output.now
        (D.view desk.old) (D.view desk.new) }
{
    match make(alloc, desk, source, datapath, plan) {
        Ok(microcode) => match write_whole(desk, output, &microcode) {
            Ok(()) => PlaceEnding::from(Status::Done),
            Err(_) => PlaceEnding::from(Status::Desk),
        },
        Err(ending) => ending,
    }
}
