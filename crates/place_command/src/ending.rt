//! How the command ended.

ghost use Rattle.std.specs.Prelude.{◌≡◌, None};
ghost use Rattle.place_command.specs.Placed.{place_code};
ghost use Rattle.place_command.specs.Refusals.{text_refusal, named_node, place_refusal, register_refusal, plan_refusal};
ghost use Rattle.place_command.specs.Private.Endings.{HasItsLine, HasItsRegister, HasItsPlace, IsWantOfMemory, IsToldAs};
ghost use Rattle.place_command.specs.declared.ending.Refusal.TheVariants.{Registers as RegistersRefused};
ghost use Rattle.given_registers.specs.declared.fault.RegisterFault.TheVariants as of_registers;
ghost use Rattle.place_file.specs.declared.fault.RegistersFault.TheVariants as of_text;
ghost use Rattle.place_file.specs.declared.fault.GivenFault.TheVariants as of_given;
ghost use Rattle.placed_plan.specs.declared.fault.PlaceFault.TheVariants as of_place;

use given_registers::{GivenCause, GivenRegister, RegisterFault};
use place_file::{GivenFault, GivenRegisters, RegistersFault};
use placed_plan::{GivenPlanFault, PlaceFault};
use statuses::{Ending, Status};
use thiserror::Error;

/// The exit code where PLAN gives no places and registers, or nodes and words cannot have them.
const REFUSED: u8 = 16;

/// Why there is no plan with the places and the registers of PLAN.
#[derive(Clone, Copy, Debug, PartialEq, Eq, Error)]
pub enum Refusal {
    /// It has more than 1 MiB.
    #[error("plan too long")]
    TooLong,
    /// A line gives no place.
    #[error("plan {0}")]
    Text(GivenFault),
    /// A line gives no register.
    #[error("plan {0}")]
    Registers(RegistersFault),
    /// The copy of this line, from 1, cannot have the register that it gives.
    #[error("plan line {line}: {cause} {}.{} at node {}", given.port.unit, given.port.port, given.node)]
    Register {
        line: u32,
        given: GivenRegister,
        cause: GivenCause,
    },
    /// The node of this line, from 1, cannot stand at its place.
    #[error("plan line {line}: {fault}")]
    Line {
        line: u32,
        fault: PlaceFault,
    },
    /// The places have no plan, and no line gives the one that is meant.
    #[error("{0}")]
    Plan(PlaceFault),
}

/// How the command ended.
#[derive(Drop)]
pub enum PlaceEnding {
    /// As a command of `silc` ends that has the same files.
    Told(Ending),
    /// SRC is a source and DP a datapath, and there is no plan of the one over the other with the places and the
    /// registers of PLAN.
    Refused(Refusal),
}

impl From<Ending> for PlaceEnding {
    ghost use Rattle.place_command.specs.declared.ending.PlaceEnding.TheVariants.{Told};

    ghost from_gives = { λ ending place_ending. place_ending ≡ Told ending };

    fn from(ending: Ending) -> Self {
        PlaceEnding::Told(ending)
    }
}

impl From<Status> for PlaceEnding {
    ghost use Rattle.place_command.specs.declared.ending.PlaceEnding.TheVariants.{Told};

    ghost from_gives = { λ status ending.
        ending ≡ Told (record { status = status; line = None; element = None; path = None }) };

    fn from(status: Status) -> Self {
        PlaceEnding::Told(Ending::from(status))
    }
}

/// The node that the fault names, where its number is that of a place.
fn node_of(fault: &PlaceFault) -> Option<u32>
    ensures { result ≡ named_node fault.now }
{
    match fault {
        PlaceFault::Line(_) | PlaceFault::Missing(_) | PlaceFault::Memory => None,
        PlaceFault::Surplus(node)
        | PlaceFault::TooWide(node)
        | PlaceFault::WrongUnit(node)
        | PlaceFault::Past(node)
        | PlaceFault::Busy(node)
        | PlaceFault::Late { node, .. }
        | PlaceFault::FileWritten { node, .. }
        | PlaceFault::NoBus { node, .. }
        | PlaceFault::FileFull { node, .. } => Some(*node),
    }
}

/// The refusal of places with this fault, which these lines give.
fn refusal_at(fault: PlaceFault, lines: &[u32]) -> Refusal
    requires { HasItsLine lines.now fault }
    ensures { result ≡ place_refusal lines.now fault }
{
    match node_of(&fault) {
        Some(node) => Refusal::Line {
            line: lines[node as usize],
            fault,
        },
        None => Refusal::Plan(fault),
    }
}

/// The ending where nodes cannot stand at their places, which these lines give.
fn misplaced(fault: PlaceFault, lines: &[u32]) -> PlaceEnding
    requires { HasItsLine lines.now fault }
    ensures { IsToldAs (fault ≡ of_place.Memory) (place_refusal lines.now fault) result }
{
    match fault {
        PlaceFault::Memory => PlaceEnding::from(Status::Memory),
        fault => PlaceEnding::Refused(refusal_at(fault, lines)),
    }
}

/// The ending where copies of lifetimes have no registers around those that these lines give.
fn unkept(fault: RegisterFault, lines: &[u32], given: &GivenRegisters) -> PlaceEnding
    requires { HasItsRegister lines.now given.now fault }
    ensures { IsToldAs (fault ≡ of_registers.Memory) (register_refusal lines.now given.now fault) result }
{
    match fault {
        RegisterFault::Given { index, cause } => PlaceEnding::Refused(Refusal::Register {
            line: given.lines[index],
            given: given.registers[index],
            cause,
        }),
        RegisterFault::Full { unit, port, node } => {
            PlaceEnding::Refused(refusal_at(PlaceFault::FileFull { unit, port, node }, lines))
        }
        RegisterFault::Memory => PlaceEnding::from(Status::Memory),
    }
}

/// The ending where there is no plan with the places of these lines and these registers.
pub(crate) fn unplanned(fault: GivenPlanFault, lines: &[u32], given: &GivenRegisters) -> PlaceEnding
    requires { HasItsPlace lines.now given.now fault }
    ensures { IsToldAs (IsWantOfMemory fault) (plan_refusal lines.now given.now fault) result }
{
    match fault {
        GivenPlanFault::Place(fault) => misplaced(fault, lines),
        GivenPlanFault::Registers(fault) => unkept(fault, lines, given),
        GivenPlanFault::Memory => PlaceEnding::from(Status::Memory),
    }
}

/// The ending where a text gives no registers.
pub(crate) fn registerless(fault: RegistersFault) -> PlaceEnding
    ensures { IsToldAs (fault ≡ of_text.Memory) (RegistersRefused fault) result }
{
    match fault {
        RegistersFault::Memory => PlaceEnding::from(Status::Memory),
        fault => PlaceEnding::Refused(Refusal::Registers(fault)),
    }
}

/// The ending where a text gives no places.
pub(crate) fn ungiven(fault: GivenFault) -> PlaceEnding
    ensures { IsToldAs (fault ≡ of_given.Memory) (text_refusal fault) result }
{
    match fault {
        GivenFault::Memory => PlaceEnding::from(Status::Memory),
        GivenFault::Missing(node) => {
            PlaceEnding::Refused(Refusal::Plan(PlaceFault::Missing(node)))
        }
        fault => PlaceEnding::Refused(Refusal::Text(fault)),
    }
}

/// The exit code of the program.
pub fn code(ending: &PlaceEnding) -> u8
    ensures { result ≡ place_code ending.now }
{
    match ending {
        PlaceEnding::Told(ending) => statuses::code(&ending.status),
        PlaceEnding::Refused(_) => REFUSED,
    }
}
