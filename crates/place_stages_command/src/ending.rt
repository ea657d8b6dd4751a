//! How the command ended where it is not done.

ghost use Rattle.std.specs.Prelude.{◌≡◌, None};
ghost use Rattle.place_stages_command.specs.Endings.{node_in, HasItsLine, refusal_in, misplaced_in, ungiven_in, pipe_code};

use place_file::{Given, GivenFault, LineCause};
use placed_stages::StagePlaceFault;
use statuses::{Ending, Status};
use thiserror::Error;

/// The exit code where PLAN gives no plan.
const REFUSED: u8 = 16;

/// Why PLAN gives no plan.
#[derive(Clone, Copy, Debug, PartialEq, Eq, Error)]
pub enum PipeRefusal {
    /// It has more than 1 MiB.
    #[error("plan too long")]
    TooLong,
    /// This line, from 1, gives no place.
    #[error("plan line {line}: {cause}")]
    Text { line: u32, cause: LineCause },
    /// The node of this line, from 1, cannot stand at its place.
    #[error("plan line {line}: {fault}")]
    Line { line: u32, fault: StagePlaceFault },
    /// There is no plan, and no line is to blame.
    #[error("{0}")]
    Plan(StagePlaceFault),
}

/// How the command ended where it is not done.
#[derive(Drop)]
pub enum PipeEnding {
    /// As a command of `silc` ends that has the same files.
    Told(Ending),
    /// SRC is a source and DP a datapath, and PLAN gives no plan of the one over the other.
    Refused(PipeRefusal),
}

impl From<Ending> for PipeEnding {
    ghost use Rattle.place_stages_command.specs.declared.ending.PipeEnding.TheVariants.{Told};

    ghost from_gives = { λ ending pipe_ending. pipe_ending ≡ Told ending };

    fn from(ending: Ending) -> Self {
        PipeEnding::Told(ending)
    }
}

impl From<Status> for PipeEnding {
    ghost use Rattle.place_stages_command.specs.declared.ending.PipeEnding.TheVariants.{Told};

    ghost from_gives = { λ status ending.
        ending ≡ Told (record { status = status; line = None; element = None; path = None }) };

    fn from(status: Status) -> Self {
        PipeEnding::Told(Ending::from(status))
    }
}

/// The node that the fault names, where its number is that of a place.
fn node_of(fault: &StagePlaceFault) -> Option<u32>
    ensures { result ≡ node_in fault.now }
{
    match fault {
        StagePlaceFault::Line(_) | StagePlaceFault::Missing(_) | StagePlaceFault::Memory => None,
        StagePlaceFault::Surplus(node)
        | StagePlaceFault::TooWide(node)
        | StagePlaceFault::WrongUnit(node)
        | StagePlaceFault::Late(node)
        | StagePlaceFault::Past(node)
        | StagePlaceFault::Busy(node)
        | StagePlaceFault::Blocked(node)
        | StagePlaceFault::Unstaged(node)
        | StagePlaceFault::FileFull { node, .. } => Some(*node),
    }
}

/// The refusal of places with this fault, which these lines give.
fn refusal_at(fault: StagePlaceFault, lines: &[u32]) -> PipeRefusal
    requires { HasItsLine lines.now fault }
    ensures { result ≡ refusal_in lines.now fault }
{
    match node_of(&fault) {
        Some(node) => PipeRefusal::Line {
            line: lines[node as usize],
            fault,
        },
        None => PipeRefusal::Plan(fault),
    }
}

/// The ending where nodes cannot stand at their places, which were given so.
pub(crate) fn misplaced(fault: StagePlaceFault, given: &Given) -> PipeEnding
    requires { HasItsLine given.now.lines fault }
    ensures { result ≡ misplaced_in given.now.lines fault }
{
    match fault {
        StagePlaceFault::Memory => PipeEnding::from(Status::Memory),
        fault => PipeEnding::Refused(refusal_at(fault, given.lines.as_slice())),
    }
}

/// The ending where a text gives no places.
pub(crate) fn ungiven(fault: GivenFault) -> PipeEnding
    ensures { result ≡ ungiven_in fault }
{
    match fault {
        GivenFault::Line { line, cause } => PipeEnding::Refused(PipeRefusal::Text { line, cause }),
        GivenFault::Missing(node) => {
            PipeEnding::Refused(PipeRefusal::Plan(StagePlaceFault::Missing(node)))
        }
        GivenFault::Memory => PipeEnding::from(Status::Memory),
    }
}

/// The exit code of the program.
pub fn code(ending: &PipeEnding) -> u8
    ensures { result ≡ pipe_code ending.now }
{
    match ending {
        PipeEnding::Told(ending) => statuses::code(&ending.status),
        PipeEnding::Refused(_) => REFUSED,
    }
}
