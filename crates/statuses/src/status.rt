ghost use Rattle.std.specs.Prelude.{◌≡◌, None};
ghost use Rattle.statuses.specs.Status.{code_of};
ghost use Rattle.statuses.specs.Faults.{of_front, of_path, of_plan, of_form, of_net, of_frame};
ghost use Rattle.planner.specs.declared.fault.PlanFault.TheVariants.{Line as Unstored, Unit as Unbound};
ghost use Rattle.statuses.specs.declared.status.Status.TheVariants.{Memory, Desk, Conflict as in_conflict};

use cycle_sim::LoadFault;
use datapath::{Datapath, Kind, PathFault};
use delay_memory::LineFault;
use desk_core::Failed;
use equation_eval::EvalFault;
use micro_file::{CodeFault, FormFault};
use micro_image::Conflict;
use microcode_asm::AsmFault;
use net_core::NetFault;
use planner::PlanFault;
use rate_faults::FrameFault;
use sample_io::RowsFault;
use source_faults::{FrontError, FrontFault, NamedElement, Rejection};
use std::alloc::AllocError;
use thiserror::Error;
use unit_assign::UnitFault;

/// Why the first node without a functional unit, or the first without a delay line, has none. A node without a line has
/// its number in the program's graph, and one without a unit its number where lines have nodes of their own.
#[derive(Clone, Copy, Debug, PartialEq, Eq, Error)]
pub enum UnitRefusal {
    /// No unit is of the kind that does the node's operation.
    #[error("no unit {} for node {node}", kind.name())]
    NoUnit { kind: Kind, node: u32 },
    /// No unit of the right kind has all routes, and the first of them has none to or from this port. The line that is
    /// reported has the unit's name in the place of its number.
    #[error("no route to {unit}.{port} for node {node}")]
    NoRoute { unit: u8, port: u8, node: u32 },
    /// The node has more bits than a word of the datapath.
    #[error("node {node} too wide")]
    TooWide { node: u32 },
    /// The node needs a delay line, and the datapath has no ram.
    #[error("no ram for node {node}")]
    NoRam { node: u32 },
    /// No acu addresses the first ram that has room for the node's delay line. The line that is reported has the ram's
    /// name in the place of its number.
    #[error("no acu for ram {ram} at node {node}")]
    NoAcu { ram: u8, node: u32 },
}

/// Why bytes are no microcode.
#[derive(Clone, Copy, Debug, PartialEq, Eq, Error)]
pub enum ImageFault {
    /// There are more than 2^26 bytes.
    #[error("microcode too long")]
    TooLong,
    /// The bytes spell no image.
    #[error(transparent)]
    File(FormFault),
}

/// Why bytes are no samples.
#[derive(Clone, Copy, Debug, PartialEq, Eq, Error)]
pub enum SampleFault {
    /// The first place of the file that is no row.
    #[error("samples line {line} byte {at}")]
    Row {
        /// The line, from 1.
        line: u64,
        /// The first byte of the line, from 0, after which the line begins no row. Where the input ends within the
        /// line, the line's length.
        at: u64,
    },
    /// There are 2^32 bytes or more, of `net` more than 1 MiB.
    #[error("samples too long")]
    TooLong,
}

/// How a command ended.
#[derive(Clone, Copy, Debug, PartialEq, Eq, Error)]
pub enum Status {
    /// All input was read, and all output was written and closed.
    #[error("done")]
    Done,
    /// There was no memory. No file was made.
    #[error("no memory")]
    Memory,
    /// The words are no command, or the output is one of its inputs.
    #[error("bad command words")]
    Words,
    /// A file could not be read or written.
    #[error("file fault")]
    Desk,
    /// The source has no program.
    #[error(transparent)]
    FrontEnd(FrontFault),
    /// The file describes no datapath.
    #[error(transparent)]
    Path(PathFault),
    /// A node of the program's graph has no functional unit, or its delay line none.
    #[error(transparent)]
    Unit(UnitRefusal),
    /// No ram has as many cells left as the delay line of this node needs.
    #[error("no ram cells for node {node}")]
    LinesFull { node: u32 },
    /// No cycle of the period is left for this node.
    #[error("period exceeded at node {node}")]
    Period { node: u32 },
    /// The register file of this port has no register for the words of this node. The line that is reported has the
    /// unit's name in the place of its number.
    #[error("file full {unit}.{port} at node {node}")]
    FileFull { unit: u8, port: u8, node: u32 },
    /// The microcode is too long or spells no image.
    #[error(transparent)]
    Image(ImageFault),
    /// The samples are too many or have a line that is no row.
    #[error(transparent)]
    Samples(SampleFault),
    /// The microcode asks for what the hardware can't do.
    #[error(transparent)]
    Conflict(Conflict),
    /// The net file describes no net, or its processors' words do not fit one another.
    #[error(transparent)]
    Net(NetFault),
    /// The program has no frames of this form.
    #[error(transparent)]
    Frame(FrameFault),
}

impl From<AllocError> for Status {
    ghost from_gives = { λ _ status. status ≡ Memory };

    fn from(_: AllocError) -> Self {
        Status::Memory
    }
}

impl From<CodeFault> for Status {
    ghost from_gives = { λ _ status. status ≡ Memory };

    fn from(_: CodeFault) -> Self {
        Status::Memory
    }
}

impl From<LoadFault> for Status {
    ghost from_gives = { λ _ status. status ≡ Memory };

    fn from(_: LoadFault) -> Self {
        Status::Memory
    }
}

impl From<Failed> for Status {
    ghost from_gives = { λ _ status. status ≡ Desk };

    fn from(_: Failed) -> Self {
        Status::Desk
    }
}

impl From<FrontError> for Status {
    ghost from_gives = { λ error status. status ≡ of_front error };

    fn from(error: FrontError) -> Self {
        match error {
            FrontError::Fault(fault) => Status::FrontEnd(fault),
            FrontError::Memory => Status::Memory,
        }
    }
}

impl From<PathFault> for Status {
    ghost from_gives = { λ fault status. status ≡ of_path fault };

    fn from(fault: PathFault) -> Self {
        match fault {
            PathFault::Memory => Status::Memory,
            fault => Status::Path(fault),
        }
    }
}

impl From<AsmFault> for Status {
    ghost from_gives = { λ _ status. status ≡ Memory };

    fn from(_: AsmFault) -> Self {
        Status::Memory
    }
}

impl From<Rejection> for Status {
    ghost from_gives = { λ rejection status. status ≡ of_front rejection.error };

    fn from(rejection: Rejection) -> Self {
        Status::from(rejection.error)
    }
}

/// The status where a node has no delay line.
fn unstored(fault: LineFault) -> Status
    ensures { result ≡ of_plan (Unstored fault) }
{
    match fault {
        LineFault::NoRam(node) => Status::Unit(UnitRefusal::NoRam { node }),
        LineFault::NoAcu { ram, node } => Status::Unit(UnitRefusal::NoAcu { ram, node }),
        LineFault::LinesFull(node) => Status::LinesFull { node },
        LineFault::Memory => Status::Memory,
    }
}

/// The status where a node has no unit.
fn unbound(fault: UnitFault) -> Status
    ensures { result ≡ of_plan (Unbound fault) }
{
    match fault {
        UnitFault::TooWide(node) => Status::Unit(UnitRefusal::TooWide { node }),
        UnitFault::NoUnit { kind, node } => Status::Unit(UnitRefusal::NoUnit { kind, node }),
        UnitFault::NoRoute { unit, port, node } => {
            Status::Unit(UnitRefusal::NoRoute { unit, port, node })
        }
        UnitFault::Memory => Status::Memory,
    }
}

impl From<PlanFault> for Status {
    ghost from_gives = { λ fault status. status ≡ of_plan fault };

    fn from(fault: PlanFault) -> Self {
        match fault {
            PlanFault::Line(fault) => unstored(fault),
            PlanFault::Unit(fault) => unbound(fault),
            PlanFault::Period(node) => Status::Period { node },
            PlanFault::FileFull { unit, port, node } => Status::FileFull { unit, port, node },
            PlanFault::Memory => Status::Memory,
        }
    }
}

impl From<EvalFault> for Status {
    ghost from_gives = { λ _ status. status ≡ Memory };

    fn from(_: EvalFault) -> Self {
        Status::Memory
    }
}

impl From<FormFault> for Status {
    ghost from_gives = { λ fault status. status ≡ of_form fault };

    fn from(fault: FormFault) -> Self {
        match fault {
            FormFault::Memory => Status::Memory,
            fault => Status::Image(ImageFault::File(fault)),
        }
    }
}

impl From<RowsFault> for Status {
    ghost from_gives = { λ _ status. status ≡ Memory };

    fn from(_: RowsFault) -> Self {
        Status::Memory
    }
}

impl From<Conflict> for Status {
    ghost from_gives = { λ conflict status. status ≡ in_conflict conflict };

    fn from(conflict: Conflict) -> Self {
        Status::Conflict(conflict)
    }
}

impl From<NetFault> for Status {
    ghost from_gives = { λ fault status. status ≡ of_net fault };

    fn from(fault: NetFault) -> Self {
        match fault {
            NetFault::Memory => Status::Memory,
            fault => Status::Net(fault),
        }
    }
}

impl From<FrameFault> for Status {
    ghost from_gives = { λ fault status. status ≡ of_frame fault };

    fn from(fault: FrameFault) -> Self {
        match fault {
            FrameFault::Memory => Status::Memory,
            fault => Status::Frame(fault),
        }
    }
}

/// How a command ended, and what of the source or the datapath the error is about.
#[derive(Drop)]
pub struct Ending {
    pub status: Status,
    /// From 1.
    pub line: Option<u64>,
    pub element: Option<NamedElement>,
    /// The datapath whose units the error names.
    pub path: Option<Datapath>,
}

impl Ending {
    /// An error that is about a unit of the datapath.
    pub fn on_path(status: Status, path: Datapath) -> Self
        ensures { result.status ≡ status }
    {
        Ending {
            status,
            line: None,
            element: None,
            path: Some(path),
        }
    }
}

impl From<Status> for Ending {
    ghost from_gives = { λ status ending.
        ending ≡ record { status = status; line = None; element = None; path = None } };

    fn from(status: Status) -> Self {
        Ending {
            status,
            line: None,
            element: None,
            path: None,
        }
    }
}

impl From<AllocError> for Ending {
    ghost from_gives = { λ _ ending. ending ≡ record { status = Memory; line = None; element = None; path = None } };

    fn from(error: AllocError) -> Self {
        Ending::from(Status::from(error))
    }
}

impl From<AsmFault> for Ending {
    ghost from_gives = { λ _ ending. ending ≡ record { status = Memory; line = None; element = None; path = None } };

    fn from(fault: AsmFault) -> Self {
        Ending::from(Status::from(fault))
    }
}

impl From<EvalFault> for Ending {
    ghost from_gives = { λ _ ending. ending ≡ record { status = Memory; line = None; element = None; path = None } };

    fn from(fault: EvalFault) -> Self {
        Ending::from(Status::from(fault))
    }
}

impl From<Failed> for Ending {
    ghost from_gives = { λ _ ending. ending ≡ record { status = Desk; line = None; element = None; path = None } };

    fn from(failed: Failed) -> Self {
        Ending::from(Status::from(failed))
    }
}

impl From<Rejection> for Ending {
    ghost from_gives = { λ rejection ending. ending.status ≡ of_front rejection.error };

    fn from(rejection: Rejection) -> Self {
        Ending {
            status: Status::from(rejection.error),
            line: rejection.line,
            element: rejection.element,
            path: None,
        }
    }
}

/// The exit code of the program.
pub fn code(status: &Status) -> u8
    ensures { result ≡ code_of status.now }
{
    match status {
        Status::Done => 0,
        Status::Memory => 1,
        Status::Words => 2,
        Status::Desk => 3,
        Status::FrontEnd(_) => 4,
        Status::Path(_) => 5,
        Status::Unit(_) => 6,
        Status::LinesFull { .. } => 7,
        Status::Period { .. } => 8,
        Status::FileFull { .. } => 9,
        Status::Image(_) => 10,
        Status::Samples(_) => 11,
        Status::Conflict(_) => 12,
        Status::Net(_) => 14,
        Status::Frame(_) => 15,
    }
}
