//! The names of the operations and of the kinds of units.

ghost use Rattle.std.specs.Prelude.{◌≡◌};
ghost use Rattle.operations.specs.Names.{operation_name as operation_name_of, kind_name};

use crate::units::Kind;
use fix_word::Op;

/// The name of an operation in the texts of schedules and images.
pub fn operation_name(op: Op) -> &'static str
    ensures { result.now ≡ operation_name_of op }
{
    match op {
        Op::Input => "input",
        Op::Output => "output",
        Op::Const => "const",
        Op::Add => "add",
        Op::Sub => "sub",
        Op::Neg => "neg",
        Op::Pass => "pass",
        Op::Lt => "lt",
        Op::Le => "le",
        Op::Eq => "eq",
        Op::Ne => "ne",
        Op::And => "and",
        Op::Or => "or",
        Op::Not => "not",
        Op::Mul => "mul",
        Op::Sel => "sel",
        Op::Load => "load",
        Op::Store => "store",
        Op::Addr => "addr",
    }
}

impl Kind {
    /// The name of the kind in datapath files.
    pub fn name(self) -> &'static str
        ensures { result.now ≡ kind_name self }
    {
        match self {
            Kind::Input => "in",
            Kind::Output => "out",
            Kind::Rom => "rom",
            Kind::Alu => "alu",
            Kind::Mul => "mul",
            Kind::Sel => "sel",
            Kind::Ram => "ram",
            Kind::Acu => "acu",
        }
    }
}
