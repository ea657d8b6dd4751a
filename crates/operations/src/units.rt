ghost use Rattle.std.specs.Prelude.{◌≡◌};
ghost use Rattle.operations.specs.Operations.{kind_of};
ghost use Rattle.operations.specs.Units.{ports};

use fix_word::Op;

/// The kinds of functional units.
#[derive(Clone, Copy, Debug, PartialEq, Eq)]
pub enum Kind {
    Input,
    Output,
    Rom,
    Alu,
    Mul,
    Sel,
    Ram,
    Acu,
}

impl Kind {
    /// The kind of the units that do an operation.
    pub fn of(op: Op) -> Kind
        ensures { result ≡ kind_of op }
    {
        match op {
            Op::Input => Kind::Input,
            Op::Output => Kind::Output,
            Op::Const => Kind::Rom,
            Op::Add | Op::Sub | Op::Neg | Op::Pass => Kind::Alu,
            Op::Lt | Op::Le | Op::Eq | Op::Ne => Kind::Alu,
            Op::And | Op::Or | Op::Not => Kind::Alu,
            Op::Mul => Kind::Mul,
            Op::Sel => Kind::Sel,
            Op::Load | Op::Store => Kind::Ram,
            Op::Addr => Kind::Acu,
        }
    }

    /// How many ports a unit of the kind has.
    pub fn ports(self) -> usize
        ensures { result ≡ ports self }
    {
        match self {
            Kind::Input | Kind::Rom | Kind::Acu => 0,
            Kind::Output => 1,
            Kind::Alu | Kind::Mul | Kind::Ram => 2,
            Kind::Sel => 3,
        }
    }
}

/// A port of a unit, which has a register file of its own.
#[derive(Clone, Copy, Debug, PartialEq, Eq)]
pub struct PortRef {
    pub unit: u8,
    pub port: u8,
}
