//! The numbers by which operations stand in a microcode file.
ghost use Rattle.std.specs.Prelude.{◌≡◌, ◌≤◌, ◌==◌};
ghost use Rattle.std.specs.List.{position};
ghost use Rattle.micro_image.specs.Codes.{operations_of as operations_in, place_of as place_in, place_width};
ghost use Rattle.micro_image.specs.Codes.{AreOncePlaced, ArePlacesHeld};
ghost use Rattle.micro_image.specs.Operations.{opcode as opcode_in};

use fix_word::Op;
use operations::Kind;

/// The number of an operation in version 1: its place among all of them, in the order in which `Op` has them.
fn opcode_of(op: Op) -> u8
    ensures { result ≡ opcode_in op }
{
    op as u8
}

/// The operations of a kind, in the order of their places.
pub fn operations_of(kind: Kind) -> &'static [Op]
    ensures { result.now ≡ operations_in kind }
{
    match kind {
        Kind::Input => &[Op::Input],
        Kind::Output => &[Op::Output],
        Kind::Rom => &[Op::Const],
        Kind::Alu => &[
            Op::Add,
            Op::Sub,
            Op::Neg,
            Op::Pass,
            Op::Lt,
            Op::Le,
            Op::Eq,
            Op::Ne,
            Op::And,
            Op::Or,
            Op::Not,
        ],
        Kind::Mul => &[Op::Mul],
        Kind::Sel => &[Op::Sel],
        Kind::Ram => &[Op::Load, Op::Store],
        Kind::Acu => &[Op::Addr],
    }
}

/// How many bits hold a place among them.
#[inline]
pub fn place_width_of(kind: Kind) -> u32
    ensures width { result ≡ place_width kind }
    ensures few { result ≤ 57 }
{
    match kind {
        Kind::Alu => 4,
        Kind::Ram => 1,
        _ => 0,
    }
}

fn position_of(opcode: u8, operations: &[Op]) -> Option<usize>
    ensures { result ≡ position (λ op. opcode_in op == opcode) operations.now }
{
    operations.iter().position(|op| opcode_of(*op) == opcode)
}

/// The number of an operation in version 2: its place among its kind's.
pub fn place_of(op: Op) -> usize
    ensures { result ≡ place_in op }
{
    position_of(opcode_of(op), operations_of(Kind::of(op))).unwrap_or(0)
}

/// Each operation has a place of its own among its kind's, which the bits of the kind hold.
pub fn operations_have_places()
    ensures once { AreOncePlaced }
    ensures held { ArePlacesHeld }
{}
