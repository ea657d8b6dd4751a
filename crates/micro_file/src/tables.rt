//! What numbers of a file stand for, by their places: kinds, operations, modes.

use fix_word::{Mode, Op};
use micro_image::Kind;

/// The kinds in the order of their numbers.
pub(crate) const KINDS: [Kind; 8] = [
    Kind::Input,
    Kind::Output,
    Kind::Rom,
    Kind::Alu,
    Kind::Mul,
    Kind::Sel,
    Kind::Ram,
    Kind::Acu,
];

/// The operations in the order of their opcodes.
pub const OPERATIONS: [Op; 19] = [
    Op::Input,
    Op::Output,
    Op::Const,
    Op::Add,
    Op::Sub,
    Op::Neg,
    Op::Pass,
    Op::Lt,
    Op::Le,
    Op::Eq,
    Op::Ne,
    Op::And,
    Op::Or,
    Op::Not,
    Op::Mul,
    Op::Sel,
    Op::Load,
    Op::Store,
    Op::Addr,
];

/// The modes in the order of their numbers.
pub(crate) const MODES: [Mode; 4] = [Mode::Trunc, Mode::Round, Mode::Sat, Mode::RoundSat];
