ghost use Rattle.std.specs.Prelude.{◌≡◌, ◌≤◌, ◌^◌, unsigned_abs};
ghost use Rattle.fix_word.specs.Operations.{IsReady, IsApply};
ghost use Rattle.fix_word.specs.Values.{apply_of};

use crate::types::Format;
use crate::words::form;

/// What a unit of the processor does with its operands.
#[derive(Clone, Copy, Debug, PartialEq, Eq)]
pub enum Op {
    Input,
    Output,
    Const,
    Add,
    Sub,
    Neg,
    Pass,
    Lt,
    Le,
    Eq,
    Ne,
    And,
    Or,
    Not,
    Mul,
    Sel,
    Load,
    Store,
    Addr,
}

/// The result of an operation from `Add` to `Sel` at the operands, which are raw words or truth values. Operands that
/// the operation does not read are ignored, and so is the format by operations that do not round.
#[inline(always)]
pub fn apply(op: Op, fmt: &Format, a: i64, b: i64, c: i64) -> i64
    requires ready { IsReady op fmt.now }
    requires a { unsigned_abs a ≤ 2 ^ 39 }
    requires b { unsigned_abs b ≤ 2 ^ 39 }
    requires c { unsigned_abs c ≤ 2 ^ 39 }
    ensures meaning { IsApply op fmt.now a b c result }
    ensures value { result ≡ apply_of op fmt.now a b c }
    // So a result may be an operand of the next operation.
    ensures bound { unsigned_abs result ≤ 2 ^ 39 }
{
    match op {
        Op::Add => form((a + b) as i128, fmt),
        Op::Sub => form((a - b) as i128, fmt),
        Op::Neg => form(-a as i128, fmt),
        Op::Pass => form(a as i128, fmt),
        Op::Mul => form(a as i128 * b as i128, fmt),
        Op::Lt => i64::from(a < b),
        Op::Le => i64::from(a <= b),
        Op::Eq => i64::from(a == b),
        Op::Ne => i64::from(a != b),
        Op::And => i64::from(a != 0 && b != 0),
        Op::Or => i64::from(a != 0 || b != 0),
        Op::Not => i64::from(a == 0),
        Op::Sel => if a != 0 { b } else { c },
        Op::Input | Op::Output | Op::Const | Op::Load | Op::Store | Op::Addr => unreachable!(),
    }
}
