ghost use Rattle.std.specs.Prelude.{◌≡◌};
ghost use Rattle.operations.specs.Operations.{is_formatted as is_formatted_in, operands};

use fix_word::Op;

/// How many ports an operation reads, from port 0 on: one for each operand.
pub fn reads(op: Op) -> usize
    ensures { result ≡ operands op }
{
    match op {
        Op::Input | Op::Const | Op::Addr => 0,
        Op::Output | Op::Neg | Op::Pass | Op::Not | Op::Load => 1,
        Op::Add | Op::Sub | Op::Mul | Op::Store => 2,
        Op::Lt | Op::Le | Op::Eq | Op::Ne | Op::And | Op::Or => 2,
        Op::Sel => 3,
    }
}

/// Whether an operation brings its exact result to a word by a format.
pub fn is_formatted(op: Op) -> bool
    ensures { result ≡ is_formatted_in op }
{
    match op {
        Op::Add | Op::Sub | Op::Neg | Op::Pass | Op::Mul => true,
        Op::Input | Op::Output | Op::Const | Op::Addr | Op::Load | Op::Store => false,
        Op::Lt | Op::Le | Op::Eq | Op::Ne | Op::And | Op::Or | Op::Not | Op::Sel => false,
    }
}
