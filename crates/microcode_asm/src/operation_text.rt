//! The text of an operation, with its argument and its format.

ghost use Rattle.std.specs.Prelude.{◌≡◌, ◌++◌, OnOk};
ghost use Rattle.microcode_asm.specs.OperationText.{mode_name as mode_name_of};
ghost use Rattle.microcode_asm.specs.OperationText.{has_argument as has_argument_of, argument, format_part};

use crate::text::{put_number, put_signed, put_text};
use fix_word::{Format, Mode, Op};
use lists::Bytes;
use operations::is_formatted;
use std::alloc::AllocError;

fn mode_name(mode: Mode) -> &'static str
    ensures { result.now ≡ mode_name_of mode }
{
    match mode {
        Mode::Trunc => "trunc",
        Mode::Round => "round",
        Mode::Sat => "sat",
        Mode::RoundSat => "round,sat",
    }
}

/// Whether the operation has an argument.
fn has_argument(op: Op) -> bool
    ensures { result ≡ has_argument_of op }
{
    match op {
        Op::Input | Op::Output | Op::Const | Op::Addr => true,
        Op::Add | Op::Sub | Op::Neg | Op::Pass | Op::Mul | Op::Sel => false,
        Op::Lt | Op::Le | Op::Eq | Op::Ne | Op::And | Op::Or | Op::Not => false,
        Op::Load | Op::Store => false,
    }
}

/// Adds the argument, where the operation has one.
pub(crate) fn put_argument(out: &mut Bytes, op: Op, value: i64) -> Result<(), AllocError>
    ensures { OnOk result (out.new ≡ out.old ++ argument op value) }
{
    if has_argument(op) {
        put_signed(out, b" ", value)
    } else {
        Ok(())
    }
}

/// Adds how the result is quantised, where the operation does that.
pub(crate) fn put_format(out: &mut Bytes, op: Op, fmt: Format) -> Result<(), AllocError>
    ensures { OnOk result (out.new ≡ out.old ++ format_part op fmt) }
{
    if !is_formatted(op) {
        return Ok(());
    }
    put_signed(out, b" fmt ", i64::from(fmt.shift))?;
    put_text(out, b" ", mode_name(fmt.mode).as_bytes())?;
    put_number(out, b" ", u64::from(fmt.width))
}
