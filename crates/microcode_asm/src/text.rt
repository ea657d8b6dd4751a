//! Parts of lines of text.

ghost use Rattle.std.specs.Prelude.{◌≡◌, ◌++◌, decimal, OnOk};
ghost use Rattle.std.specs.Fmt.{signed_decimal};
ghost use Rattle.microcode_asm.specs.ScheduleText.{register_list};

use itoa::Buffer;
use lists::Bytes;
use std::alloc::AllocError;

/// Adds a label and a text.
pub(crate) fn put_text(out: &mut Bytes, label: &[u8], text: &[u8]) -> Result<(), AllocError>
    ensures { OnOk result (out.new ≡ out.old ++ (label.now ++ text.now)) }
{
    out.extend_from_slice(label)?;
    out.extend_from_slice(text)
}

/// Adds a label and a number in decimal.
///
/// # Errors
///
/// An error where no memory is left. Some of the text may be added then.
pub fn put_number(out: &mut Bytes, label: &[u8], value: u64) -> Result<(), AllocError>
    ensures { OnOk result (out.new ≡ out.old ++ (label.now ++ decimal value)) }
{
    let mut buffer = Buffer::new();
    put_text(out, label, buffer.format(value).as_bytes())
}

/// Adds a label and a number that may be below 0.
pub(crate) fn put_signed(out: &mut Bytes, label: &[u8], value: i64) -> Result<(), AllocError>
    ensures { OnOk result (out.new ≡ out.old ++ (label.now ++ signed_decimal value)) }
{
    let mut buffer = Buffer::new();
    put_text(out, label, buffer.format(value).as_bytes())
}

/// Adds registers, with a comma between two of them.
pub(crate) fn put_registers(out: &mut Bytes, registers: &[u8]) -> Result<(), AllocError>
    ensures { OnOk result (out.new ≡ out.old ++ register_list registers.now) }
{
    let Some((first, rest)) = registers.split_first() else {
        return Ok(());
    };
    put_number(out, b"", u64::from(*first))?;
    for register in rest {
        put_number(out, b",", u64::from(*register))?;
    }
    Ok(())
}
