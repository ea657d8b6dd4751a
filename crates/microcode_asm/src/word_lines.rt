//! The lines of a microword.

ghost use Rattle.std.specs.Prelude.{◌≡◌, ◌++◌, OnOk};
ghost use Rattle.std.specs.List.{flat_map};
ghost use Rattle.microcode_asm.specs.Listing.{register, registers, issue_line, enable_line, take_line};
ghost use Rattle.microcode_asm.specs.Listing.{is_empty as is_empty_in, word_lines};

use crate::operation_text::{put_argument, put_format};
use crate::text::{put_number, put_text};
use lists::Bytes;
use micro_image::{Enable, Issue, Take, Word};
use operations::operation_name;
use std::alloc::AllocError;

/// Adds a blank and a register for each.
fn put_each_register(out: &mut Bytes, regs: &[u8]) -> Result<(), AllocError>
    ensures { OnOk result (out.new ≡ out.old ++ flat_map register regs.now) }
{
    for reg in regs {
        put_number(out, b" ", u64::from(*reg))?;
    }
    Ok(())
}

/// Adds the register that is read at each port, where the unit has ports.
fn put_ports(out: &mut Bytes, regs: &[u8]) -> Result<(), AllocError>
    ensures { OnOk result (out.new ≡ out.old ++ registers regs.now) }
{
    if regs.is_empty() {
        return Ok(());
    }
    out.extend_from_slice(b" regs")?;
    put_each_register(out, regs)
}

#[tactic(auto, unfolding(crate::specs::Listing::issue_line))]
fn put_issue(out: &mut Bytes, issue: &Issue) -> Result<(), AllocError>
    ensures { OnOk result (out.new ≡ out.old ++ issue_line issue.now) }
{
    put_number(out, b"issue ", u64::from(issue.unit))?;
    put_text(out, b" ", operation_name(issue.op).as_bytes())?;
    put_argument(out, issue.op, issue.arg)?;
    put_format(out, issue.op, issue.fmt)?;
    put_ports(out, issue.regs.as_slice())?;
    Ok(out.push(b'\n')?)
}

#[tactic(auto, unfolding(crate::specs::Listing::enable_line))]
fn put_enable(out: &mut Bytes, enable: Enable) -> Result<(), AllocError>
    ensures { OnOk result (out.new ≡ out.old ++ enable_line enable) }
{
    put_number(out, b"drive ", u64::from(enable.unit))?;
    put_number(out, b" ", u64::from(enable.bus))?;
    Ok(out.push(b'\n')?)
}

#[tactic(auto, unfolding(crate::specs::Listing::take_line))]
fn put_take(out: &mut Bytes, take: Take) -> Result<(), AllocError>
    ensures { OnOk result (out.new ≡ out.old ++ take_line take) }
{
    put_number(out, b"take ", u64::from(take.port.unit))?;
    put_number(out, b".", u64::from(take.port.port))?;
    put_number(out, b" bus ", u64::from(take.bus))?;
    put_number(out, b" reg ", u64::from(take.reg))?;
    Ok(out.push(b'\n')?)
}

fn put_issues(out: &mut Bytes, issues: &[Issue]) -> Result<(), AllocError>
    ensures { OnOk result (out.new ≡ out.old ++ flat_map issue_line issues.now) }
{
    for issue in issues {
        put_issue(out, issue)?;
    }
    Ok(())
}

fn put_enables(out: &mut Bytes, enables: &[Enable]) -> Result<(), AllocError>
    ensures { OnOk result (out.new ≡ out.old ++ flat_map enable_line enables.now) }
{
    for enable in enables {
        put_enable(out, *enable)?;
    }
    Ok(())
}

fn put_takes(out: &mut Bytes, takes: &[Take]) -> Result<(), AllocError>
    ensures { OnOk result (out.new ≡ out.old ++ flat_map take_line takes.now) }
{
    for take in takes {
        put_take(out, *take)?;
    }
    Ok(())
}

/// Whether the hardware does nothing in the cycle.
fn is_empty(word: &Word) -> bool
    ensures { result ≡ is_empty_in word.now }
{
    word.issues.is_empty() && word.enables.is_empty() && word.takes.is_empty()
}

/// Adds the line with the word's number and those of what it has, where it is not empty.
#[tactic(auto, unfolding(crate::specs::Listing::word_lines))]
pub(crate) fn put_word(out: &mut Bytes, number: usize, word: &Word) -> Result<(), AllocError>
    ensures { OnOk result (out.new ≡ out.old ++ word_lines number word.now) }
{
    if is_empty(word) {
        return Ok(());
    }
    put_number(out, b"word ", number as u64)?;
    out.push(b'\n')?;
    put_issues(out, word.issues.as_slice())?;
    put_enables(out, word.enables.as_slice())?;
    put_takes(out, word.takes.as_slice())
}
