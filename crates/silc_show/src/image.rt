//! The image of a microcode file: a line for each unit, register file, microword, issue, bus drive and
//! register-file write.

ghost use Rattle.std.specs.Prelude.{IfOk};
ghost use Rattle.micro_image.specs.Spells.{Spells};
ghost use Rattle.micro_image.specs.Valid.{IsValid};

use crate::page::{Page, Refused};
use lists::Bytes;
use micro_file::{CodeFault, FormFault, decode, encode};
use micro_image::{Enable, Image, Issue, Take, UnitDesc, Word};
use operations::operation_name;

/// A microcode file has at most this many bytes.
const MICROCODE_LIMIT: usize = 1 << 26;

fn put_unit(page: &mut Page, number: usize, unit: &UnitDesc) {
    page.number("unit ", number);
    page.text(" ");
    page.text(unit.kind.name());
    page.number(" latency ", unit.latency);
    page.number(" gap ", unit.gap);
    page.number(" ram ", unit.ram);
    page.end();
    for file in &unit.files {
        page.numbers("  file", file);
        page.end();
    }
    if !unit.cells.is_empty() {
        page.numbers("  cells", &unit.cells);
        page.end();
    }
}

/// Begins the line of an issue.
pub fn put_issue(page: &mut Page, issue: &Issue) {
    page.number("  issue unit ", issue.unit);
    page.text(" ");
    page.text(operation_name(issue.op));
    page.format(issue.fmt);
    page.number(" argument ", issue.arg);
    page.numbers(" registers", &issue.regs);
}

/// Begins the line of a bus drive.
pub fn put_drive(page: &mut Page, drive: Enable) {
    page.number("  drive unit ", drive.unit);
    page.number(" bus ", drive.bus);
}

/// Begins the line of a register-file write.
pub fn put_take(page: &mut Page, take: Take) {
    page.number("  take unit ", take.port.unit);
    page.number(" port ", take.port.port);
    page.number(" bus ", take.bus);
    page.number(" register ", take.reg);
}

fn put_word(page: &mut Page, number: usize, word: &Word) {
    page.number("word ", number);
    page.end();
    for issue in &word.issues {
        put_issue(page, issue);
        page.end();
    }
    for drive in &word.enables {
        put_drive(page, *drive);
        page.end();
    }
    for take in &word.takes {
        put_take(page, *take);
        page.end();
    }
}

/// What stands before the words of an image: its numbers and its units.
#[derive(Clone, Copy)]
pub struct Head<'a> {
    pub period: u16,
    pub unroll: u8,
    pub inputs: &'a [u8],
    pub outs: u8,
    pub units: &'a [UnitDesc],
    pub buses: u8,
}

pub fn put_head(page: &mut Page, head: Head<'_>) {
    page.number("period ", head.period);
    page.number("\nunroll ", head.unroll);
    page.numbers("\ninputs", head.inputs);
    page.number("\noutputs ", head.outs);
    page.end();
    for (number, unit) in head.units.iter().enumerate() {
        put_unit(page, number, unit);
    }
    page.number("buses ", head.buses);
    page.end();
}

fn put_image(page: &mut Page, image: &Image) {
    let head = Head {
        period: image.period,
        unroll: image.unroll,
        inputs: &image.inputs,
        outs: image.outs,
        units: &image.units,
        buses: image.buses,
    };
    put_head(page, head);
    for (number, word) in image.words.iter().enumerate() {
        put_word(page, number, word);
    }
}

pub fn image_of(page: &mut Page, bytes: &[u8]) -> Result<Image, Refused>
    ensures spelled { IfOk result (λ image. Spells bytes.now image) }
    ensures valid { IfOk result (λ image. IsValid image) }
{
    if bytes.len() > MICROCODE_LIMIT {
        return Err(page.refuse_length());
    }
    match decode(page.alloc, bytes) {
        Ok(image) => Ok(image),
        Err(FormFault::Memory) => Err(page.cut()),
        Err(fault) => Err(page.refuse(&fault)),
    }
}

pub fn bytes_of(page: &mut Page, image: &Image) -> Result<Bytes, Refused>
    requires { IsValid image.now }
{
    match encode(page.alloc, image) {
        Ok(bytes) => Ok(bytes),
        Err(CodeFault::Memory) => Err(page.cut()),
    }
}

pub fn put(page: &mut Page, bytes: &[u8]) -> Result<(), Refused> {
    let image = image_of(page, bytes)?;
    let again = bytes_of(page, &image)?;
    put_image(page, &image);
    page.text(if again.as_slice() == bytes {
        "same\n"
    } else {
        "other bytes\n"
    });
    Ok(())
}
