//! All fields of a file but those of its words, and what an issue does.
ghost use Rattle.std.specs.Prelude.{◌≡◌, ◌*◌, [], length};
ghost use Rattle.micro_file.specs.Private.Fields.{many_at};
ghost use Rattle.micro_file.specs.Private.Hardware.{inputs_at, hardware_at, issue_on_at};
ghost use Rattle.micro_file.specs.Private.Reads.{Reads};

use crate::fields::Fields;
use crate::misread::Unread;
use crate::units::read_units;
use lists::List;
use micro_image::{Image, Issue, UnitDesc, reads};
use std::alloc::Global;

fn read_widths<R: Fields>(alloc: Global, count: usize, reader: &mut R) -> Result<List<u8>, Unread>
    ensures { Reads (many_at (λ _. R.form.width) [] count) (R.rest reader.old) result (R.rest reader.new) }
{
    let mut widths = List::with_capacity(alloc, count)?;
    for _ in 0..count {
        let width = reader.width()?;
        widths.push(width)?;
    }
    Ok(widths)
}

#[tactic(auto, unfolding(crate::specs::Private::Hardware::inputs_at))]
fn read_inputs<R: Fields>(alloc: Global, reader: &mut R) -> Result<List<u8>, Unread>
    ensures { Reads (inputs_at R.form) (R.rest reader.old) result (R.rest reader.new) }
{
    let count = reader.channels()?;
    read_widths(alloc, usize::from(count), reader)
}

/// All but the words.
#[tactic(auto, unfolding(crate::specs::Private::Hardware::hardware_at))]
pub(crate) fn read_hardware<R: Fields>(alloc: Global, reader: &mut R) -> Result<Image, Unread>
    ensures { Reads (hardware_at R.form) (R.rest reader.old) result (R.rest reader.new) }
{
    let period = reader.period()?;
    let unroll = reader.unroll()?;
    let inputs = read_inputs(alloc, reader)?;
    let outs = reader.channels()?;
    let units = read_units(alloc, reader)?;
    let buses = reader.buses()?;
    Ok(Image {
        period,
        unroll,
        inputs,
        outs,
        units,
        buses,
        words: List::new(alloc),
    })
}

pub(crate) fn word_count(image: &Image) -> usize
    ensures { result ≡ image.now.period * image.now.unroll }
{
    usize::from(image.period) * usize::from(image.unroll)
}

/// An issue on a unit: all but the unit's number.
#[tactic(auto, unfolding(crate::specs::Private::Hardware::issue_on_at))]
pub(crate) fn read_issue_on<R: Fields>(
    alloc: Global,
    image: &Image,
    number: u8,
    unit: &UnitDesc,
    reader: &mut R,
) -> Result<Issue, Unread>
    ensures { Reads (issue_on_at R.form image.now number unit.now) (R.rest reader.old) result (R.rest reader.new) }
{
    let op = reader.operation(unit.kind)?;
    let fmt = reader.format(op)?;
    let arg = reader.argument(op, image.inputs.len(), usize::from(image.outs))?;
    let regs = reader.named(alloc, &unit.files, reads(op))?;
    Ok(Issue {
        unit: number,
        op,
        fmt,
        arg,
        regs,
    })
}
