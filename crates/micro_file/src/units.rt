//! The units of a file.
ghost use Rattle.std.specs.Prelude.{◌≡◌, [], ◌++◌, length, OnOk};
ghost use Rattle.micro_file.specs.Private.Fields.{many_at};
ghost use Rattle.micro_file.specs.Private.Reads.{Gives, Reads};
ghost use Rattle.micro_file.specs.Private.Ends.{ends_of, HaveRoom, all_judged};
ghost use Rattle.micro_file.specs.Private.Units.{file_at, cells_at, ram_at, unit_at, is_tied, some_units_at, units_at};

use crate::fields::Fields;
use crate::misread::{Unread, refused};
use lists::List;
use micro_image::{Kind, UnitDesc};
use std::alloc::Global;

#[tactic(auto, unfolding(crate::specs::Private::Units::file_at))]
fn read_file<R: Fields>(alloc: Global, reader: &mut R) -> Result<List<i64>, Unread>
    ensures { Reads (file_at R.form) (R.rest reader.old) result (R.rest reader.new) }
{
    let size = reader.registers()?;
    reader.initial(alloc, size)
}

fn read_files<R: Fields>(
    alloc: Global,
    count: usize,
    reader: &mut R,
) -> Result<List<List<i64>>, Unread>
    ensures { Reads (many_at (λ _. file_at R.form) [] count) (R.rest reader.old) result (R.rest reader.new) }
{
    let mut files = List::with_capacity(alloc, count)?;
    for _ in 0..count {
        let file = read_file(alloc, reader)?;
        files.push(file)?;
    }
    Ok(files)
}

/// The cells of a ram, and none of another unit.
#[tactic(auto, unfolding(crate::specs::Private::Units::cells_at))]
fn read_cells<R: Fields>(alloc: Global, kind: Kind, reader: &mut R) -> Result<List<i64>, Unread>
    ensures { Reads (cells_at R.form kind) (R.rest reader.old) result (R.rest reader.new) }
{
    match kind {
        Kind::Ram => {
            let size = reader.cells()?;
            reader.initial(alloc, size)
        }
        _ => Ok(List::new(alloc)),
    }
}

/// The number of an acu's ram, and 0 at another unit.
#[tactic(auto, unfolding(crate::specs::Private::Units::ram_at))]
fn read_ram<R: Fields>(kind: Kind, reader: &mut R) -> Result<u8, Unread>
    ensures { Reads (ram_at R.form kind) (R.rest reader.old) result (R.rest reader.new) }
{
    match kind {
        Kind::Acu => reader.ram(),
        _ => Ok(0),
    }
}

#[tactic(auto, unfolding(crate::specs::Private::Units::unit_at))]
fn read_unit<R: Fields>(alloc: Global, reader: &mut R) -> Result<UnitDesc, Unread>
    ensures { Reads (unit_at R.form) (R.rest reader.old) result (R.rest reader.new) }
{
    let kind = reader.kind()?;
    let latency = reader.latency()?;
    let gap = reader.gap(latency)?;
    let files = read_files(alloc, kind.ports(), reader)?;
    let cells = read_cells(alloc, kind, reader)?;
    let ram = read_ram(kind, reader)?;
    Ok(UnitDesc {
        kind,
        latency,
        gap,
        files,
        cells,
        ram,
    })
}

/// So many units, and how much is left behind each.
fn read_several<R: Fields>(
    alloc: Global,
    count: usize,
    ends: &mut List<usize>,
    reader: &mut R,
) -> Result<List<UnitDesc>, Unread>
    requires room { HaveRoom R.form ends.old }
    ensures units { Reads (many_at (λ _. unit_at R.form) [] count) (R.rest reader.old) result (R.rest reader.new) }
    ensures ends { OnOk result (ends.new ≡ ends.old ++ ends_of R.form count (R.rest reader.old)) }
    ensures room { OnOk result (HaveRoom R.form ends.new) }
{
    let mut units = List::with_capacity(alloc, count)?;
    for _ in 0..count {
        let unit = read_unit(alloc, reader)?;
        ends.push(reader.left())?;
        units.push(unit)?;
    }
    Ok(units)
}

/// Whether the unit is no acu, or an acu with a ram among the units.
fn has_ram(units: &List<UnitDesc>, unit: &UnitDesc) -> bool
    ensures { result ≡ is_tied units.now unit.now }
{
    match unit.kind {
        Kind::Acu => match units.get(usize::from(unit.ram)) {
            Some(ram) => matches!(ram.kind, Kind::Ram),
            None => false,
        },
        _ => true,
    }
}

/// Passes the units if each acu has a ram.
fn judge<R: Fields>(units: &List<UnitDesc>, ends: &List<usize>, reader: &R) -> Result<(), Unread>
    requires ends { length ends.now ≡ length units.now }
    requires room { HaveRoom R.form ends.now }
    ensures { Gives result (all_judged R.form units.now units.now ends.now) }
{
    for (k, unit) in units.iter().enumerate() {
        if !has_ram(units, unit) {
            return Err(refused(ends[k] + reader.ram_length()));
        }
    }
    Ok(())
}

/// So many units, each acu with its ram.
fn read_counted<R: Fields>(
    alloc: Global,
    count: usize,
    reader: &mut R,
) -> Result<List<UnitDesc>, Unread>
    ensures { Reads (some_units_at R.form count) (R.rest reader.old) result (R.rest reader.new) }
{
    let mut ends = List::with_capacity(alloc, count)?;
    let units = read_several(alloc, count, &mut ends, reader)?;
    judge(&units, &ends, reader)?;
    Ok(units)
}

#[tactic(auto, unfolding(crate::specs::Private::Units::units_at))]
pub(crate) fn read_units<R: Fields>(alloc: Global, reader: &mut R) -> Result<List<UnitDesc>, Unread>
    ensures { Reads (units_at R.form) (R.rest reader.old) result (R.rest reader.new) }
{
    let count = reader.units()?;
    read_counted(alloc, usize::from(count), reader)
}
