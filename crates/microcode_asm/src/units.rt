//! The units of an image.

ghost use Rattle.std.specs.Prelude.{◌≡◌, ◌<◌, ℕ, [], length, map, replicate, slice_index_or, pos, IfOk};
ghost use Rattle.operations.specs.declared.units.PortRef as of_port;
ghost use Rattle.micro_image.specs.Fields.{no_unit};
ghost use Rattle.micro_image.specs.Log.{Register, Cell};
ghost use Rattle.microcode_asm.specs.Units.{zeros, blank_unit, Writes};

use datapath::{Datapath, PortRef, Unit};
use lists::List;
use micro_image::UnitDesc;
use std::alloc::{AllocError, Global};

fn zero_words(alloc: Global, count: usize) -> Result<List<i64>, AllocError>
    ensures { IfOk result (λ words. words ≡ zeros count) }
{
    Ok(List::from_vec(vec![in alloc; 0; count]?))
}

fn blank_files(alloc: Global, sizes: &List<u16>) -> Result<List<List<i64>>, AllocError>
    ensures { IfOk result (λ files. files ≡ map zeros sizes.now) }
{
    let mut files = List::with_capacity(alloc, sizes.len())?;
    for size in sizes.iter() {
        files.push(zero_words(alloc, usize::from(*size))?)?;
    }
    Ok(files)
}

/// The unit, whose registers and cells hold 0.
fn blank(alloc: Global, unit: &Unit) -> Result<UnitDesc, AllocError>
    ensures { IfOk result (λ blank. blank ≡ blank_unit unit.now) }
{
    Ok(UnitDesc {
        kind: unit.kind,
        latency: unit.latency,
        gap: unit.gap,
        files: blank_files(alloc, &unit.files)?,
        cells: zero_words(alloc, unit.cells as usize)?,
        ram: unit.ram,
    })
}

/// The units of the datapath, whose registers and cells hold 0.
///
/// # Errors
///
/// `AllocError` where no memory is left.
pub fn blank_units(alloc: Global, datapath: &Datapath) -> Result<List<UnitDesc>, AllocError>
    ensures { IfOk result (λ units. units ≡ map blank_unit datapath.now.units) }
{
    let mut units = List::with_capacity(alloc, datapath.units.len())?;
    for unit in datapath.units.iter() {
        units.push(blank(alloc, unit)?)?;
    }
    Ok(units)
}

/// Writes a register.
pub(crate) fn write_register(units: &mut List<UnitDesc>, port: PortRef, reg: u8, word: i64)
    requires unit { port.unit < length units.old }
    requires port { port.port < length (slice_index_or units.old port.unit no_unit).files }
    requires register { reg
        < length (slice_index_or (slice_index_or units.old port.unit no_unit).files port.port []) }
    ensures { Writes (Register port.unit port.port reg) word units.old units.new }
{
    let unit = &mut units[usize::from(port.unit)];
    unit.files[usize::from(port.port)][usize::from(reg)] = word;
}

/// Writes a cell of a ram.
pub fn write_cell(units: &mut List<UnitDesc>, ram: u8, cell: usize, word: i64)
    requires unit { ram < length units.old }
    requires cell { cell < length (slice_index_or units.old ram no_unit).cells }
    ensures { Writes (Cell ram cell) word units.old units.new }
{
    units[usize::from(ram)].cells[cell] = word;
}
