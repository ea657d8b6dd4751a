//! What the flags of a microword of version 2 stand for, in the order in which they stand.
ghost use Rattle.std.specs.Prelude.{◌≡◌, ◌<◌, ◌≤◌, ◌^◌, ◌++◌, length, IfOk, OnOk};
ghost use Rattle.micro_file.specs.Private.WordFlags.{unit_drives, every_drive, unit_files, every_file};
ghost use Rattle.micro_file.specs.Private.Sizes.{IsNumbered};

use lists::List;
use micro_image::{Enable, Image, PortRef, UnitDesc};
use std::alloc::{AllocError, Global};

/// A register file that microwords write to.
#[derive(Clone, Copy)]
pub(crate) struct PortFile {
    pub(crate) port: PortRef,
    /// How many registers it has.
    pub(crate) size: usize,
}

/// All bus drives and all register files that there are, unit by unit. They are listed once for an image: most units of
/// most words do nothing, and so no word has to go from unit to unit.
#[derive(Drop)]
pub(crate) struct Flags {
    pub(crate) drives: List<Enable>,
    pub(crate) files: List<PortFile>,
}

/// Puts the drives of a unit, bus by bus.
fn put_unit_drives(drives: &mut List<Enable>, unit: usize, buses: usize) -> Result<(), AllocError>
    requires unit { unit < 2 ^ 8 }
    requires buses { buses ≤ 2 ^ 8 }
    ensures { OnOk result (drives.new ≡ drives.old ++ unit_drives buses unit) }
{
    for bus in 0..buses {
        drives.push(Enable {
            unit: unit as u8,
            bus: bus as u8,
        })?;
    }
    Ok(())
}

fn drives_of(alloc: Global, image: &Image) -> Result<List<Enable>, AllocError>
    requires { IsNumbered image.now }
    ensures { IfOk result (λ drives. drives ≡ every_drive image.now) }
{
    let buses = usize::from(image.buses);
    let mut drives = List::with_capacity(alloc, image.units.len() * buses)?;
    for unit in 0..image.units.len() {
        put_unit_drives(&mut drives, unit, buses)?;
    }
    Ok(drives)
}

/// Puts the register files of a unit, port by port.
fn put_unit_files(
    files: &mut List<PortFile>,
    number: usize,
    unit: &UnitDesc,
) -> Result<(), AllocError>
    requires unit { number < 2 ^ 8 }
    requires ports { length unit.now.files ≤ 2 ^ 8 }
    ensures { OnOk result (files.new ≡ files.old ++ unit_files unit.now number) }
{
    for (k, file) in unit.files.iter().enumerate() {
        let port = PortRef {
            unit: number as u8,
            port: k as u8,
        };
        files.push(PortFile {
            port,
            size: file.len(),
        })?;
    }
    Ok(())
}

fn files_of(alloc: Global, image: &Image) -> Result<List<PortFile>, AllocError>
    requires { IsNumbered image.now }
    ensures { IfOk result (λ files. files ≡ every_file image.now) }
{
    let mut files = List::new(alloc);
    for (k, unit) in image.units.iter().enumerate() {
        put_unit_files(&mut files, k, unit)?;
    }
    Ok(files)
}

pub(crate) fn flags_of(alloc: Global, image: &Image) -> Result<Flags, AllocError>
    requires { IsNumbered image.now }
    ensures drives { IfOk result (λ flags. flags.drives ≡ every_drive image.now) }
    ensures files { IfOk result (λ flags. flags.files ≡ every_file image.now) }
{
    let drives = drives_of(alloc, image)?;
    let files = files_of(alloc, image)?;
    Ok(Flags { drives, files })
}
