//! Whether the units of an image are those of a datapath.

ghost use Rattle.std.specs.Prelude.{◌≡◌, ◌<◌, ◌≤◌, ℕ, [], length, map, IsTrue, OnOk};
ghost use Rattle.micro_image.specs.Fields.{microprogram_of, nth, unit_of};
ghost use Rattle.plan_core.specs.Hardware.{unit_of as unit_on};
ghost use Rattle.plan_soundness.specs.ImageOf.{IsUnitOf};

use crate::unfit::Unfit;
use datapath::{Datapath, Unit};
use lists::List;
use micro_image::{Image, UnitDesc};

/// Whether the register files have these sizes.
fn have_sizes(files: &List<List<i64>>, sizes: &List<u16>) -> bool
    ensures { IsTrue result → map length files.now ≡ sizes.now }
{
    if files.len() != sizes.len() {
        return false;
    }
    for port in 0..sizes.len() {
        if files[port].len() != usize::from(sizes[port]) {
            return false;
        }
    }
    true
}

fn check_operations(number: usize, unit: &UnitDesc, on: &Unit) -> Result<(), Unfit>
    ensures kind { OnOk result (unit.now.kind ≡ on.now.kind) }
    ensures latency { OnOk result (unit.now.latency ≡ on.now.latency) }
    ensures gap { OnOk result (unit.now.gap ≡ on.now.gap) }
{
    if unit.kind != on.kind {
        return Err(Unfit::Kind {
            unit: number,
            has: unit.kind,
            wants: on.kind,
        });
    }
    if unit.latency != on.latency {
        return Err(Unfit::Latency {
            unit: number,
            has: unit.latency,
            wants: on.latency,
        });
    }
    if unit.gap != on.gap {
        return Err(Unfit::Gap {
            unit: number,
            has: unit.gap,
            wants: on.gap,
        });
    }
    Ok(())
}

fn check_places(number: usize, unit: &UnitDesc, on: &Unit) -> Result<(), Unfit>
    ensures files { OnOk result (map length unit.now.files ≡ on.now.files) }
    ensures cells { OnOk result (length unit.now.cells ≡ on.now.cells) }
    ensures ram { OnOk result (unit.now.ram ≡ on.now.ram) }
{
    if !have_sizes(&unit.files, &on.files) {
        return Err(Unfit::Files { unit: number });
    }
    if unit.cells.len() != on.cells as usize {
        return Err(Unfit::Cells {
            unit: number,
            has: unit.cells.len(),
            wants: on.cells,
        });
    }
    if unit.ram != on.ram {
        return Err(Unfit::Ram {
            unit: number,
            has: unit.ram,
            wants: on.ram,
        });
    }
    Ok(())
}

fn check_unit(image: &Image, path: &Datapath, unit: usize) -> Result<(), Unfit>
    requires has { unit < length image.now.units }
    requires wants { unit < length path.now.units }
    ensures { OnOk result (IsUnitOf path.now unit (unit_of (microprogram_of image.now) unit)) }
{
    check_operations(unit, &image.units[unit], &path.units[unit])?;
    check_places(unit, &image.units[unit], &path.units[unit])
}

/// Checks the units.
pub fn check_units(image: &Image, path: &Datapath) -> Result<(), Unfit>
    ensures count { OnOk result (length image.now.units ≡ length path.now.units) }
    ensures each { OnOk result ((u : ℕ) → u < length path.now.units
        → IsUnitOf path.now u (unit_of (microprogram_of image.now) u)) }
{
    let wants = path.units.len();
    if image.units.len() != wants {
        return Err(Unfit::Units {
            has: image.units.len(),
            wants,
        });
    }
    for unit in 0..wants {
        check_unit(image, path, unit)?;
    }
    Ok(())
}
