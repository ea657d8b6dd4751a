//! Rings: rams whose offsets slide by one cell a sample. Where each stands is carried along, so that an address takes
//! no division.
ghost use Rattle.std.specs.Prelude.{◌≡◌, ℕ, ◌<◌, ◌+◌, length, IfOk};
ghost use Rattle.micro_image.specs.Fields.{unit_of};
ghost use Rattle.micro_image.specs.Log.{modulus_of};
ghost use Rattle.cycle_sim.specs.Private.Rings.{IsRing, AreRings, AreTurned};
ghost use Rattle.cycle_sim.specs.Microcode.{micro_of};

use crate::microcode::Microcode;
use lists::List;
use std::alloc::{AllocError, Global};

/// The ram that a unit addresses, as a ring of cells.
#[derive(Clone, Copy)]
pub struct Ring {
    /// How many cells the ram has.
    pub cells: u64,
    /// By how many cells its offsets have slid, without whole rounds.
    pub turned: u64,
}

impl Ring {
    /// The ring one sample later.
    fn next(self) -> Ring
        ensures { (cells sample : ℕ) → IsRing cells sample self → IsRing cells (sample + 1) result }
    {
        let left = self.cells.saturating_sub(self.turned);
        let turned = if left > 1 { self.turned + 1 } else { 0 };
        Ring {
            cells: self.cells,
            turned,
        }
    }
}

/// Brings the rings to the sample that comes.
pub fn turn_all(rings: &mut List<Ring>)
    ensures { AreTurned rings.old rings.new }
{
    for unit in 0..rings.len() {
        rings[unit] = rings[unit].next();
    }
}

/// How many cells the ram of a unit has.
fn cells_of(code: &Microcode, ram: u8) -> usize
    ensures { result ≡ length (unit_of (micro_of code.now) ram).cells }
{
    let ram = ram as usize;
    if ram < code.image.units.len() {
        code.image.units[ram].cells.len()
    } else {
        0
    }
}

/// The ring of a unit before the first sample.
fn initial_ring(code: &Microcode, unit: usize) -> Ring
    requires { unit < length code.now.image.units }
    ensures { IsRing (modulus_of (micro_of code.now) unit) 0 result }
{
    let cells = cells_of(code, code.image.units[unit].ram);
    Ring {
        cells: cells as u64,
        turned: 0,
    }
}

/// The rings of all units before the first sample.
pub fn initial_rings(alloc: Global, code: &Microcode) -> Result<List<Ring>, AllocError>
    ensures { IfOk result (AreRings (micro_of code.now) 0) }
{
    let mut rings = List::new(alloc);
    for unit in 0..code.image.units.len() {
        rings.push(initial_ring(code, unit))?;
    }
    Ok(rings)
}
