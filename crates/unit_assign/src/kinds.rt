//! The units of each kind.

ghost use Rattle.std.specs.Prelude.{◌≡◌, ◌≤◌, ◌↔◌, ℕ, length};
ghost use Rattle.datapath.specs.Allowed.{IsDatapath};
ghost use Rattle.plan_core.specs.Hardware.{IsOfKind};
ghost use Rattle.unit_assign.specs.Private.UnitSets.{Has};
ghost use Rattle.unit_assign.specs.Private.Drivers.{most_units};
ghost use Rattle.unit_assign.specs.Private.Kinds.{set_of, AreKinds};

use bit_sets::Set32;
use datapath::{Datapath, Kind};

/// For each kind the units that are of it.
#[derive(Clone, Copy)]
pub(crate) struct Kinds {
    pub input: Set32,
    pub output: Set32,
    pub rom: Set32,
    pub alu: Set32,
    pub mul: Set32,
    pub sel: Set32,
    pub ram: Set32,
    pub acu: Set32,
}

/// The units of this kind.
fn units_of(datapath: &Datapath, kind: Kind) -> Set32
    requires { length datapath.now.units ≤ most_units }
    ensures { (u : ℕ) → Has result u ↔ IsOfKind datapath.now kind u }
{
    let mut units = Set32::empty();
    for number in 0..datapath.units.len() {
        if datapath.units[number].kind == kind {
            units = units.with(number as u8);
        }
    }
    units
}

impl Kinds {
    pub(crate) fn of(datapath: &Datapath) -> Kinds
        requires { IsDatapath datapath.now }
        ensures { AreKinds datapath.now result }
    {
        Kinds {
            input: units_of(datapath, Kind::Input),
            output: units_of(datapath, Kind::Output),
            rom: units_of(datapath, Kind::Rom),
            alu: units_of(datapath, Kind::Alu),
            mul: units_of(datapath, Kind::Mul),
            sel: units_of(datapath, Kind::Sel),
            ram: units_of(datapath, Kind::Ram),
            acu: units_of(datapath, Kind::Acu),
        }
    }

    /// The units of this kind.
    pub(crate) fn units(&self, kind: Kind) -> Set32
        ensures { result ≡ set_of self.now kind }
    {
        match kind {
            Kind::Input => self.input,
            Kind::Output => self.output,
            Kind::Rom => self.rom,
            Kind::Alu => self.alu,
            Kind::Mul => self.mul,
            Kind::Sel => self.sel,
            Kind::Ram => self.ram,
            Kind::Acu => self.acu,
        }
    }
}
