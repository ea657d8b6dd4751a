//! A register file while its lifetimes get registers.

ghost use Rattle.std.specs.Prelude.{◌≡◌, ◌⊎◌, ◌<◌, ◌≤◌, [], length, IfOk, IfErr};
ghost use Rattle.reg_alloc.specs.Private.Spans.{IsOnCircle};
ghost use Rattle.reg_alloc.specs.Private.Files.{full_at, IsFirstFree, IsPlaced, IsFullFor};
ghost use Rattle.reg_alloc.specs.declared.fault.FileFault.TheVariants.{Memory};

use crate::circle::{Circle, Occupancy};
use crate::fault::FileFault;
use datapath::PortRef;
use plan_core::Arc;
use std::alloc::Global;

/// The first register that holds nothing when the other one does, or the number of registers.
fn first_free(circle: Circle, registers: &[Occupancy], other: &Occupancy) -> usize
    ensures within { result ≤ length registers.now }
    ensures first { IsFirstFree circle.period circle.samples registers.now other.now result }
{
    for (number, register) in registers.iter().enumerate() {
        if register.is_free(circle, other) {
            return number;
        }
    }
    registers.len()
}

/// The registers of a file that are in use.
#[derive(Drop)]
pub(crate) struct RegisterFile {
    pub port: PortRef,
    pub registers: Vec<Occupancy>,
}

impl RegisterFile {
    /// A file without lifetimes.
    pub(crate) fn new(alloc: Global) -> RegisterFile
        ensures { result.registers.items ≡ [] }
    {
        RegisterFile {
            port: PortRef { unit: 0, port: 0 },
            registers: Vec::new(alloc),
        }
    }

    /// Goes on with the file of this port. Where it is another file, none of its registers is in use.
    pub(crate) fn enter(&mut self, port: PortRef)
        ensures port { self.new.port ≡ port }
        ensures same { self.old.port ≡ port → self.new.registers.items ≡ self.old.registers.items }
        ensures other { (self.old.port ≡ port → ⊥) → self.new.registers.items ≡ [] }
    {
        if self.port != port {
            self.registers.clear();
            self.port = port;
        }
    }

    /// Gives the copy of the lifetime the least register that is free for it.
    ///
    /// # Errors
    ///
    /// `Full` where no register below `size` is free. `Memory` where no memory is left.
    pub(crate) fn place(
        &mut self,
        circle: Circle,
        arc: Arc,
        copy: u8,
        size: u16,
    ) -> Result<u8, FileFault>
        requires arc { IsOnCircle circle.period arc }
        requires size { size ≤ 256 }
        ensures port { self.new.port ≡ self.old.port }
        ensures placed { IfOk result (λ register. IsPlaced circle.period circle.samples arc copy size
            self.old.registers.items register self.new.registers.items) }
        ensures fault { IfErr result (λ fault. (fault ≡ Memory)
            ⊎ ((fault ≡ full_at arc) × IsFullFor circle.period circle.samples arc copy size self.old.registers.items)) }
    {
        let other = Occupancy::of_copy(circle, arc, copy);
        let number = first_free(circle, self.registers.as_slice(), &other);
        if number >= usize::from(size) {
            return Err(FileFault::Full {
                unit: arc.port.unit,
                port: arc.port.port,
                node: arc.node,
            });
        }
        if number == self.registers.len() {
            self.registers.push(Occupancy::none())?;
        }
        self.registers[number].join(&other);
        Ok(number as u8)
    }
}
