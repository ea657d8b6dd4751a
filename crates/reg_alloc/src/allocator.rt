//! Registers for the lifetimes of a datapath.

ghost use Rattle.std.specs.Prelude.{◌≡◌, ◌⊎◌, ◌<◌, ◌≤◌, [], All, IfOk, IfErr, Ok, Err};
ghost use Rattle.datapath.specs.Allowed.{IsPort, IsDatapath};
ghost use Rattle.plan_core.specs.Hardware.{file_size as size_of_file};
ghost use Rattle.plan_core.specs.Arcs.{IsUnroll};
ghost use Rattle.plan_core.specs.declared.registers.Registers as of_registers;
ghost use Rattle.reg_alloc.specs.Allottable.{AreAllottable, AreAllotted};
ghost use Rattle.reg_alloc.specs.Faults.{IsFileFault};
ghost use Rattle.reg_alloc.specs.declared.fault.FileFault as of_fault;
ghost use Rattle.reg_alloc.specs.declared.fault.FileFault.TheVariants.{Memory};

use crate::circle::Circle;
use crate::fault::FileFault;
use crate::file::RegisterFile;
use crate::unrolling::unroll;
use datapath::{Datapath, PortRef};
use lists::List;
use plan_core::{Arc, Arcs, CopyRegisters, Registers};
use std::alloc::Global;

/// How many registers the file of the port has.
fn file_size(datapath: &Datapath, port: PortRef) -> u16
    requires datapath { IsDatapath datapath.now }
    requires port { IsPort datapath.now.units port }
    ensures size { result ≡ size_of_file datapath.now port }
    ensures most { result ≤ 256 }
{
    datapath.units[usize::from(port.unit)].files[usize::from(port.port)]
}

/// The registers of all copies.
fn registers_of(
    alloc: Global,
    arcs: &[Arc],
    datapath: &Datapath,
    circle: Circle,
) -> Result<List<CopyRegisters>, FileFault>
    requires datapath { IsDatapath datapath.now }
    requires allottable { AreAllottable datapath.now arcs.now }
    requires period { circle.period ≡ datapath.now.period }
    requires samples { IsUnroll arcs.now circle.samples }
    ensures registers { IfOk result (AreAllotted datapath.now arcs.now) }
    ensures fault { IfErr result (λ fault. (fault ≡ Memory) ⊎ IsFileFault datapath.now arcs.now fault) }
{
    let mut regs = List::with_capacity(alloc, arcs.len())?;
    let mut file = RegisterFile::new(alloc);
    for arc in arcs {
        file.enter(arc.port);
        let size = file_size(datapath, arc.port);
        let mut registers = CopyRegisters::new(alloc);
        for copy in 0..arc.copies {
            registers.push(file.place(circle, *arc, copy, size)?)?;
        }
        regs.push(registers)?;
    }
    Ok(regs)
}

/// Gives each copy of each lifetime a register by first fit: in its file the least register that holds nothing in the
/// cycles in which the copy needs one. The circle of cycles has as many samples as the greatest count of copies. Takes
/// time in proportion to the copies and the registers of a file. Page `docs/PLANNING.md`, "Registers".
///
/// # Errors
///
/// `Full` with the unit, the port and the node of the first lifetime, by unit, port, `w`, then node, of which a copy
/// finds no register in its file. `Memory` where no memory is left.
pub fn allot(alloc: Global, arcs: &Arcs, datapath: &Datapath) -> Result<Registers, FileFault>
    requires datapath { IsDatapath datapath.now }
    requires allottable { AreAllottable datapath.now arcs.now }
    ensures registers { IfOk result (λ registers. AreAllotted datapath.now arcs.now registers.regs) }
    ensures fault { IfErr result (λ fault. (fault ≡ Memory) ⊎ IsFileFault datapath.now arcs.now fault) }
    // The one choice of registers is always found, unless memory runs out.
    ensures found { (rs : of_registers.Registers) → AreAllotted datapath.now arcs.now rs.regs
        → (result ≡ Ok rs) ⊎ (result ≡ Err Memory) }
    // So is the first copy without a register.
    ensures refused { (fault : of_fault.FileFault) → IsFileFault datapath.now arcs.now fault
        → (result ≡ Err fault) ⊎ (result ≡ Err Memory) }
{
    let circle = Circle {
        period: datapath.period,
        samples: unroll(arcs.as_slice()),
    };
    let regs = registers_of(alloc, arcs.as_slice(), datapath, circle)?;
    Ok(Registers { regs })
}
