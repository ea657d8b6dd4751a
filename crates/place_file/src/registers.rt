//! The registers that a text gives.

ghost use Rattle.std.specs.Prelude.{◌≡◌, ◌⊎◌, ◌^◌, ◌<◌, length, Ok, Err, IfOk, IfErr};
ghost use Rattle.datapath.specs.Allowed.{IsDatapath};
ghost use Rattle.place_file.specs.Registers.{AreRegistersBy, IsRegistersFault};
ghost use Rattle.place_file.specs.declared.registers.GivenRegisters as of_given;
ghost use Rattle.place_file.specs.declared.fault.RegistersFault as of_fault;
ghost use Rattle.place_file.specs.declared.fault.RegistersFault.TheVariants.{Memory};

use crate::fault::RegistersFault;
use crate::line::{LINE_FEED, split_part};
use crate::register_line::given_register_of;
use datapath::Datapath;
use given_registers::GivenRegister;
use lists::List;
use std::alloc::Global;

/// Registers for copies of lifetimes, and the line that gives each, from 1.
#[derive(Drop)]
pub struct GivenRegisters {
    pub registers: List<GivenRegister>,
    pub lines: List<u32>,
}

/// The registers that the lines of a text give, in the order of the lines. Lines that do not begin with `register`
/// give none.
///
/// # Errors
///
/// `Line` at the first line that begins with `register` and is no line as `register 2 unit add port 0 node 3 copy 0`.
/// `Memory` where no memory is left.
pub fn registers_in(
    alloc: Global,
    text: &[u8],
    datapath: &Datapath,
) -> Result<GivenRegisters, RegistersFault>
    requires datapath { IsDatapath datapath.now }
    requires short { length text.now < 2 ^ 31 }
    ensures registers { IfOk result (AreRegistersBy datapath.now text.now) }
    ensures fault { IfErr result (λ fault. (fault ≡ Memory) ⊎ IsRegistersFault datapath.now text.now fault) }
    // The registers are always found, unless memory runs out.
    ensures found { (given : of_given.GivenRegisters) → AreRegistersBy datapath.now text.now given
        → (result ≡ Ok given) ⊎ (result ≡ Err Memory) }
    // So is the first fault.
    ensures refused { (fault : of_fault.RegistersFault) → IsRegistersFault datapath.now text.now fault
        → (result ≡ Err fault) ⊎ (result ≡ Err Memory) }
{
    let mut registers = List::new(alloc);
    let mut lines = List::new(alloc);
    let mut left = Some(text);
    let mut line: u32 = 0;
    while let Some(rest) = left {
        let (bytes, behind) = split_part(rest, LINE_FEED);
        line += 1;
        if let Some(register) = given_register_of(bytes, datapath, line)? {
            registers.push(register)?;
            lines.push(line)?;
        }
        left = behind;
    }
    Ok(GivenRegisters { registers, lines })
}
