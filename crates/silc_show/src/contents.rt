//! What the registers and cells of a run hold, as its writes have left them, and what its operations come to.

ghost use Rattle.std.specs.Prelude.{◌≡◌, ◌<◌, ◌^◌, length, All};
ghost use Rattle.fix_word.specs.Operations.{IsReady};
ghost use Rattle.micro_image.specs.Operations.{reads as reads_of};
ghost use Rattle.micro_image.specs.Valid.{HasRegister, IsBelow, IsFile, IsIssue, IsValid, IsWithin};
ghost use Rattle.operations.specs.Operations.{IsOperand};
ghost use Rattle.operations.specs.declared.units.Kind.TheVariants.{Acu};
ghost use Rattle.silc_show.specs.Trace.{IsOfKind};

use cycle_sim::{Spot, Wrote};
use fix_word::{Op, apply};
use indexmap::IndexMap;
use micro_image::{Image, Issue, UnitDesc};
use operations::{Operand, reads};
use std::alloc::{AllocError, Global};

/// A unit, a port of it, and a register of the file there.
type Register = (u8, usize, u8);

/// A ram, and a cell of it.
type Cell = (u8, usize);

/// The words that were written to registers and cells. A place that was not written holds the word of the image.
#[derive(Drop)]
pub struct Contents {
    registers: IndexMap<Register, Operand>,
    cells: IndexMap<Cell, i64>,
}

impl Contents {
    pub fn new(alloc: Global) -> Contents {
        Contents {
            registers: IndexMap::new(alloc),
            cells: IndexMap::new(alloc),
        }
    }

    /// Puts the word that was written where it holds from then on.
    pub fn write(&mut self, wrote: Wrote) -> Result<(), AllocError>
        requires { IsOperand wrote.value }
    {
        match wrote.spot {
            Spot::Register { unit, port, reg } => {
                let register = (unit, usize::from(port), reg);
                self.registers.insert(register, Operand::new(wrote.value))?;
            }
            Spot::Cell { ram, cell } => {
                self.cells.insert((ram, cell as usize), wrote.value)?;
            }
            Spot::Latch(_) => {}
        }
        Ok(())
    }

    /// What the register holds that an issue reads at a port.
    fn word_read(&self, image: &Image, issue: &Issue, port: usize) -> Operand
        requires valid { IsValid image.now }
        requires issue { IsIssue image.now issue.now }
        requires port { port < reads_of issue.now.op }
    {
        let unit = &image.units[issue.unit as usize];
        let reg = issue.regs[port];
        match self.registers.get(&(issue.unit, port, reg)) {
            Some(word) => *word,
            None => first_word(unit, port, reg),
        }
    }

    /// What an issue reads at a port; 0 where its operation doesn't read the port.
    pub fn operand(&self, image: &Image, issue: &Issue, port: usize) -> Operand
        requires valid { IsValid image.now }
        requires issue { IsIssue image.now issue.now }
    {
        if port < reads(issue.op) {
            self.word_read(image, issue, port)
        } else {
            Operand::new(0)
        }
    }

    /// What a cell holds; 0 where the address is outside the ram.
    fn cell(&self, image: &Image, ram: u8, address: Operand) -> i64
        requires { ram < length image.now.units }
    {
        let Ok(cell) = usize::try_from(address.get()) else {
            return 0;
        };
        if let Some(word) = self.cells.get(&(ram, cell)) {
            return *word;
        }
        match image.units[ram as usize].cells.get(cell) {
            Some(word) => *word,
            None => 0,
        }
    }

    /// The result of an operation from `Add` to `Sel`.
    fn computed(&self, image: &Image, issue: &Issue) -> i64
        requires valid { IsValid image.now }
        requires issue { IsIssue image.now issue.now }
        requires ready { IsReady issue.now.op issue.now.fmt }
    {
        let a = self.operand(image, issue, 0).get();
        let b = self.operand(image, issue, 1).get();
        let c = self.operand(image, issue, 2).get();
        apply(issue.op, &issue.fmt, a, b, c)
    }

    /// What an issue in a sample with a row of input words comes to; a store or an output has no result, and gives 0.
    pub fn result(&self, image: &Image, row: &[i64], sample: u64, issue: &Issue) -> i64
        requires valid { IsValid image.now }
        requires issue { IsIssue image.now issue.now }
        requires row { length row.now ≡ length image.now.inputs }
        requires young { sample < 2 ^ 60 }
    {
        match issue.op {
            Op::Input => input(row, issue.arg),
            Op::Const => issue.arg,
            Op::Addr => address(image, issue.unit, issue.arg, sample),
            Op::Load => self.cell(image, issue.unit, self.operand(image, issue, 0)),
            Op::Store | Op::Output => 0,
            _ => self.computed(image, issue),
        }
    }
}

/// What a register of a unit holds at first.
fn first_word(unit: &UnitDesc, port: usize, reg: u8) -> Operand
    requires valid { All IsFile unit.now.files }
    requires register { HasRegister unit.now port reg }
{
    Operand::new(unit.files[port][reg as usize])
}

/// A word of an input row.
fn input(row: &[i64], number: i64) -> i64
    requires { IsBelow (length row.now) number }
{
    row[number as usize]
}

/// How many cells the ram has that a unit addresses.
fn cells_addressed(image: &Image, unit: u8) -> usize
    requires valid { IsValid image.now }
    requires acu { IsOfKind image.now Acu unit }
    ensures { IsWithin 1 65536 result }
{
    let ram = image.units[unit as usize].ram;
    image.units[ram as usize].cells.len()
}

/// The address of an offset, in a sample, in the ram that slides by one cell a sample.
fn address(image: &Image, unit: u8, offset: i64, sample: u64) -> i64
    requires valid { IsValid image.now }
    requires acu { IsOfKind image.now Acu unit }
    requires offset { IsBelow 65536 offset }
    requires young { sample < 2 ^ 60 }
{
    let cells = cells_addressed(image, unit);
    (offset - sample as i64).rem_euclid(cells as i64)
}
