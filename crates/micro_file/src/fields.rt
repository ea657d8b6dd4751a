//! What reads the fields of a file, in bytes or in bits.
ghost use Rattle.std.specs.Prelude.{◌≡◌, ◌+◌, ◌≤◌, ℕ, List, length};
ghost use Rattle.micro_file.specs.Private.FormAt.{FormAt};
ghost use Rattle.micro_file.specs.Private.Reads.{Reads};

use crate::misread::Unread;
use fix_word::{Format, Op};
use lists::List;
use micro_image::{Kind, PortRegisters};
use std::alloc::Global;

/// A reader of fields, a call a field.
pub(crate) trait Fields {
    /// How it reads them.
    ghost form: { FormAt };

    /// What is left.
    ghost rest: { Self → List ℕ };

    /// How much is left.
    fn left(&self) -> usize
        ensures count { result ≡ length (rest self.now) }
        ensures room { result + form.ram_length ≤ usize.MAX };

    /// How long the number of an acu's ram is.
    fn ram_length(&self) -> usize
        ensures { result ≡ form.ram_length };

    fn period(&mut self) -> Result<u16, Unread>
        ensures { Reads form.period (rest self.old) result (rest self.new) };

    fn unroll(&mut self) -> Result<u8, Unread>
        ensures { Reads form.unroll (rest self.old) result (rest self.new) };

    fn channels(&mut self) -> Result<u8, Unread>
        ensures { Reads form.channels (rest self.old) result (rest self.new) };

    fn width(&mut self) -> Result<u8, Unread>
        ensures { Reads form.width (rest self.old) result (rest self.new) };

    fn units(&mut self) -> Result<u8, Unread>
        ensures { Reads form.units (rest self.old) result (rest self.new) };

    fn kind(&mut self) -> Result<Kind, Unread>
        ensures { Reads form.kind (rest self.old) result (rest self.new) };

    fn latency(&mut self) -> Result<u8, Unread>
        ensures { Reads form.latency (rest self.old) result (rest self.new) };

    fn gap(&mut self, latency: u8) -> Result<u8, Unread>
        ensures { Reads (form.gap latency) (rest self.old) result (rest self.new) };

    fn registers(&mut self) -> Result<usize, Unread>
        ensures { Reads form.registers (rest self.old) result (rest self.new) };

    fn cells(&mut self) -> Result<usize, Unread>
        ensures { Reads form.cells (rest self.old) result (rest self.new) };

    fn initial(&mut self, alloc: Global, count: usize) -> Result<List<i64>, Unread>
        ensures { Reads (form.initial count) (rest self.old) result (rest self.new) };

    fn ram(&mut self) -> Result<u8, Unread>
        ensures { Reads form.ram (rest self.old) result (rest self.new) };

    fn buses(&mut self) -> Result<u8, Unread>
        ensures { Reads form.buses (rest self.old) result (rest self.new) };

    fn operation(&mut self, kind: Kind) -> Result<Op, Unread>
        ensures { Reads (form.operation kind) (rest self.old) result (rest self.new) };

    fn format(&mut self, op: Op) -> Result<Format, Unread>
        ensures { Reads (form.format op) (rest self.old) result (rest self.new) };

    fn argument(&mut self, op: Op, inputs: usize, outs: usize) -> Result<i64, Unread>
        ensures { Reads (form.argument op inputs outs) (rest self.old) result (rest self.new) };

    fn named(
        &mut self,
        alloc: Global,
        files: &List<List<i64>>,
        read: usize,
    ) -> Result<PortRegisters, Unread>
        ensures { Reads (form.named files.now read) (rest self.old) result (rest self.new) };
}
