//! A processor of a net: its machine, how far it is, and the rows that it has put last.

ghost use Rattle.std.specs.Prelude.{◌≡◌, ◌+◌, ◌<◌, ◌≤◌, ◌^◌, ◌++◌, length, take, drop, replicate, pos, IfOk};
ghost use Rattle.std.specs.List.{All, list_any};
ghost use Rattle.micro_image.specs.Valid.{IsValid};
ghost use Rattle.cycle_sim.specs.Machine.{IsOperand, IsAtSample, MeetsConflictInSample, RanRows, sample_rows, IsOutputRow, AreLatches};
ghost use Rattle.cycle_sim.specs.Microcode.{inputs_of, micro_of};
ghost use Rattle.net_turns.specs.Turns.{is_from};
ghost use Rattle.proc_net.specs.Private.Reading.{HasRoom};
ghost use Rattle.proc_net.specs.Private.Runs.{IsWritten, Advanced, RanCycle, CanRun, RanSample, CanRunSample};
ghost use Rattle.proc_net.specs.Private.States.{IsFresh};
ghost use Rattle.net_solution.specs.RowLists.{row_in};

use cycle_sim::{LoadFault, Machine};
use lists::List;
use micro_image::Image;
use net_core::Wire;
use net_solution::RowList;
use std::alloc::{AllocError, Global};

/// A processor of a net.
#[derive(Drop)]
pub(crate) struct Processor {
    pub(crate) machine: Machine,
    /// Where its input words come from.
    pub(crate) feed: List<Wire>,
    /// How many cycles a sample has.
    pub(crate) period: u16,
    /// How many rows it has taken.
    pub(crate) taken: usize,
    /// How many samples it has run.
    pub(crate) ran: usize,
    /// How many cycles of the next sample it has run.
    pub(crate) cycle: u16,
    /// The rows that it has put last: row n has the place n mod `places`.
    pub(crate) put: RowList,
    pub(crate) places: usize,
}

/// Whether the wire leads from a processor.
fn is_from(number: usize, wire: Wire) -> bool
    ensures { result ≡ is_from number wire }
{
    match wire {
        Wire::Input(_) => false,
        Wire::From { proc, .. } => usize::from(proc) == number,
    }
}

pub(crate) fn zeros(alloc: Global, count: usize) -> Result<List<i64>, AllocError>
    ensures { IfOk result (λ list. list ≡ replicate count (pos 0)) }
{
    let mut list = List::with_capacity(alloc, count)?;
    for _ in 0..count {
        list.push(0)?;
    }
    Ok(list)
}

/// Puts what the output latches hold into words.
fn put_latches(machine: &Machine, words: &mut [i64], from: usize, width: usize)
    requires width { width ≡ (micro_of machine.now.code).outs }
    requires room { from + width ≤ length words.old }
    ensures words { words.new ≡ take from words.old ++ machine.now.storage.latches ++ drop (from + width) words.old }
    ensures count { length machine.now.storage.latches ≡ width }
    ensures latches { AreLatches machine.now machine.now.storage.latches }
{
    machine.latches(&mut words[from..from + width]);
}

/// Writes the row of the sample that a machine has run to a place of the list.
fn put_row(machine: &Machine, list: &mut RowList, place: usize, places: usize)
    requires width { list.old.width ≡ (micro_of machine.now.code).outs }
    requires room { HasRoom list.old places }
    requires place { place < places }
    ensures row { AreLatches machine.now (row_in list.new place) }
    ensures others { IsWritten list.old list.new places place }
{
    let width = usize::from(list.width);
    put_latches(machine, &mut list.words, place * width, width);
}

/// Runs a sample of a machine with its row, and puts what the latches hold then into words.
fn put_sample(machine: &mut Machine, row: &[i64], words: &mut [i64], from: usize, width: usize)
    requires count { length row.now ≡ length (inputs_of machine.old.code) }
    requires operands { All IsOperand row.now }
    requires at { IsAtSample machine.old }
    requires clear { (conflict : _) → MeetsConflictInSample machine.old row.now conflict → ⊥ }
    requires width { width ≡ (micro_of machine.old.code).outs }
    requires room { from + width ≤ length words.old }
    ensures code { machine.new.code ≡ machine.old.code }
    ensures ran { RanRows machine.old machine.new (sample_rows (micro_of machine.old.code) row.now) }
    ensures row { IsOutputRow machine.old row.now (take width (drop from words.new)) }
    ensures words { words.new
        ≡ take from words.old ++ take width (drop from words.new) ++ drop (from + width) words.old }
    ensures whole { length words.new ≡ length words.old }
{
    match machine.sample(row, &mut words[from..from + width]) {
        Ok(()) => {}
        Err(_) => unreachable!(),
    }
}

/// Runs a sample of a machine with its row, and writes the row that it puts to a place of the list.
fn write_sample(machine: &mut Machine, row: &[i64], list: &mut RowList, place: usize, places: usize)
    requires count { length row.now ≡ length (inputs_of machine.old.code) }
    requires operands { All IsOperand row.now }
    requires at { IsAtSample machine.old }
    requires clear { (conflict : _) → MeetsConflictInSample machine.old row.now conflict → ⊥ }
    requires width { list.old.width ≡ (micro_of machine.old.code).outs }
    requires room { HasRoom list.old places }
    requires place { place < places }
    ensures code { machine.new.code ≡ machine.old.code }
    ensures ran { RanRows machine.old machine.new (sample_rows (micro_of machine.old.code) row.now) }
    ensures row { IsOutputRow machine.old row.now (row_in list.new place) }
    ensures others { IsWritten list.old list.new places place }
{
    let width = usize::from(list.width);
    put_sample(machine, row, &mut list.words, place * width, width);
}

impl Processor {
    /// Before the first cycle of an image, with places for the rows that it puts.
    pub(crate) fn load(
        alloc: Global,
        image: Image,
        feed: &[Wire],
        places: usize,
    ) -> Result<Processor, AllocError>
        requires valid { IsValid image }
        requires some { 0 < places }
        requires few { places < 2 ^ 48 }
        ensures { IfOk result (IsFresh image feed.now places) }
    {
        let period = image.period;
        let width = image.outs;
        let feed = List::from_slice(alloc, feed)?;
        let words = zeros(alloc, places * usize::from(width))?;
        match Machine::load(alloc, image) {
            Ok(machine) => Ok(Processor {
                machine,
                feed,
                period,
                taken: 0,
                ran: 0,
                cycle: 0,
                put: RowList { width, words },
                places,
            }),
            Err(LoadFault::Memory(_)) => Err(AllocError),
        }
    }

    /// Whether it reads a processor.
    pub(crate) fn reads(&self, number: usize) -> bool
        ensures { result ≡ list_any (is_from number) self.now.feed }
    {
        self.feed
            .as_slice()
            .iter()
            .any(|wire| is_from(number, *wire))
    }

    /// Goes on by a cycle that was run, and puts the row of a sample that ends.
    fn advance(&mut self)
        requires cycle { self.old.cycle < self.old.period }
        requires taken { self.old.taken < 2 ^ 60 }
        requires ran { self.old.ran < 2 ^ 60 }
        requires width { self.old.put.width ≡ (micro_of self.old.machine.code).outs }
        requires room { HasRoom self.old.put self.old.places }
        ensures { Advanced self.old self.new }
    {
        if self.cycle == 0 {
            self.taken += 1;
        }
        self.cycle += 1;
        if self.cycle == self.period {
            put_row(
                &self.machine,
                &mut self.put,
                self.ran % self.places,
                self.places,
            );
            self.ran += 1;
            self.cycle = 0;
        }
    }

    /// Runs a cycle with the row of its sample. It meets no conflict.
    pub(crate) fn run(&mut self, row: &[i64])
        requires { CanRun self.old row.now }
        ensures { RanCycle row.now self.old self.new }
    {
        match self.machine.clock(row) {
            Ok(()) => self.advance(),
            Err(_) => unreachable!(),
        }
    }
    /// Runs all cycles of a sample with its row, and puts the row that they give. It meets no conflict.
    pub(crate) fn sample(&mut self, row: &[i64])
        requires { CanRunSample self.old row.now }
        ensures { RanSample row.now self.old self.new }
    {
        write_sample(
            &mut self.machine,
            row,
            &mut self.put,
            self.ran % self.places,
            self.places,
        );
        self.taken += 1;
        self.ran += 1;
    }
}
