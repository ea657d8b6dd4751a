//! The net.

ghost use Rattle.std.specs.Prelude.{◌≡◌, ◌↔◌, ◌<◌, ◌≤◌, ◌^◌, ◌==◌, List as Listed, [], length, map, true, false, Some, slice_get, slice_set, IfOk};
ghost use Rattle.std.specs.List.{All, list_all};
ghost use Rattle.lists.specs.Rows.{Rows as Stream};
ghost use Rattle.micro_image.specs.Fields.{nth};
ghost use Rattle.micro_image.specs.Valid.{IsValid};
ghost use Rattle.net_turns.specs.Marking.{starts};
ghost use Rattle.net_turns.specs.Progress.{cycles_run, enough_rounds, after_rounds};
ghost use Rattle.net_turns.specs.Turns.{after_turn, after_turns, after_round, lacks, some_runs, processors, is_finished};
ghost use Rattle.proc_net.specs.Nets.{NetState, parts_of, shape_in, points_of, last_of, count_of, sample_turns, all_samples, IsNetAt};
ghost use Rattle.proc_net.specs.Private.Reading.{word_by, IsReadable};
ghost use Rattle.proc_net.specs.Private.Runs.{RanCycle, CanRun, RanSample, CanRunSample};
ghost use Rattle.proc_net.specs.Private.States.{AreFresh, AreRowsFor, TookTurns};
ghost use Rattle.net_solution.specs.RowLists.{IsRowList};
ghost use Rattle.net_solution.specs.Solutions.{IsNetSolution, AreParts, parts_given};

use crate::processor::{Processor, zeros};
use crate::turns::{lacks, take_row};
use lists::List;
use micro_image::Image;
use net_core::{NetFile, NetProc};
use net_solution::RowList;
use std::alloc::{AllocError, AllocFailed, Global};
use std::marker::Model;
use thiserror::Error;

/// The images of a net's processors.
pub type Images = List<Image>;

/// Why a net is not made.
#[derive(Clone, Copy, Debug, PartialEq, Eq, Error)]
pub enum NetRunFault {
    /// No memory was left.
    #[error("no memory")]
    Memory,
}

impl From<AllocError> for NetRunFault {
    fn from(_: AllocError) -> NetRunFault {
        NetRunFault::Memory
    }
}

impl<T: Drop> From<AllocFailed<T>> for NetRunFault {
    fn from(_: AllocFailed<T>) -> NetRunFault {
        NetRunFault::Memory
    }
}

/// What became of a turn.
#[derive(Clone, Copy, Debug, PartialEq, Eq)]
pub enum Turn {
    /// The processor ran a cycle.
    Ran,
    /// It lacks a row or a free place, and nothing changed.
    Lacks,
}

impl Turn {
    fn has_run(self) -> bool
        ensures ran { result ≡ true → self ≡ Turn.Ran }
        ensures lacks { result ≡ false → self ≡ Turn.Lacks }
    {
        match self {
            Turn::Ran => true,
            Turn::Lacks => false,
        }
    }
}

/// Processors that run turn by turn, joined by queues of rows.
#[derive(Drop)]
pub struct Net {
    processors: List<Processor>,
    rows: List<List<i64>>,
    stream: RowList,
    capacity: usize,
}

impl Model for Net {
    ghost use Rattle.proc_net.specs.Nets.{NetState};

    ghost Value = { NetState };

    ghost use Rattle.proc_net.specs.Private.Views.{net_of, IsNet};

    ghost view = { net_of };

    ghost invariant = { IsNet };
}

/// The processors before their first cycles. A processor keeps as many rows as a queue holds; the last one keeps all.
fn load_all(
    alloc: Global,
    images: Images,
    procs: &[NetProc],
    capacity: usize,
    samples: usize,
) -> Result<List<Processor>, AllocError>
    requires count { length procs.now ≡ length images }
    requires valid { All IsValid images }
    requires some { 0 < capacity }
    requires small { capacity < 2 ^ 47 }
    requires few { samples < 2 ^ 47 }
    ensures { IfOk result (λ processors. (length processors ≡ length images)
        × AreFresh images (map (λ proc. proc.feed) procs.now) capacity samples processors) }
{
    let count = images.len();
    let mut processors = List::with_capacity(alloc, count)?;
    for image in images.into_vec() {
        let number = processors.len();
        let places = if number + 1 == count {
            samples.max(1)
        } else {
            capacity
        };
        let feed = procs[number].feed.as_slice();
        processors.push(Processor::load(alloc, image, feed, places)?)?;
    }
    Ok(processors)
}

/// A row for each processor.
fn rows_for(alloc: Global, processors: &[Processor]) -> Result<List<List<i64>>, AllocError>
    ensures { IfOk result (AreRowsFor processors.now) }
{
    let mut rows = List::with_capacity(alloc, processors.len())?;
    for processor in processors {
        rows.push(zeros(alloc, processor.feed.len())?)?;
    }
    Ok(rows)
}

fn all_ran(processors: &[Processor], samples: usize) -> bool
    ensures { result ≡ list_all (λ processor. processor.ran == samples) processors.now }
{
    processors.iter().all(|processor| processor.ran == samples)
}

/// Runs a cycle of a processor with its row.
fn run_cycle(processors: &mut List<Processor>, rows: &[List<i64>], number: usize)
    requires processor { number < length processors.old }
    requires row { number < length rows.now }
    requires ready { (own : _) (row : _) → slice_get processors.old number ≡ Some own
        → slice_get rows.now number ≡ Some row → CanRun own row }
    ensures { (own : _) (row : _) → slice_get processors.old number ≡ Some own → slice_get rows.now number ≡ Some row
        → (new : _) × RanCycle row own new × (processors.new ≡ slice_set processors.old number new) }
{
    processors[number].run(rows[number].as_slice());
}

/// Runs a sample of a processor with its row.
fn run_sample(processors: &mut List<Processor>, rows: &[List<i64>], number: usize)
    requires processor { number < length processors.old }
    requires row { number < length rows.now }
    requires ready { (own : _) (row : _) → slice_get processors.old number ≡ Some own
        → slice_get rows.now number ≡ Some row → CanRunSample own row }
    ensures { (own : _) (row : _) → slice_get processors.old number ≡ Some own → slice_get rows.now number ≡ Some row
        → (new : _) × RanSample row own new × (processors.new ≡ slice_set processors.old number new) }
{
    processors[number].sample(rows[number].as_slice());
}

/// Takes the row of the next sample, where the processor is at the first cycle of one.
fn begin(processors: &[Processor], stream: &RowList, rows: &mut List<List<i64>>, number: usize)
    requires processor { number < length processors.now }
    requires row { number < length rows.old }
    requires room { (own : _) (row : _) → slice_get processors.now number ≡ Some own
        → slice_get rows.old number ≡ Some row → length row ≡ length own.feed }
    requires words { (own : _) → slice_get processors.now number ≡ Some own → own.cycle ≡ 0
        → All (IsReadable processors.now stream.now own.ran) own.feed }
    ensures { (own : _) (row : _) → slice_get processors.now number ≡ Some own → slice_get rows.old number ≡ Some row
        → (new : _) × (rows.new ≡ slice_set rows.old number new)
        × (own.cycle ≡ 0 → new ≡ map (word_by processors.now stream.now own.ran) own.feed)
        × (0 < own.cycle → new ≡ row) }
{
    if processors[number].cycle == 0 {
        take_row(processors, stream, number, &mut rows[number]);
    }
}

impl Net {
    /// A net before its first turn, over the rows of the list. It has one image for each processor, and takes the
    /// memory for all queues and rows. Each row lies in the ranges of the input words that it feeds, each image runs
    /// all rows of its ranges without a conflict, and what it puts lies in the ranges of the input words that it feeds.
    ///
    /// # Errors
    ///
    /// `Memory` where no memory is left; the images and rows are dropped.
    pub fn new(
        alloc: Global,
        images: Images,
        net: &NetFile,
        rows: RowList,
    ) -> Result<Net, NetRunFault>
        requires rows { IsRowList rows }
        requires parts { AreParts (parts_given images net.now rows) }
        ensures parts { IfOk result (λ made. parts_of made ≡ parts_given images net.now rows) }
        ensures starts { IfOk result (λ made. points_of made ≡ starts (shape_in made)) }
        ensures solved { IfOk result (λ made. (puts : Listed Stream) × IsNetSolution (parts_of made) puts) }
        ensures at { IfOk result (λ made. (puts : Listed Stream) → IsNetSolution (parts_of made) puts → IsNetAt made puts) }
    {
        let capacity = usize::from(net.capacity);
        let processors = load_all(alloc, images, net.procs.as_slice(), capacity, rows.count())?;
        let taken = rows_for(alloc, processors.as_slice())?;
        Ok(Net {
            processors,
            rows: taken,
            stream: rows,
            capacity,
        })
    }

    /// A turn of a processor: one cycle. At the first cycle of a sample it takes the net's next row and a row of each
    /// queue that it reads, if these are there and each queue that it fills has a free place; else nothing changes. At
    /// the last one it puts its row.
    pub fn turn(&mut self, p: u8) -> Turn
        requires { p < length self.old.processors }
        ensures parts { parts_of self.new ≡ parts_of self.old }
        ensures points { points_of self.new ≡ after_turn (shape_in self.old) (points_of self.old) p }
        ensures ran { (result ≡ Turn.Lacks) ↔ (lacks (shape_in self.old) (points_of self.old) p ≡ true) }
        ensures unchanged { result ≡ Turn.Lacks → self.new ≡ self.old }
        ensures at { (puts : Listed Stream) → IsNetSolution (parts_of self.new) puts → IsNetAt self.new puts }
    {
        let number = usize::from(p);
        let samples = self.stream.count();
        let processors = self.processors.as_slice();
        if lacks(processors, self.capacity, samples, number) {
            return Turn::Lacks;
        }
        begin(processors, &self.stream, &mut self.rows, number);
        run_cycle(&mut self.processors, self.rows.as_slice(), number);
        Turn::Ran
    }

    /// A round: one turn of each processor in order. Says whether one of them ran a cycle, as one does until each has
    /// run all samples; else nothing changes. So many rounds as there are processors, times the samples, times the
    /// greatest period, run all samples.
    pub fn round(&mut self) -> bool
        ensures parts { parts_of self.new ≡ parts_of self.old }
        ensures points { points_of self.new ≡ after_round (shape_in self.old) (points_of self.old) }
        ensures ran { result
            ≡ some_runs (shape_in self.old) (points_of self.old) (processors (shape_in self.old)) }
        ensures unchanged { result ≡ false → self.new ≡ self.old }
        ensures moves { (result ≡ true) ↔ (is_finished (shape_in self.old) (points_of self.old) ≡ false) }
        ensures rises { result ≡ true → cycles_run (shape_in self.old) (points_of self.old)
            < cycles_run (shape_in self.new) (points_of self.new) }
        ensures bound { cycles_run (shape_in self.new) (points_of self.new)
            ≤ enough_rounds (shape_in self.new) }
        ensures enough { let rounds = enough_rounds (shape_in self.old) in
            is_finished (shape_in self.old) (after_rounds (shape_in self.old) rounds (points_of self.old)) ≡ true }
        ensures at { (puts : Listed Stream) → IsNetSolution (parts_of self.new) puts → IsNetAt self.new puts }
    {
        let mut moved = false;
        for number in 0..self.processors.len() {
            if self.turn(number as u8).has_run() {
                moved = true;
            }
        }
        moved
    }

    /// The turns of a processor that is at the first cycle of a sample, as many as the sample has cycles. Says whether
    /// they ran it; else nothing changes.
    fn sample(&mut self, number: usize) -> bool
        requires { number < length self.old.processors }
        ensures turns { TookTurns self.old self.new (sample_turns (shape_in self.old) (points_of self.old) number) result }
        ensures unchanged { result ≡ false → self.new ≡ self.old }
        ensures at { (puts : Listed Stream) → IsNetSolution (parts_of self.new) puts → IsNetAt self.new puts }
    {
        let samples = self.stream.count();
        let processors = self.processors.as_slice();
        if processors[number].cycle > 0 {
            return false;
        }
        if lacks(processors, self.capacity, samples, number) {
            return false;
        }
        begin(processors, &self.stream, &mut self.rows, number);
        run_sample(&mut self.processors, self.rows.as_slice(), number);
        true
    }

    /// Samples: each processor in order that is at the first cycle of a sample has as many turns, one after the other,
    /// as the sample has cycles. Says whether one of them ran a cycle; else nothing changes. They run as a whole, which
    /// takes less than so many calls of `turn`.
    pub fn samples(&mut self) -> bool
        ensures parts { parts_of self.new ≡ parts_of self.old }
        ensures points { let turns = all_samples (shape_in self.old) (points_of self.old) in
            points_of self.new ≡ after_turns (shape_in self.old) (points_of self.old) turns }
        ensures ran { let turns = all_samples (shape_in self.old) (points_of self.old) in
            result ≡ some_runs (shape_in self.old) (points_of self.old) turns }
        ensures unchanged { result ≡ false → self.new ≡ self.old }
        ensures rises { result ≡ true → cycles_run (shape_in self.old) (points_of self.old)
            < cycles_run (shape_in self.new) (points_of self.new) }
        ensures bound { cycles_run (shape_in self.new) (points_of self.new)
            ≤ enough_rounds (shape_in self.new) }
        ensures at { (puts : Listed Stream) → IsNetSolution (parts_of self.new) puts → IsNetAt self.new puts }
    {
        let mut moved = false;
        for p in 0..self.processors.len() {
            if self.sample(p) {
                moved = true;
            }
        }
        moved
    }

    /// How many of the net's rows stand.
    pub fn count(&self) -> usize
        ensures { result ≡ count_of self.now }
    {
        self.processors[self.processors.len() - 1].ran
    }

    /// One of the net's rows that stand.
    pub fn row(&self, n: usize) -> &[i64]
        requires { n < count_of self.now }
        ensures { (puts : Listed Stream) → IsNetSolution (parts_of self.now) puts
            → result.now ≡ nth (nth puts (last_of self.now) []) n [] }
    {
        let last = &self.processors[self.processors.len() - 1];
        last.put.row(n % last.places)
    }

    /// Whether each processor has run all samples. Then all the net's rows stand.
    pub fn finished(&self) -> bool
        ensures finished { result ≡ is_finished (shape_in self.now) (points_of self.now) }
        ensures rows { result ≡ true → count_of self.now ≡ length (parts_of self.now).stream }
    {
        all_ran(self.processors.as_slice(), self.stream.count())
    }
}
