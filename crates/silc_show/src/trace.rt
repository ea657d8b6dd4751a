//! A run cycle by cycle, of microcode or of a source over stages: what each unit issues, what each bus carries, and
//! what is written.

ghost use Rattle.std.specs.Prelude.{◌≡◌, ◌<◌, ◌≤◌, ◌^◌, length, All, IsTrue, IfOk, OnOk};
ghost use Rattle.std.specs.List.{range_with_len};
ghost use Rattle.std.specs.List.Sorted.{IsPermutation};
ghost use Rattle.micro_image.specs.Valid.{IsValid, IsWordOf};
ghost use Rattle.operations.specs.Operations.{IsOperand};
ghost use Rattle.cycle_sim.specs.Microcode.{inputs_of, IsSound};
ghost use Rattle.silc_show.specs.Trace.{AreInputRows, IsInputRow, IsRunAt};

use crate::conflicts::{put_conflict, word_at};
use crate::contents::Contents;
use crate::guarded::{Stages, unguarded_of};
use crate::image::put_issue;
use crate::page::{Page, Refused};
use crate::repeat::machine_of;
use crate::rows::{MAX_CHANNELS, put_words, read_widths};
use anyhow::Result;
use cycle_sim::{Conflict, Machine, Microcode, Spot, Wrote};
use lists::List;
use micro_image::{Image, Word};
use operations::reads;
use std::alloc::{AllocError, Global};

/// At most this many cycles are run.
const MOST_CYCLES: u64 = 1 << 60;

/// How many cycles an operation takes at most.
const LATENCIES: u64 = 8;

/// A result for each unit that a byte can name, in each cycle in which what is under way may end.
const RESULTS: usize = 256 * LATENCIES as usize;

/// The most writes of a cycle: four for each of 32 units.
const MOST_WRITES: usize = 128;

const NO_WRITE: Wrote = Wrote {
    spot: Spot::Latch(0),
    value: 0,
};

/// The cycles that are shown.
#[derive(Clone, Copy)]
pub struct Span {
    pub from: u64,
    /// The cycle before which the run ends.
    pub to: u64,
}

impl Span {
    pub fn whole() -> Span {
        Span {
            from: 0,
            to: MOST_CYCLES,
        }
    }

    fn has(self, cycle: u64) -> bool {
        self.from <= cycle && cycle < self.to
    }

    /// Whether the cycle is run.
    fn reaches(self, cycle: u64) -> bool
        ensures { IsTrue result → cycle < 2 ^ 60 }
    {
        cycle < self.to && cycle < MOST_CYCLES
    }
}

/// Why no further cycle is run.
#[derive(Clone, Copy)]
enum Stop {
    /// The cycle is behind the last one that is shown.
    Span,
    Conflict(Conflict),
    Memory,
}

impl From<Conflict> for Stop {
    fn from(conflict: Conflict) -> Stop {
        Stop::Conflict(conflict)
    }
}

impl From<AllocError> for Stop {
    fn from(_: AllocError) -> Stop {
        Stop::Memory
    }
}

/// A cycle that comes: its number, the sample that it is in, and the sample's row of input words.
#[derive(Clone, Copy)]
struct Time<'a> {
    cycle: u64,
    sample: u64,
    row: &'a [i64],
}

/// What is known of a run at the start of a cycle.
#[derive(Drop)]
struct State {
    contents: Contents,
    /// What the operations under way come to, by unit and the cycle in which they end.
    results: [i64; RESULTS],
}

/// The place of the result of what ends on a unit in a cycle.
fn place(unit: u8, cycle: u64) -> usize
    ensures { result < 2048 }
{
    usize::from(unit) * LATENCIES as usize + (cycle % LATENCIES) as usize
}

impl State {
    fn new(alloc: Global) -> State {
        State {
            contents: Contents::new(alloc),
            results: [0; RESULTS],
        }
    }

    /// Begins the word's issues.
    fn begin(&mut self, image: &Image, word: &Word, time: Time<'_>)
        requires valid { IsValid image.now }
        requires word { IsWordOf image.now word.now }
        requires row { length time.row.now ≡ length image.now.inputs }
        requires cycle { time.cycle < 2 ^ 60 }
        requires sample { time.sample < 2 ^ 60 }
    {
        for issue in &word.issues {
            let delay = image.units[issue.unit as usize].latency - 1;
            let end = place(issue.unit, time.cycle + u64::from(delay));
            self.results[end] = self.contents.result(image, time.row, time.sample, issue);
        }
    }

    fn write(&mut self, log: &[Wrote]) -> Result<(), AllocError>
        requires { All (λ wrote. IsOperand wrote.value) log.now }
    {
        for wrote in log {
            self.contents.write(*wrote)?;
        }
        Ok(())
    }
}

/// Begins the lines of a cycle: its number, its sample and its word.
#[tactic(auto, using(crate::proofs::Reading::some_words))]
fn put_time(page: &mut Page, image: &Image, cycle: u64)
    requires { IsValid image.now }
{
    page.number("cycle ", cycle);
    page.number(" sample ", cycle / u64::from(image.period));
    page.number(" word ", cycle % image.words.len() as u64);
}

fn put_issues(page: &mut Page, image: &Image, word: &Word, contents: &Contents)
    requires valid { IsValid image.now }
    requires word { IsWordOf image.now word.now }
{
    for issue in &word.issues {
        put_issue(page, issue);
        page.text(" reads");
        for port in 0..reads(issue.op) {
            page.number(" ", contents.operand(image, issue, port).get());
        }
        page.end();
    }
}

fn put_buses(page: &mut Page, word: &Word, state: &State, cycle: u64) {
    for drive in &word.enables {
        page.number("  bus ", drive.bus);
        page.number(" unit ", drive.unit);
        page.number(" carries ", state.results[place(drive.unit, cycle)]);
        page.end();
    }
}

fn put_wrote(page: &mut Page, wrote: Wrote) {
    match wrote.spot {
        Spot::Register { unit, port, reg } => {
            page.number("  register unit ", unit);
            page.number(" port ", port);
            page.number(" register ", reg);
        }
        Spot::Cell { ram, cell } => {
            page.number("  cell ram ", ram);
            page.number(" cell ", cell);
        }
        Spot::Latch(out) => page.number("  latch ", out),
    }
    page.number(" becomes ", wrote.value);
    page.end();
}

/// Shows a cycle that was run, by what was known at its start, and by what it wrote.
fn put_cycle(page: &mut Page, code: &Microcode, state: &State, cycle: u64, log: &[Wrote])
    requires { IsSound code.now }
{
    let word = word_at(code, cycle);
    put_time(page, &code.image, cycle);
    page.end();
    put_issues(page, &code.image, word, &state.contents);
    put_buses(page, word, state, cycle);
    for wrote in log {
        put_wrote(page, *wrote);
    }
}

fn put_latches(page: &mut Page, machine: &Machine) {
    let mut words = [0i64; MAX_CHANNELS];
    let put = &mut words[..machine.outs()];
    machine.latches(put);
    page.text("  row ");
    put_words(page, put);
}

/// A run that is shown.
#[derive(Drop)]
struct Run {
    /// The units, in their order.
    order: List<u8>,
    machine: Machine,
    /// The number of the cycle that comes.
    cycle: u64,
    state: State,
}

impl Run {
    /// Runs the cycle that comes with a row of input words, and shows it where the span has it.
    #[tactic(auto, using(crate::proofs::Reading::sample_below))]
    fn put_cycle(&mut self, page: &mut Page, row: &[i64], span: Span) -> Result<(), Stop>
        requires run { IsRunAt self.old.order self.old.machine self.old.cycle }
        requires row { IsInputRow (inputs_of self.old.machine.code) row.now }
        ensures code { self.new.machine.code ≡ self.old.machine.code }
        ensures run { OnOk result (IsRunAt self.new.order self.new.machine self.new.cycle) }
    {
        if !span.reaches(self.cycle) {
            return Err(Stop::Span);
        }
        let time = Time {
            cycle: self.cycle,
            sample: self.machine.samples(),
            row,
        };
        let mut log = [NO_WRITE; MOST_WRITES];
        let count = self.machine.clock_in_order(row, &self.order, &mut log)?;
        let wrote = &log[..count];
        let code = self.machine.microcode();
        self.state
            .begin(&code.image, word_at(code, time.cycle), time);
        if span.has(time.cycle) {
            put_cycle(page, code, &self.state, time.cycle, wrote);
        }
        self.state.write(wrote)?;
        self.cycle += 1;
        Ok(())
    }

    /// Runs a sample, and shows those of its cycles that the span has.
    fn put_sample(&mut self, page: &mut Page, row: &[i64], span: Span) -> Result<(), Stop>
        requires run { IsRunAt self.old.order self.old.machine self.old.cycle }
        requires row { IsInputRow (inputs_of self.old.machine.code) row.now }
        ensures code { self.new.machine.code ≡ self.old.machine.code }
        ensures run { OnOk result (IsRunAt self.new.order self.new.machine self.new.cycle) }
    {
        let mut shown = false;
        for _phase in 0..self.machine.microcode().image.period {
            shown = span.has(self.cycle);
            self.put_cycle(page, row, span)?;
        }
        if shown {
            put_latches(page, &self.machine);
        }
        Ok(())
    }

    /// Lets the units act in the order of the numbers, if there are some. `false`: they don't name each unit once.
    fn arrange(&mut self, numbers: Option<&str>) -> bool
        requires { IsRunAt self.old.order self.old.machine self.old.cycle }
        ensures { IsRunAt self.new.order self.new.machine self.new.cycle }
    {
        match numbers {
            Some(numbers) => arrange(&mut self.order, numbers),
            None => true,
        }
    }

    /// Shows why no further cycle is run.
    fn put_stop(&self, page: &mut Page, stop: Stop) {
        match stop {
            Stop::Span => {}
            Stop::Memory => {
                page.cut();
            }
            Stop::Conflict(conflict) => {
                let code = self.machine.microcode();
                put_time(page, &code.image, conflict.cycle);
                put_conflict(page, code, &self.state.contents, conflict);
            }
        }
    }
}

/// Brings a unit to a place from there or from behind it. `false`: it is not there.
fn bring(order: &mut List<u8>, place: usize, unit: u8) -> bool
    ensures { IsPermutation order.old order.new }
{
    for other in place..order.len() {
        if order[other] == unit {
            order.swap(place, other);
            return true;
        }
    }
    false
}

/// Brings the units into the order of the numbers, which have commas between them. `false`: they don't name each
/// unit once.
fn arrange(order: &mut List<u8>, numbers: &str) -> bool
    ensures { IsPermutation order.old order.new }
{
    let units = order.len();
    let mut place = 0;
    for number in numbers.split(',') {
        let Ok(unit) = number.parse::<u8>() else {
            return false;
        };
        if place == units {
            return false;
        }
        if !bring(order, place, unit) {
            return false;
        }
        place += 1;
    }
    place == units
}

/// The numbers of the units, in their order.
fn units_in_order(alloc: Global, image: &Image) -> Result<List<u8>, AllocError>
    requires { length image.now.units ≤ 32 }
    ensures { IfOk result (λ order. order ≡ range_with_len 0 (length image.now.units)) }
{
    let mut order = List::new(alloc);
    for unit in 0..image.units.len() {
        order.push(unit as u8)?;
    }
    Ok(order)
}

/// A source over so many stages, on the datapath of a file.
#[derive(Clone, Copy)]
pub struct Staged<'a> {
    pub source: &'a [u8],
    pub path: &'a [u8],
    pub stages: Stages,
}

/// What a machine runs.
#[derive(Clone, Copy)]
pub enum Program<'a> {
    Microcode(&'a [u8]),
    Staged(Staged<'a>),
}

/// The machine of a source over stages, before its first cycle.
fn staged_machine(page: &mut Page, staged: Staged<'_>) -> Result<Machine, Refused>
    ensures { IfOk result (λ machine. machine.cycle ≡ 0) }
{
    let parts = unguarded_of(page, staged.source, staged.path, staged.stages)?;
    match Machine::load_after(page.alloc, parts.prologue, parts.image) {
        Ok(machine) => Ok(machine),
        Err(_) => Err(page.cut()),
    }
}

fn program_machine(page: &mut Page, program: Program<'_>) -> Result<Machine, Refused>
    ensures { IfOk result (λ machine. machine.cycle ≡ 0) }
{
    match program {
        Program::Microcode(mic) => machine_of(page, mic),
        Program::Staged(staged) => staged_machine(page, staged),
    }
}

/// A run before its first cycle.
fn run_of(page: &mut Page, program: Program<'_>) -> Result<Run, Refused>
    ensures { IfOk result (λ run. IsRunAt run.order run.machine run.cycle) }
{
    let machine = program_machine(page, program)?;
    let Ok(order) = units_in_order(page.alloc, &machine.microcode().image) else {
        return Err(page.cut());
    };
    Ok(Run {
        order,
        machine,
        cycle: 0,
        state: State::new(page.alloc),
    })
}

/// Runs the rows, and prints each sample by itself, so that a long run takes little memory.
fn print_rows(
    rt: &impl Print,
    page: &mut Page,
    run: &mut Run,
    rows: &[List<i64>],
    span: Span,
) -> Result<()>
    requires run { IsRunAt run.old.order run.old.machine run.old.cycle }
    requires rows { AreInputRows (inputs_of run.old.machine.code) rows.now }
{
    for row in rows {
        let ran = run.put_sample(page, row, span);
        if let Err(stop) = ran {
            run.put_stop(page, stop);
        }
        page.print(rt)?;
        page.clear();
        if ran.is_err() {
            break;
        }
    }
    Ok(())
}

/// What is shown of a run: its cycles, and the order in which the units act, if not that of their numbers.
#[derive(Clone, Copy)]
pub struct View<'a> {
    pub span: Span,
    pub order: Option<&'a str>,
}

/// Runs the rows of a sample file. `false`: the units have no such order.
fn print_run(
    rt: &impl Print,
    page: &mut Page,
    run: &mut Run,
    samples: &[u8],
    view: View<'_>,
) -> Result<bool>
    requires { IsRunAt run.old.order run.old.machine run.old.cycle }
{
    if !run.arrange(view.order) {
        return Ok(false);
    }
    if let Ok(rows) = read_widths(page, &run.machine.microcode().image.inputs, samples) {
        print_rows(rt, page, run, &rows, view.span)?;
    }
    Ok(true)
}

/// Prints the run of a program over the rows of a sample file, up to the page that is left. `false`: the units have no
/// such order.
pub fn print(
    rt: &impl Print,
    page: &mut Page,
    program: Program<'_>,
    samples: &[u8],
    view: View<'_>,
) -> Result<bool> {
    match run_of(page, program) {
        Ok(mut run) => print_run(rt, page, &mut run, samples, view),
        Err(_) => Ok(true),
    }
}
