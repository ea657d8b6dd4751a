//! What an image has, by number.
ghost use Rattle.std.specs.Prelude.{◌≡◌, ◌<◌, ◌^◌, ◌==◌, [], pos, length, find, option_copied};
ghost use Rattle.signal_graph.specs.Rules.{word_before as word_before_in};
ghost use Rattle.operations.specs.Ranges.{to_nat};
ghost use Rattle.micro_image.specs.Fields.{nth, unit_of, microprogram_of};
ghost use Rattle.micro_image.specs.Log.{Register, Cell, initial, modulus_of as modulus_in};
ghost use Rattle.micro_image.specs.Operations.{gives as gives_in};
ghost use Rattle.image_labels.specs.Labels.{word_in as word_of, delay_on as delay_of, issued_in as issued, ended_in as ended, is_into};
ghost use Rattle.plan_soundness.specs.Private.Cells.{cell_in as cell_after};

use fix_word::Op;
use lists::List;
use micro_image::{Enable, Image, Issue, PortRegisters, Take, Word};

/// The microword of a cycle of a turn.
pub fn word_in(image: &Image, cycle: u16) -> &Word
    requires { cycle < length image.now.words }
    ensures { result.now ≡ word_of image.now cycle }
{
    &image.words[usize::from(cycle)]
}

/// How many cycles there are between an issue on a unit and its end.
pub fn delay_on(image: &Image, unit: u32) -> u8
    ensures { result ≡ delay_of image.now unit }
{
    let unit = unit as usize;
    if unit < image.units.len() {
        image.units[unit].latency.saturating_sub(1)
    } else {
        0
    }
}

/// How many cycles after an issue a unit can have the next one.
pub fn gap_on(image: &Image, unit: u32) -> u8
    ensures { result ≡ (unit_of (microprogram_of image.now) unit).gap }
{
    let unit = unit as usize;
    if unit < image.units.len() {
        image.units[unit].gap
    } else {
        1
    }
}

/// How many cells a unit has.
pub fn cells_on(image: &Image, unit: u32) -> usize
    ensures { result ≡ length (unit_of (microprogram_of image.now) unit).cells }
{
    let unit = unit as usize;
    if unit < image.units.len() {
        image.units[unit].cells.len()
    } else {
        0
    }
}

/// How many register files a unit has.
pub fn files_on(image: &Image, unit: u32) -> usize
    ensures { result ≡ length (unit_of (microprogram_of image.now) unit).files }
{
    let unit = unit as usize;
    if unit < image.units.len() {
        image.units[unit].files.len()
    } else {
        0
    }
}

/// How many registers a port of a unit has.
pub fn registers_on(image: &Image, unit: u32, port: u32) -> usize
    ensures { result ≡ length (nth (unit_of (microprogram_of image.now) unit).files port []) }
{
    let unit = unit as usize;
    let port = port as usize;
    if unit < image.units.len() && port < image.units[unit].files.len() {
        image.units[unit].files[port].len()
    } else {
        0
    }
}

/// The ram that an acu addresses.
fn ram_of(image: &Image, unit: u32) -> u8
    ensures { result ≡ (unit_of (microprogram_of image.now) unit).ram }
{
    let unit = unit as usize;
    if unit < image.units.len() {
        image.units[unit].ram
    } else {
        0
    }
}

/// How many cells the ram has that an acu addresses.
pub fn modulus_of(image: &Image, unit: u32) -> usize
    ensures { result ≡ modulus_in (microprogram_of image.now) unit }
{
    cells_on(image, u32::from(ram_of(image, unit)))
}

/// What a microword issues to a unit.
pub fn issued_in(word: &Word, unit: u32) -> Option<&Issue>
    ensures { option_copied result ≡ issued word.now unit }
{
    word.issues
        .iter()
        .find(|issue| u32::from(issue.unit) == unit)
}

/// What ends in a cycle of a turn on a unit.
pub fn ended_in(image: &Image, cycle: u16, unit: u32) -> Option<&Issue>
    requires { cycle < length image.now.words }
    ensures { option_copied result ≡ ended image.now cycle unit }
{
    let delay = u16::from(delay_on(image, unit));
    if delay <= cycle {
        issued_in(word_in(image, cycle - delay), unit)
    } else {
        None
    }
}

/// What drives a bus.
pub fn driver_of(word: &Word, bus: u8) -> Option<&Enable>
    ensures { option_copied result ≡ find (λ enable. enable.bus == bus) word.now.enables }
{
    word.enables.iter().find(|enable| enable.bus == bus)
}

/// The take into a register.
pub fn take_into(word: &Word, unit: u32, port: u32, reg: u32) -> Option<&Take>
    ensures { option_copied result ≡ find (is_into unit port reg) word.now.takes }
{
    word.takes.iter().find(|take| {
        u32::from(take.port.unit) == unit
            && (u32::from(take.port.port) == port && u32::from(take.reg) == reg)
    })
}

/// The register that is read at a port.
pub fn register_at(regs: &PortRegisters, port: u32) -> u8
    ensures { result ≡ nth regs.now port 0 }
{
    let port = port as usize;
    if port < regs.len() { regs[port] } else { 0 }
}

/// Whether an operation gives a result; a store and an output write a place.
pub fn gives(op: Op) -> bool
    ensures { result ≡ gives_in op }
{
    !matches!(op, Op::Store | Op::Output)
}

/// A number that counts from 0.
pub fn number_of(arg: i64) -> u64
    ensures number { result ≡ to_nat arg }
    ensures small { result < 2 ^ 63 }
{
    if arg < 0 { 0 } else { arg as u64 }
}

fn word_at(words: &List<i64>, index: u32) -> i64
    ensures { result ≡ nth words.now index (pos 0) }
{
    let index = index as usize;
    if index < words.len() { words[index] } else { 0 }
}

fn word_of_file(files: &List<List<i64>>, port: u32, reg: u32) -> i64
    ensures { result ≡ nth (nth files.now port []) reg (pos 0) }
{
    let port = port as usize;
    if port < files.len() {
        word_at(&files[port], reg)
    } else {
        0
    }
}

/// What a register starts with.
pub fn initial_register(image: &Image, unit: u32, port: u32, reg: u32) -> i64
    ensures { result ≡ initial (microprogram_of image.now) (Register unit port reg) }
{
    let unit = unit as usize;
    if unit < image.units.len() {
        word_of_file(&image.units[unit].files, port, reg)
    } else {
        0
    }
}

/// What a cell starts with.
pub fn initial_cell(image: &Image, unit: u32, cell: u32) -> i64
    ensures { result ≡ initial (microprogram_of image.now) (Cell unit cell) }
{
    let unit = unit as usize;
    if unit < image.units.len() {
        word_at(&image.units[unit].cells, cell)
    } else {
        0
    }
}

fn init_at(inits: &List<(u16, i64)>, ago: u32) -> Option<&(u16, i64)>
    ensures { option_copied result ≡ find (λ init. init.0 == ago) inits.now }
{
    inits.iter().find(|init| u32::from(init.0) == ago)
}

fn word_of_init(init: &(u16, i64)) -> i64
    ensures { result ≡ init.now.1 }
{
    init.1
}

/// The word of a node this many samples before sample 0.
pub fn word_before(inits: &List<(u16, i64)>, ago: u32) -> i64
    ensures { result ≡ word_before_in inits.now ago }
{
    match init_at(inits, ago) {
        Some(init) => word_of_init(init),
        None => 0,
    }
}

/// The cell of an offset so many samples later.
pub fn cell_in(cells: u32, offset: u64, samples: u16) -> u64
    requires some { 0 < cells }
    requires small { offset < 2 ^ 63 }
    ensures { result ≡ cell_after cells 0 offset samples }
{
    let cells = u64::from(cells);
    let samples = u64::from(samples);
    (offset + (samples * cells - samples)) % cells
}
