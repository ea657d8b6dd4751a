//! An image to its packed file.

ghost use Rattle.std.specs.Prelude.{◌≡◌, ◌<◌, ◌≤◌, ◌^◌, ◌-◌, ◌+◌, ◌*◌, ◌++◌, ◌∷◌, [], length, take, get_or, if◌then◌else◌, IfOk, OnOk};
ghost use Rattle.std.specs.Prelude.{replicate, IsTrue};
ghost use Rattle.std.specs.List.{flat_map};
ghost use Rattle.micro_image.specs.Codes.{kind_number, mode_number};
ghost use Rattle.micro_image.specs.Bits.{bits, raw_bits, preload_bits, place_bits, format_bits, argument_bits, in_bits};
ghost use Rattle.micro_image.specs.Bits.{take_bits, word_bits, image_bits};
ghost use Rattle.micro_image.specs.Form.{spelled_file, spelled_memory, spelled_unit, spelled_operation};
ghost use Rattle.micro_image.specs.Form.{spelled_hardware};
ghost use Rattle.micro_image.specs.Operations.{operation, is_formatted};
ghost use Rattle.micro_image.specs.Spells.{AreBytes, begun, bits_of, SpellsIn};
ghost use Rattle.micro_image.specs.declared.version.Version.TheVariants.{Two};
ghost use Rattle.micro_image.specs.Size.{most_bytes};
ghost use Rattle.micro_image.specs.Valid.{IsWordOf, IsValid};
ghost use Rattle.micro_bits.specs.Idle.{sizes, files_of};
ghost use Rattle.micro_bits.specs.Private.Placed.{starts_in};
ghost use Rattle.micro_bits.specs.Private.Placed.{placed_issues, placed_enables, placed_takes};
ghost use Rattle.micro_bits.specs.Private.Writes.{Padded};

use crate::bit_writer::BitWriter;
use crate::fault::CodeFault;
use crate::fields::are_zeros;
use crate::places::{files_of, idle_bits_of, starts_of};
use crate::widths::{
    BUS, CELLS, CHANNELS, CYCLES, FLAG, KIND, MODE, OFFSET, PERIOD, RAW_WORD, REGISTER, SHIFT,
    UNIT, UNROLL, WIDTH, WORD_NUMBER,
};
use fix_word::{Format, Mode, Op};
use lists::{Bytes, List};
use micro_image::{
    Enable, Enables, Image, Issue, Kind, Take, Takes, UnitDesc, Word, is_formatted, place_of,
    place_width_of, reads,
};
use std::alloc::{AllocError, Global};

/// As many bits as are put at once.
const MOST: usize = 57;

/// What is added to a shift.
const SHIFTED: i64 = 40;

/// As many shifts as their field tells apart.
const SHIFTS: u64 = 128;

/// The same of modes.
const MODES: u64 = 4;

/// The same of widths.
const WIDTHS: u64 = 64;

/// The same of buses.
const BUSES: u64 = 32;

/// The same of registers.
const REGISTERS: u64 = 256;

fn kind_number_of(kind: Kind) -> u8
    ensures { result ≡ kind_number kind }
{
    kind as u8
}

fn mode_number_of(mode: Mode) -> u8
    ensures { result ≡ mode_number mode }
{
    mode as u8
}

/// A number that is above 0, less 1.
fn less_1(number: usize) -> u64
    ensures { result ≡ number - 1 }
{
    number.saturating_sub(1) as u64
}

#[inline]
fn put_raw_word(out: &mut BitWriter, raw_word: i64) -> Result<(), AllocError>
    ensures { OnOk result (out.new ≡ out.old ++ raw_bits raw_word) }
{
    out.put(RAW_WORD, raw_word.cast_unsigned())
}

fn put_raw_words(out: &mut BitWriter, raw_words: &List<i64>) -> Result<(), AllocError>
    ensures { OnOk result (out.new ≡ out.old ++ flat_map raw_bits raw_words.now) }
{
    for raw_word in raw_words.iter() {
        put_raw_word(out, *raw_word)?;
    }
    Ok(())
}

#[tactic(auto, unfolding(micro_image::specs::Bits::preload_bits))]
fn put_preload(out: &mut BitWriter, raw_words: &List<i64>) -> Result<(), AllocError>
    ensures { OnOk result (out.new ≡ out.old ++ preload_bits raw_words.now) }
{
    if are_zeros(raw_words) {
        return put_flag(out, false);
    }
    put_flag(out, true)?;
    put_raw_words(out, raw_words)
}

#[inline]
fn put_flag(out: &mut BitWriter, flag: bool) -> Result<(), AllocError>
    ensures { OnOk result (out.new ≡ out.old ++ (if flag then 1 else 0) ∷ []) }
{
    out.put(FLAG, u64::from(flag))
}

/// So many zeros, as many of them at once as can be.
#[inline]
fn put_zeros(out: &mut BitWriter, count: usize) -> Result<(), AllocError>
    ensures { OnOk result (out.new ≡ out.old ++ replicate count 0) }
{
    let mut left = count;
    while left > MOST {
        out.put(MOST as u32, 0)?;
        left -= MOST;
    }
    out.put(left as u32, 0)
}

#[tactic(auto, unfolding(micro_image::specs::Form::spelled_file))]
fn put_file(out: &mut BitWriter, file: &List<i64>) -> Result<(), AllocError>
    ensures { OnOk result (out.new ≡ out.old ++ spelled_file in_bits file.now) }
{
    out.put(REGISTER, less_1(file.len()))?;
    put_preload(out, file)
}

#[tactic(auto, unfolding(micro_image::specs::Form::spelled_memory))]
fn put_memory(out: &mut BitWriter, unit: &UnitDesc) -> Result<(), AllocError>
    ensures { OnOk result (out.new ≡ out.old ++ spelled_memory in_bits unit.now.kind unit.now) }
{
    match unit.kind {
        Kind::Ram => {
            out.put(CELLS, less_1(unit.cells.len()))?;
            put_preload(out, &unit.cells)
        }
        Kind::Acu => out.put(UNIT, u64::from(unit.ram)),
        _ => Ok(()),
    }
}

fn put_files(out: &mut BitWriter, files: &List<List<i64>>) -> Result<(), AllocError>
    ensures { OnOk result (out.new ≡ out.old ++ flat_map (spelled_file in_bits) files.now) }
{
    for file in files.iter() {
        put_file(out, file)?;
    }
    Ok(())
}

#[tactic(auto, unfolding(micro_image::specs::Form::spelled_unit))]
fn put_unit(out: &mut BitWriter, unit: &UnitDesc) -> Result<(), AllocError>
    ensures { OnOk result (out.new ≡ out.old ++ spelled_unit in_bits unit.now) }
{
    out.put(KIND, u64::from(kind_number_of(unit.kind)))?;
    out.put(CYCLES, less_1(usize::from(unit.latency)))?;
    out.put(CYCLES, less_1(usize::from(unit.gap)))?;
    put_files(out, &unit.files)?;
    put_memory(out, unit)
}

fn put_units(out: &mut BitWriter, units: &List<UnitDesc>) -> Result<(), AllocError>
    ensures { OnOk result (out.new ≡ out.old ++ flat_map (spelled_unit in_bits) units.now) }
{
    for unit in units.iter() {
        put_unit(out, unit)?;
    }
    Ok(())
}

fn put_inputs(out: &mut BitWriter, inputs: &List<u8>) -> Result<(), AllocError>
    ensures { OnOk result (out.new ≡ out.old ++ flat_map (bits 6) inputs.now) }
{
    for width in inputs.iter() {
        out.put(WIDTH, u64::from(*width))?;
    }
    Ok(())
}

/// All but the words.
#[tactic(auto, unfolding(micro_image::specs::Form::spelled_hardware))]
fn put_hardware(out: &mut BitWriter, image: &Image) -> Result<(), AllocError>
    ensures { OnOk result (out.new ≡ out.old ++ spelled_hardware in_bits image.now) }
{
    out.put(PERIOD, less_1(usize::from(image.period)))?;
    out.put(UNROLL, u64::from(image.unroll / 2))?;
    out.put(CHANNELS, less_1(image.inputs.len()))?;
    put_inputs(out, &image.inputs)?;
    out.put(CHANNELS, less_1(usize::from(image.outs)))?;
    out.put(UNIT, less_1(image.units.len()))?;
    put_units(out, &image.units)?;
    out.put(BUS, less_1(usize::from(image.buses)))
}

/// Which of its kind's operations it is.
#[inline]
#[tactic(auto, unfolding(micro_image::specs::Bits::place_bits))]
fn put_place(out: &mut BitWriter, op: Op) -> Result<(), AllocError>
    ensures { OnOk result (out.new ≡ out.old ++ place_bits op) }
{
    out.put(place_width_of(Kind::of(op)), place_of(op) as u64)
}

#[tactic(auto, unfolding(micro_image::specs::Bits::format_bits))]
fn put_some_format(out: &mut BitWriter, fmt: &Format) -> Result<(), AllocError>
    ensures { OnOk result (out.new ≡ out.old ++ format_bits fmt.now) }
{
    let shift = (i64::from(fmt.shift) + SHIFTED).cast_unsigned();
    let shift_and_mode = shift % SHIFTS * MODES + u64::from(mode_number_of(fmt.mode));
    // The three as one number, which is put at once.
    out.put(
        SHIFT + MODE + WIDTH,
        shift_and_mode * WIDTHS + less_1(usize::from(fmt.width)) % WIDTHS,
    )
}

#[inline]
fn put_format(out: &mut BitWriter, op: Op, fmt: &Format) -> Result<(), AllocError>
    ensures { OnOk result (out.new ≡ out.old ++ (if is_formatted op then format_bits fmt.now else [])) }
{
    if is_formatted(op) {
        put_some_format(out, fmt)
    } else {
        Ok(())
    }
}

#[inline]
fn put_argument(out: &mut BitWriter, op: Op, argument: i64) -> Result<(), AllocError>
    ensures { OnOk result (out.new ≡ out.old ++ argument_bits (operation op).argument argument) }
{
    match op {
        Op::Input | Op::Output => out.put(WORD_NUMBER, argument.cast_unsigned()),
        Op::Const => put_raw_word(out, argument),
        Op::Addr => out.put(OFFSET, argument.cast_unsigned()),
        _ => Ok(()),
    }
}

/// The registers at the ports that are read, so many.
#[inline]
fn put_registers(out: &mut BitWriter, regs: &[u8], read: usize) -> Result<(), AllocError>
    ensures { OnOk result (out.new ≡ out.old ++ flat_map (bits 8) (take read regs.now)) }
{
    let (front, _) = regs.split_at(read.min(regs.len()));
    for reg in front {
        out.put(REGISTER, u64::from(*reg))?;
    }
    Ok(())
}

#[tactic(auto, unfolding(micro_image::specs::Form::spelled_operation))]
fn put_operation(out: &mut BitWriter, issue: &Issue) -> Result<(), AllocError>
    ensures { OnOk result (out.new ≡ out.old ++ spelled_operation in_bits issue.now) }
{
    put_place(out, issue.op)?;
    put_format(out, issue.op, &issue.fmt)?;
    put_argument(out, issue.op, issue.arg)?;
    put_registers(out, issue.regs.as_slice(), reads(issue.op))
}

/// So many zeros, and the number behind them.
#[inline]
fn put_behind(out: &mut BitWriter, zeros: usize, count: u32, number: u64) -> Result<(), AllocError>
    requires few { count ≤ 57 }
    requires small { number < 2 ^ count }
    ensures { OnOk result (out.new ≡ out.old ++ (replicate zeros 0 ++ bits count number)) }
{
    if zeros <= MOST - count as usize {
        return out.put(zeros as u32 + count, number);
    }
    put_zeros(out, zeros)?;
    out.put(count, number)
}

/// The issue behind the flags of units that have none, so many.
fn put_issue(out: &mut BitWriter, none: usize, issue: &Issue) -> Result<(), AllocError>
    ensures { OnOk result (out.new ≡ out.old ++ (replicate none 0 ++ 1 ∷ spelled_operation in_bits issue.now)) }
{
    put_behind(out, none, FLAG, 1)?;
    put_operation(out, issue)
}

fn put_issues(out: &mut BitWriter, units: usize, issues: &List<Issue>) -> Result<(), AllocError>
    ensures { OnOk result (out.new ≡ out.old ++ placed_issues units 0 issues.now) }
{
    let mut next = 0;
    for issue in issues.iter() {
        let unit = usize::from(issue.unit);
        put_issue(out, unit.saturating_sub(next), issue)?;
        next = unit + 1;
    }
    put_zeros(out, units.saturating_sub(next))
}

/// The place of its flag among those of all units and buses.
#[inline]
fn flag_place(enable: &Enable, buses: u8) -> usize
    ensures place { result ≡ enable.now.unit * buses + enable.now.bus }
    ensures small { result < 2 ^ 16 }
{
    usize::from(enable.unit) * usize::from(buses) + usize::from(enable.bus)
}

/// A flag for each unit and bus, so many.
fn put_enables(
    out: &mut BitWriter,
    buses: u8,
    flags: usize,
    enables: &Enables,
) -> Result<(), AllocError>
    ensures { OnOk result (out.new ≡ out.old ++ placed_enables buses flags 0 enables.now) }
{
    let mut next = 0;
    for enable in enables.iter() {
        let place = flag_place(enable, buses);
        put_behind(out, place.saturating_sub(next), FLAG, 1)?;
        next = place + 1;
    }
    put_zeros(out, flags.saturating_sub(next))
}

/// 1, the bus, the register, behind the ends of the takes into so many files.
#[inline]
fn put_take(out: &mut BitWriter, ends: usize, take: &Take) -> Result<(), AllocError>
    ensures { OnOk result (out.new ≡ out.old ++ (replicate ends 0 ++ take_bits take.now)) }
{
    // The three as one number too.
    let flag_and_bus = BUSES + u64::from(take.bus) % BUSES;
    put_behind(
        out,
        ends,
        FLAG + BUS + REGISTER,
        flag_and_bus * REGISTERS + u64::from(take.reg),
    )
}

/// The place of its file among those of all units, where those of a unit start there.
#[inline]
fn file_place(take: &Take, starts: &List<u16>) -> usize
    ensures { result ≡ get_or starts.now take.now.port.unit 0 + take.now.port.port }
{
    let start = match starts.get(usize::from(take.port.unit)) {
        Some(start) => usize::from(*start),
        None => 0,
    };
    start + usize::from(take.port.port)
}

/// The ends of the takes into so many files, each behind its takes.
fn put_takes(
    out: &mut BitWriter,
    starts: &List<u16>,
    files: usize,
    takes: &Takes,
) -> Result<(), AllocError>
    ensures { OnOk result (out.new ≡ out.old ++ placed_takes starts.now files 0 takes.now) }
{
    let mut next = 0;
    for take in takes.iter() {
        let place = file_place(take, starts);
        put_take(out, place.saturating_sub(next), take)?;
        next = place;
    }
    put_zeros(out, files.saturating_sub(next))
}

/// Whether the word does nothing.
#[inline]
fn is_idle(word: &Word) -> bool
    ensures { IsTrue result → (word.now.issues ≡ []) × (word.now.enables ≡ []) × (word.now.takes ≡ []) }
{
    word.issues.is_empty() && word.enables.is_empty() && word.takes.is_empty()
}

fn put_word(
    out: &mut BitWriter,
    image: &Image,
    starts: &List<u16>,
    files: usize,
    word: &Word,
) -> Result<(), AllocError>
    requires valid { IsValid image.now }
    requires word { IsWordOf image.now word.now }
    requires starts { starts.now ≡ starts_in image.now }
    requires files { files ≡ sizes (files_of image.now) 0 (length image.now.units) }
    ensures { OnOk result (out.new ≡ out.old ++ word_bits image.now.units image.now.buses word.now) }
{
    let units = image.units.len();
    put_issues(out, units, &word.issues)?;
    put_enables(
        out,
        image.buses,
        units * usize::from(image.buses),
        &word.enables,
    )?;
    put_takes(out, starts, files, &word.takes)
}

fn put_words(alloc: Global, out: &mut BitWriter, image: &Image) -> Result<(), AllocError>
    requires { IsValid image.now }
    ensures { OnOk result (out.new ≡ out.old ++ flat_map (word_bits image.now.units image.now.buses) image.now.words) }
{
    let starts = starts_of(alloc, image)?;
    let files = files_of(image);
    let idle = idle_bits_of(image);
    for word in image.words.iter() {
        // Many words do nothing.
        if is_idle(word) {
            put_zeros(out, idle)?;
        } else {
            put_word(out, image, &starts, files, word)?;
        }
    }
    Ok(())
}

/// The magic bytes and the version.
fn head(alloc: Global) -> Result<Bytes, AllocError>
    ensures { IfOk result (λ bytes. bytes ≡ begun 2 []) }
{
    let mut bytes = Bytes::new(alloc);
    bytes.extend_from_slice(b"SILM\x02")?;
    Ok(bytes)
}

#[tactic(auto, unfolding(micro_image::specs::Bits::image_bits))]
fn spelling_of(alloc: Global, image: &Image) -> Result<Bytes, AllocError>
    requires { IsValid image.now }
    ensures { IfOk result (λ bytes. Padded (bits_of (begun 2 []) ++ image_bits image.now) bytes) }
{
    let mut out = BitWriter::new(head(alloc)?);
    put_hardware(&mut out, image)?;
    put_words(alloc, &mut out, image)?;
    out.finish()
}

/// The bytes that spell the image in version 2. An error says that no memory was left.
pub fn encode(alloc: Global, image: &Image) -> Result<Bytes, CodeFault>
    requires { IsValid image.now }
    ensures spelled { IfOk result (λ bytes. SpellsIn Two bytes image.now) }
    ensures short { IfOk result (λ bytes. length bytes ≤ most_bytes) }
{
    let bytes = spelling_of(alloc, image)?;
    see_bytes(bytes.as_slice());
    Ok(bytes)
}

/// Does nothing: a contract sees of a slice that its elements are bytes, and not of a list.
#[inline]
fn see_bytes(bytes: &[u8])
    ensures { AreBytes bytes.now }
{
    let _ = bytes;
}
