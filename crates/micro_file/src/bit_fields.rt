//! The fields of a microcode file of version 2, which are read from packed bits.
ghost use Rattle.std.specs.Prelude.{◌≡◌, ◌<◌, ◌≤◌, ◌^◌, [], ◌∷◌, length, replicate, IfOk, pos};
ghost use Rattle.micro_image.specs.Fields.{nth};
ghost use Rattle.micro_image.specs.Operations.{operation};
ghost use Rattle.micro_file.specs.Private.Bits.{number_at, number_less_1_at, number_upto, number_below, number_less_1_upto};
ghost use Rattle.micro_file.specs.Private.Bits.{entry_at, as_raw_word, raw_word_at, preload_at, operation_at, some_format_at};
ghost use Rattle.micro_file.specs.Private.Bits.{format_at, argument_at, register_at, registers_at};
ghost use Rattle.micro_file.specs.Private.Fields.{many_at};
ghost use Rattle.micro_file.specs.Private.Reads.{Reads};
ghost use Rattle.micro_file.specs.Private.Tables.{kinds, modes};

use crate::fields::Fields;
use crate::misread::{Misread, Unread, refused};
use crate::tables::{KINDS, MODES};
use fix_word::{Format, Mode, Op};
use lists::List;
use micro_bits::widths::{
    BUS, CELLS, CHANNELS, CYCLES, FLAG, KIND, MODE, OFFSET, PERIOD, RAW_WORD, REGISTER, SHIFT,
    UNIT, UNROLL, WIDTH, WORD_NUMBER,
};
use micro_bits::{BitFault, BitReader, are_zeros};
use micro_image::{Kind, PortRegisters, is_formatted, operations_of, place_width_of};
use std::alloc::{AllocError, Global};

/// The greatest width.
const MAX_WIDTH: usize = 40;

/// How much a shift is less than what stands for it.
const SHIFTED: i8 = 40;

/// The number that stands for the greatest shift.
const MAX_SHIFT: usize = 120;

/// One more than the greatest raw word.
const HALF_RANGE: u64 = 1 << (RAW_WORD - 1);

/// How many raw words there are.
const RANGE: i64 = 1 << RAW_WORD;

/// A number of so many bits.
#[inline]
#[tactic(auto, unfolding(crate::specs::Private::Bits::number_at))]
pub(crate) fn number(reader: &mut BitReader<'_>, width: u32) -> Result<u64, Unread>
    requires { width ≤ 57 }
    ensures reads { Reads (number_at width) reader.old result reader.new }
    ensures bound { IfOk result (λ n. n < 2 ^ width) }
{
    match reader.number(width) {
        Ok(n) => Ok(n),
        Err(BitFault::Short) => Err(Unread::Misread(Misread::Short)),
    }
}

/// A number that is never 0, and stands less 1.
#[inline]
fn number_less_1(reader: &mut BitReader<'_>, width: u32) -> Result<u64, Unread>
    requires { width ≤ 57 }
    ensures reads { Reads (number_less_1_at width) reader.old result reader.new }
    ensures bound { IfOk result (λ n. n ≤ 2 ^ width) }
{
    Ok(number(reader, width)? + 1)
}

/// A number up to the limit.
fn number_up_to(reader: &mut BitReader<'_>, width: u32, limit: usize) -> Result<u64, Unread>
    requires { width ≤ 57 }
    ensures reads { Reads (number_upto width limit) reader.old result reader.new }
    ensures bound { IfOk result (λ n. n < 2 ^ width) }
{
    let left = reader.count();
    let n = number(reader, width)?;
    if n as usize <= limit {
        Ok(n)
    } else {
        Err(refused(left))
    }
}

/// A number below the limit.
#[inline]
pub(crate) fn number_under(
    reader: &mut BitReader<'_>,
    width: u32,
    limit: usize,
) -> Result<u64, Unread>
    requires { width ≤ 57 }
    ensures reads { Reads (number_below width limit) reader.old result reader.new }
    ensures bound { IfOk result (λ n. n < 2 ^ width) }
{
    let left = reader.count();
    let n = number(reader, width)?;
    if (n as usize) < limit {
        Ok(n)
    } else {
        Err(refused(left))
    }
}

/// A number that stands less 1, up to the limit.
fn number_less_1_up_to(reader: &mut BitReader<'_>, width: u32, limit: usize) -> Result<u64, Unread>
    requires { width ≤ 57 }
    ensures reads { Reads (number_less_1_upto width limit) reader.old result reader.new }
    ensures bound { IfOk result (λ n. n ≤ 2 ^ width) }
{
    let left = reader.count();
    let n = number_less_1(reader, width)?;
    if n as usize <= limit {
        Ok(n)
    } else {
        Err(refused(left))
    }
}

/// The number that 40 bits are in two's complement.
#[inline]
fn raw_word_of(n: u64) -> i64
    requires { n < 2 ^ 40 }
    ensures { result ≡ as_raw_word n }
{
    if n < HALF_RANGE {
        n as i64
    } else {
        n as i64 - RANGE
    }
}

#[inline]
#[tactic(auto, unfolding(crate::specs::Private::Bits::raw_word_at))]
fn read_raw_word(reader: &mut BitReader<'_>) -> Result<i64, Unread>
    ensures { Reads raw_word_at reader.old result reader.new }
{
    Ok(raw_word_of(number(reader, RAW_WORD)?))
}

fn read_raw_words(
    alloc: Global,
    count: usize,
    reader: &mut BitReader<'_>,
) -> Result<List<i64>, Unread>
    ensures { Reads (many_at (λ _. raw_word_at) [] count) reader.old result reader.new }
{
    let mut raw_words = List::with_capacity(alloc, count)?;
    for _ in 0..count {
        let raw_word = read_raw_word(reader)?;
        raw_words.push(raw_word)?;
    }
    Ok(raw_words)
}

fn zeros(alloc: Global, count: usize) -> Result<List<i64>, AllocError>
    ensures { IfOk result (λ words. words ≡ replicate count (pos 0)) }
{
    Ok(List::from_vec(vec![in alloc; 0; count]?))
}

/// Initial words: a flag, and each of them where it is 1. They are not all 0 then.
#[tactic(auto, unfolding(crate::specs::Private::Bits::preload_at))]
fn read_preload(
    alloc: Global,
    count: usize,
    reader: &mut BitReader<'_>,
) -> Result<List<i64>, Unread>
    ensures { Reads (preload_at count) reader.old result reader.new }
{
    let left = reader.count();
    if number(reader, FLAG)? == 0 {
        return Ok(zeros(alloc, count)?);
    }
    let words = read_raw_words(alloc, count, reader)?;
    if are_zeros(&words) {
        Err(refused(left))
    } else {
        Ok(words)
    }
}

#[inline]
fn read_operation(kind: Kind, reader: &mut BitReader<'_>) -> Result<Op, Unread>
    ensures { Reads (operation_at kind) reader.old result reader.new }
{
    let left = reader.count();
    let place = number(reader, place_width_of(kind))?;
    match operations_of(kind).get(place as usize) {
        Some(op) => Ok(*op),
        None => Err(refused(left)),
    }
}

fn read_mode(reader: &mut BitReader<'_>) -> Result<Mode, Unread>
    ensures { Reads (entry_at 2 modes) reader.old result reader.new }
{
    let left = reader.count();
    let place = number(reader, MODE)?;
    match MODES.get(place as usize) {
        Some(mode) => Ok(*mode),
        None => Err(refused(left)),
    }
}

#[tactic(auto, unfolding(crate::specs::Private::Bits::some_format_at))]
fn read_some_format(reader: &mut BitReader<'_>) -> Result<Format, Unread>
    ensures { Reads some_format_at reader.old result reader.new }
{
    let shift = number_up_to(reader, SHIFT, MAX_SHIFT)?;
    let mode = read_mode(reader)?;
    let width = number_less_1_up_to(reader, WIDTH, MAX_WIDTH)?;
    Ok(Format {
        shift: shift as i8 - SHIFTED,
        mode,
        width: width as u8,
    })
}

#[inline]
fn read_format(op: Op, reader: &mut BitReader<'_>) -> Result<Format, Unread>
    ensures { Reads (format_at op) reader.old result reader.new }
{
    if is_formatted(op) {
        read_some_format(reader)
    } else {
        Ok(Format {
            shift: 0,
            mode: Mode::Trunc,
            width: 0,
        })
    }
}

#[inline]
#[tactic(auto, unfolding(crate::specs::Private::Bits::argument_at))]
fn read_argument(
    op: Op,
    inputs: usize,
    outs: usize,
    reader: &mut BitReader<'_>,
) -> Result<i64, Unread>
    ensures { Reads (argument_at (operation op).argument inputs outs) reader.old result reader.new }
{
    match op {
        Op::Input => Ok(number_under(reader, WORD_NUMBER, inputs)? as i64),
        Op::Output => Ok(number_under(reader, WORD_NUMBER, outs)? as i64),
        Op::Const => read_raw_word(reader),
        Op::Addr => Ok(number(reader, OFFSET)? as i64),
        _ => Ok(0),
    }
}

/// How many registers the file of a port has.
fn registers_at(files: &List<List<i64>>, port: usize) -> usize
    ensures { result ≡ length (nth files.now port []) }
{
    match files.get(port) {
        Some(file) => file.len(),
        None => 0,
    }
}

/// The registers of the ports that are read, and 0 for each of the others.
#[tactic(auto, unfolding(crate::specs::Private::Bits::registers_at))]
fn read_registers(
    alloc: Global,
    files: &List<List<i64>>,
    read: usize,
    reader: &mut BitReader<'_>,
) -> Result<PortRegisters, Unread>
    ensures { Reads (registers_at files.now read) reader.old result reader.new }
{
    let mut regs = read_some_registers(alloc, files, read, reader)?;
    for _ in read..files.len() {
        regs.push(0)?;
    }
    Ok(regs)
}

/// The registers of the ports that are read.
fn read_some_registers(
    alloc: Global,
    files: &List<List<i64>>,
    read: usize,
    reader: &mut BitReader<'_>,
) -> Result<PortRegisters, Unread>
    ensures { Reads (many_at (register_at files.now) [] read) reader.old result reader.new }
{
    let mut regs = PortRegisters::with_capacity(alloc, files.len())?;
    for _ in 0..read {
        let reg = number_under(reader, REGISTER, registers_at(files, regs.len()))?;
        regs.push(reg as u8)?;
    }
    Ok(regs)
}

fn read_kind(reader: &mut BitReader<'_>) -> Result<Kind, Unread>
    ensures { Reads (entry_at 3 kinds) reader.old result reader.new }
{
    let left = reader.count();
    let place = number(reader, KIND)?;
    match KINDS.get(place as usize) {
        Some(kind) => Ok(*kind),
        None => Err(refused(left)),
    }
}

fn read_unroll(reader: &mut BitReader<'_>) -> Result<u8, Unread>
    ensures { Reads (entry_at 2 (1 ∷ 2 ∷ 4 ∷ [])) reader.old result reader.new }
{
    let left = reader.count();
    match number(reader, UNROLL)? {
        0 => Ok(1),
        1 => Ok(2),
        2 => Ok(4),
        _ => Err(refused(left)),
    }
}

impl<'a> Fields for BitReader<'a> {
    ghost use Rattle.std.specs.Prelude.{ℕ, List};
    ghost use Rattle.micro_file.specs.Private.Bits.{at_bits};

    ghost form = { at_bits };

    ghost rest = { λ bits. bits };

    #[inline]
    fn left(&self) -> usize {
        self.count()
    }

    fn ram_length(&self) -> usize {
        UNIT as usize
    }

    fn period(&mut self) -> Result<u16, Unread> {
        Ok(number_less_1(self, PERIOD)? as u16)
    }

    fn unroll(&mut self) -> Result<u8, Unread> {
        read_unroll(self)
    }

    fn channels(&mut self) -> Result<u8, Unread> {
        Ok(number_less_1(self, CHANNELS)? as u8)
    }

    fn width(&mut self) -> Result<u8, Unread> {
        Ok(number_up_to(self, WIDTH, MAX_WIDTH)? as u8)
    }

    fn units(&mut self) -> Result<u8, Unread> {
        Ok(number_less_1(self, UNIT)? as u8)
    }

    fn kind(&mut self) -> Result<Kind, Unread> {
        read_kind(self)
    }

    fn latency(&mut self) -> Result<u8, Unread> {
        Ok(number_less_1(self, CYCLES)? as u8)
    }

    fn gap(&mut self, latency: u8) -> Result<u8, Unread> {
        Ok(number_less_1_up_to(self, CYCLES, usize::from(latency))? as u8)
    }

    fn registers(&mut self) -> Result<usize, Unread> {
        Ok(number_less_1(self, REGISTER)? as usize)
    }

    fn cells(&mut self) -> Result<usize, Unread> {
        Ok(number_less_1(self, CELLS)? as usize)
    }

    fn initial(&mut self, alloc: Global, count: usize) -> Result<List<i64>, Unread> {
        read_preload(alloc, count, self)
    }

    fn ram(&mut self) -> Result<u8, Unread> {
        Ok(number(self, UNIT)? as u8)
    }

    fn buses(&mut self) -> Result<u8, Unread> {
        Ok(number_less_1(self, BUS)? as u8)
    }

    #[inline]
    fn operation(&mut self, kind: Kind) -> Result<Op, Unread> {
        read_operation(kind, self)
    }

    #[inline]
    fn format(&mut self, op: Op) -> Result<Format, Unread> {
        read_format(op, self)
    }

    #[inline]
    fn argument(&mut self, op: Op, inputs: usize, outs: usize) -> Result<i64, Unread> {
        read_argument(op, inputs, outs, self)
    }

    #[inline]
    fn named(
        &mut self,
        alloc: Global,
        files: &List<List<i64>>,
        read: usize,
    ) -> Result<PortRegisters, Unread> {
        read_registers(alloc, files, read, self)
    }
}
