//! A reader of a microcode file of version 1, and the fields that it reads.
ghost use Rattle.std.specs.Prelude.{◌≡◌, [], length};
ghost use Rattle.micro_file.specs.Private.Bytes.{same_kind, operation_at, unroll_at, some_format_at, no_format_at, format_at, argument_at, register_count, register_at};
ghost use Rattle.micro_file.specs.Private.Fields.{many_at};
ghost use Rattle.micro_file.specs.Private.Reads.{Reads};

use crate::arguments::{fits_operation, is_word};
use crate::fields::Fields;
use crate::misread::{Misread, Unread, refused};
use crate::tables::{KINDS, MODES, OPERATIONS};
use fix_word::{Format, MOST_BITS, Mode, Op};
use lists::List;
use micro_image::{Kind, PortRegisters, is_formatted};
use std::alloc::Global;
use std::marker::Model;

/// The longest period, in cycles.
const MAX_PERIOD: u16 = 4096;

/// The most input words, and the most output words.
const MAX_CHANNELS: u8 = 16;

/// The most units of a datapath.
const MAX_UNITS: u8 = 32;

/// The most cycles that an operation takes.
const MAX_LATENCY: u8 = 8;

/// The most registers of a file.
const MAX_REGISTERS: u16 = 256;

/// The most cells of a ram.
const MAX_CELLS: u32 = 65536;

/// The most buses.
const MAX_BUSES: u8 = 32;

/// The least shift of a format, which is to the left.
const MIN_SHIFT: i8 = -40;

/// The greatest shift of a format.
const MAX_SHIFT: i8 = 80;

/// A file of which the front is read. A contract sees the bytes that are left.
#[derive(Drop)]
pub(crate) struct ByteReader<'a> {
    rest: &'a [u8],
}

impl<'a> Model for ByteReader<'a> {
    ghost use Rattle.std.specs.Prelude.{ℕ, List};

    ghost Value = { List ℕ };

    ghost view = { λ reader. reader.rest.now };
}

impl<'a> ByteReader<'a> {
    ghost use Rattle.std.specs.Prelude.{◌+◌, ◌≤◌, ◌++◌, length, IsTrue, IsFalse};
    ghost use Rattle.std.specs.Int.{w16, w32};
    ghost use Rattle.micro_file.specs.Private.Empty.{empty_word};
    ghost use Rattle.micro_file.specs.Private.Reads.{Reads};
    ghost use Rattle.micro_file.specs.Private.Tables.{kinds, operations, modes};
    ghost use Rattle.micro_file.specs.Private.Bytes.{byte_at, only_byte, byte_within, byte_below, byte_upto, number_within, signed_at, raw_word_at, raw_words_at, entry_at};

    pub(crate) fn new(bytes: &'a [u8]) -> ByteReader<'a>
        ensures { result ≡ bytes.now }
    {
        ByteReader { rest: bytes }
    }

    /// Another reader of the bytes that are left.
    #[inline]
    pub(crate) fn fork(&self) -> ByteReader<'a>
        ensures { result ≡ self.now }
    {
        ByteReader { rest: self.rest }
    }

    /// The bytes that are left.
    pub(crate) fn rest(&self) -> &'a [u8]
        ensures { result.now ≡ self.now }
    {
        self.rest
    }

    /// How many bytes are left.
    #[inline]
    pub(crate) fn left(&self) -> usize
        ensures count { result ≡ length self.now }
        ensures room { result + 1 ≤ usize.MAX }
    {
        self.rest.len()
    }

    #[inline]
    pub(crate) fn byte(&mut self) -> Result<u8, Unread>
        ensures { Reads byte_at self.old result self.new }
    {
        match self.rest {
            [] => Err(Unread::Misread(Misread::Short)),
            [byte, rest @ ..] => {
                self.rest = rest;
                Ok(*byte)
            }
        }
    }

    /// Whether an empty word is in front, which is then read.
    // Decoding one takes 60 instructions so, and 149 list by list.
    #[inline]
    pub(crate) fn passes_empty_word(&mut self) -> bool
        ensures passed { IsTrue result → self.old ≡ empty_word ++ self.new }
        ensures others { IsFalse result → self.new ≡ self.old }
    {
        match self.rest {
            [a, b, c, d, 0, rest @ ..] if u32::from_be_bytes([*a, *b, *c, *d]) == 0 => {
                self.rest = rest;
                true
            }
            _ => false,
        }
    }

    /// A byte that has to be this one; another is misread so.
    pub(crate) fn only(&mut self, misread: Misread, only: u8) -> Result<u8, Unread>
        ensures { Reads (only_byte misread only) self.old result self.new }
    {
        let byte = self.byte()?;
        if byte == only {
            Ok(byte)
        } else {
            Err(Unread::Misread(misread))
        }
    }

    #[inline]
    pub(crate) fn byte_in(&mut self, low: u8, high: u8) -> Result<u8, Unread>
        ensures { Reads (byte_within low high) self.old result self.new }
    {
        let left = self.left();
        let byte = self.byte()?;
        if low <= byte && byte <= high {
            Ok(byte)
        } else {
            Err(refused(left))
        }
    }

    #[inline]
    pub(crate) fn byte_under(&mut self, limit: usize) -> Result<u8, Unread>
        ensures { Reads (byte_below limit) self.old result self.new }
    {
        let left = self.left();
        let byte = self.byte()?;
        if usize::from(byte) < limit {
            Ok(byte)
        } else {
            Err(refused(left))
        }
    }

    #[inline]
    pub(crate) fn byte_up_to(&mut self, limit: usize) -> Result<u8, Unread>
        ensures { Reads (byte_upto limit) self.old result self.new }
    {
        let left = self.left();
        let byte = self.byte()?;
        if usize::from(byte) <= limit {
            Ok(byte)
        } else {
            Err(refused(left))
        }
    }

    /// A number in two bytes.
    pub(crate) fn short_in(&mut self, low: u16, high: u16) -> Result<u16, Unread>
        ensures { Reads (number_within w16 low high) self.old result self.new }
    {
        let left = self.left();
        if left < 2 {
            return Err(Unread::Misread(Misread::Short));
        }
        let (front, rest) = self.rest.split_at(2);
        self.rest = rest;
        let number = u16::from_be_bytes([front[0], front[1]]);
        if low <= number && number <= high {
            Ok(number)
        } else {
            Err(refused(left))
        }
    }

    /// A number in four bytes.
    pub(crate) fn long_in(&mut self, low: u32, high: u32) -> Result<u32, Unread>
        ensures { Reads (number_within w32 low high) self.old result self.new }
    {
        let left = self.left();
        if left < 4 {
            return Err(Unread::Misread(Misread::Short));
        }
        let (front, rest) = self.rest.split_at(4);
        self.rest = rest;
        let number = u32::from_be_bytes([front[0], front[1], front[2], front[3]]);
        if low <= number && number <= high {
            Ok(number)
        } else {
            Err(refused(left))
        }
    }

    /// A number in two's complement, in eight bytes.
    #[inline]
    pub(crate) fn signed(&mut self) -> Result<i64, Unread>
        ensures { Reads signed_at self.old result self.new }
    {
        if self.left() < 8 {
            return Err(Unread::Misread(Misread::Short));
        }
        let (front, rest) = self.rest.split_at(8);
        self.rest = rest;
        let number = u64::from_be_bytes([
            front[0], front[1], front[2], front[3], front[4], front[5], front[6], front[7],
        ]);
        Ok(number.cast_signed())
    }

    #[inline]
    #[tactic(auto, unfolding(crate::specs::Private::Bytes::raw_word_at))]
    fn raw_word(&mut self) -> Result<i64, Unread>
        ensures { Reads raw_word_at self.old result self.new }
    {
        let left = self.left();
        let number = self.signed()?;
        if is_word(number) {
            Ok(number)
        } else {
            Err(refused(left))
        }
    }

    pub(crate) fn raw_words(&mut self, alloc: Global, count: usize) -> Result<List<i64>, Unread>
        ensures { Reads (raw_words_at count) self.old result self.new }
    {
        let mut raw_words = List::with_capacity(alloc, count)?;
        for _ in 0..count {
            let raw_word = self.raw_word()?;
            raw_words.push(raw_word)?;
        }
        Ok(raw_words)
    }

    pub(crate) fn kind(&mut self) -> Result<Kind, Unread>
        ensures { Reads (entry_at kinds) self.old result self.new }
    {
        let left = self.left();
        let byte = self.byte()?;
        match KINDS.get(usize::from(byte)) {
            Some(kind) => Ok(*kind),
            None => Err(refused(left)),
        }
    }

    #[inline]
    pub(crate) fn operation(&mut self) -> Result<Op, Unread>
        ensures { Reads (entry_at operations) self.old result self.new }
    {
        let left = self.left();
        let byte = self.byte()?;
        match OPERATIONS.get(usize::from(byte)) {
            Some(op) => Ok(*op),
            None => Err(refused(left)),
        }
    }

    #[inline]
    pub(crate) fn mode(&mut self) -> Result<Mode, Unread>
        ensures { Reads (entry_at modes) self.old result self.new }
    {
        let left = self.left();
        let byte = self.byte()?;
        match MODES.get(usize::from(byte)) {
            Some(mode) => Ok(*mode),
            None => Err(refused(left)),
        }
    }
}

fn read_operation(kind: Kind, reader: &mut ByteReader<'_>) -> Result<Op, Unread>
    ensures { Reads (operation_at kind) reader.old result reader.new }
{
    let left = reader.left();
    let op = reader.operation()?;
    if is_one_kind(Kind::of(op), kind) {
        Ok(op)
    } else {
        Err(refused(left))
    }
}

/// The unroll factor.
fn read_unroll(reader: &mut ByteReader<'_>) -> Result<u8, Unread>
    ensures { Reads unroll_at reader.old result reader.new }
{
    let left = reader.left();
    let unroll = reader.byte()?;
    if unroll == 1 || unroll == 2 || unroll == 4 {
        Ok(unroll)
    } else {
        Err(refused(left))
    }
}

fn is_one_kind(a: Kind, b: Kind) -> bool
    ensures { result ≡ same_kind a b }
{
    a as u8 == b as u8
}

#[tactic(auto, unfolding(crate::specs::Private::Bytes::some_format_at))]
fn read_some_format(reader: &mut ByteReader<'_>) -> Result<Format, Unread>
    ensures { Reads some_format_at reader.old result reader.new }
{
    let left = reader.left();
    let shift = reader.byte()?.cast_signed();
    if shift < MIN_SHIFT || MAX_SHIFT < shift {
        return Err(refused(left));
    }
    let mode = reader.mode()?;
    let width = reader.byte_in(1, MOST_BITS)?;
    Ok(Format { shift, mode, width })
}

#[tactic(auto, unfolding(crate::specs::Private::Bytes::no_format_at))]
fn read_no_format(reader: &mut ByteReader<'_>) -> Result<Format, Unread>
    ensures { Reads no_format_at reader.old result reader.new }
{
    reader.byte_in(0, 0)?;
    reader.byte_in(0, 0)?;
    reader.byte_in(0, 0)?;
    Ok(Format {
        shift: 0,
        mode: Mode::Trunc,
        width: 0,
    })
}

fn read_format(op: Op, reader: &mut ByteReader<'_>) -> Result<Format, Unread>
    ensures { Reads (format_at op) reader.old result reader.new }
{
    if is_formatted(op) {
        read_some_format(reader)
    } else {
        read_no_format(reader)
    }
}

#[tactic(auto, unfolding(crate::specs::Private::Bytes::argument_at))]
fn read_argument(
    op: Op,
    inputs: usize,
    outs: usize,
    reader: &mut ByteReader<'_>,
) -> Result<i64, Unread>
    ensures { Reads (argument_at op inputs outs) reader.old result reader.new }
{
    let left = reader.left();
    let argument = reader.signed()?;
    if fits_operation(op, inputs, outs, argument) {
        Ok(argument)
    } else {
        Err(refused(left))
    }
}

/// How many registers a field may name: those of the port's file, or only the first where the port is not read.
fn registers_at(files: &List<List<i64>>, read: usize, port: usize) -> usize
    ensures { result ≡ register_count files.now read port }
{
    if read <= port {
        return 1;
    }
    match files.get(port) {
        Some(file) => file.len(),
        None => 0,
    }
}

/// A register for each port, after those of the ports before.
fn read_register(
    files: &List<List<i64>>,
    read: usize,
    regs: &PortRegisters,
    reader: &mut ByteReader<'_>,
) -> Result<u8, Unread>
    ensures { Reads (register_at files.now read regs.now) reader.old result reader.new }
{
    reader.byte_under(registers_at(files, read, regs.len()))
}

fn read_registers(
    alloc: Global,
    files: &List<List<i64>>,
    read: usize,
    count: usize,
    reader: &mut ByteReader<'_>,
) -> Result<PortRegisters, Unread>
    ensures { Reads (many_at (register_at files.now read) [] count) reader.old result reader.new }
{
    let mut regs = PortRegisters::with_capacity(alloc, count)?;
    for _ in 0..count {
        let reg = read_register(files, read, &regs, reader)?;
        regs.push(reg)?;
    }
    Ok(regs)
}

impl<'a> Fields for ByteReader<'a> {
    ghost use Rattle.std.specs.Prelude.{ℕ, List};
    ghost use Rattle.micro_file.specs.Private.Bytes.{at_bytes};

    ghost form = { at_bytes };

    ghost rest = { λ bytes. bytes };

    #[inline]
    fn left(&self) -> usize {
        ByteReader::left(self)
    }

    fn ram_length(&self) -> usize {
        1
    }

    fn period(&mut self) -> Result<u16, Unread> {
        self.short_in(1, MAX_PERIOD)
    }

    fn unroll(&mut self) -> Result<u8, Unread> {
        read_unroll(self)
    }

    fn channels(&mut self) -> Result<u8, Unread> {
        self.byte_in(1, MAX_CHANNELS)
    }

    fn width(&mut self) -> Result<u8, Unread> {
        self.byte_in(0, MOST_BITS)
    }

    fn units(&mut self) -> Result<u8, Unread> {
        self.byte_in(1, MAX_UNITS)
    }

    fn kind(&mut self) -> Result<Kind, Unread> {
        ByteReader::kind(self)
    }

    fn latency(&mut self) -> Result<u8, Unread> {
        self.byte_in(1, MAX_LATENCY)
    }

    fn gap(&mut self, latency: u8) -> Result<u8, Unread> {
        self.byte_in(1, latency)
    }

    fn registers(&mut self) -> Result<usize, Unread> {
        let size = self.short_in(1, MAX_REGISTERS)?;
        Ok(usize::from(size))
    }

    fn cells(&mut self) -> Result<usize, Unread> {
        let size = self.long_in(1, MAX_CELLS)?;
        Ok(size as usize)
    }

    fn initial(&mut self, alloc: Global, count: usize) -> Result<List<i64>, Unread> {
        self.raw_words(alloc, count)
    }

    fn ram(&mut self) -> Result<u8, Unread> {
        self.byte()
    }

    fn buses(&mut self) -> Result<u8, Unread> {
        self.byte_in(1, MAX_BUSES)
    }

    #[inline]
    fn operation(&mut self, kind: Kind) -> Result<Op, Unread> {
        read_operation(kind, self)
    }

    #[inline]
    fn format(&mut self, op: Op) -> Result<Format, Unread> {
        read_format(op, self)
    }

    #[inline]
    fn argument(&mut self, op: Op, inputs: usize, outs: usize) -> Result<i64, Unread> {
        read_argument(op, inputs, outs, self)
    }

    #[inline]
    fn named(
        &mut self,
        alloc: Global,
        files: &List<List<i64>>,
        read: usize,
    ) -> Result<PortRegisters, Unread> {
        read_registers(alloc, files, read, files.len(), self)
    }
}
