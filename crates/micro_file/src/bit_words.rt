//! The microwords of a file of version 2.
ghost use Rattle.std.specs.Prelude.{◌≡◌, ◌≢◌, ◌-◌, ◌≤◌, ◌^◌, ◌++◌, ℕ, List, [], length, take, replicate, IsTrue, IsFalse};
ghost use Rattle.micro_image.specs.Fields.{nth, no_unit};
ghost use Rattle.micro_file.specs.Private.Fields.{many_at, each_at};
ghost use Rattle.micro_file.specs.Private.PackedWords.{most_takes, slot_at, slots_at, drive_at, taken_at, takes_at};
ghost use Rattle.micro_file.specs.Private.PackedWords.{packed_word_at};
ghost use Rattle.micro_file.specs.Private.WordFlags.{listed_drives_at, listed_takes_at, listed_word_at};
ghost use Rattle.micro_file.specs.Private.Reads.{Reads, Extends};
ghost use Rattle.micro_file.specs.Private.Sizes.{IsNumbered};
ghost use Rattle.micro_file.specs.Private.Zeros.{StartsWithZeros};

use crate::bit_fields::{number, number_under};
use crate::byte_words::empty_word;
use crate::hardware::read_issue_on;
use crate::misread::{Unread, refused};
use crate::order::is_next_take;
use crate::word_flags::{Flags, PortFile, flags_of};
use lists::List;
use micro_bits::widths::{BUS, FLAG, REGISTER};
use micro_bits::{BitReader, idle_bits_of};
use micro_image::{Enable, Enables, Image, Issue, PortRef, Take, Takes, UnitDesc, Word};
use std::alloc::Global;

/// The most takes of a microword.
const MAX_TAKES: usize = 1024;

/// The most bits that are passed at once.
const MAX_PASSED: usize = 57;

/// Passes flags that are 0 and gives how many: of so many, as a rule all those in front of the next that is 1.
#[inline]
fn pass(reader: &mut BitReader<'_>, left: usize) -> usize
    ensures passed { reader.old ≡ replicate result 0 ++ reader.new }
    ensures most { result ≤ left }
{
    reader.zeros(left.min(MAX_PASSED) as u32) as usize
}

/// How many zeros stand in front.
fn zeros_in_front(reader: &BitReader<'_>) -> usize
    ensures { StartsWithZeros result reader.now }
{
    let left = reader.count();
    let mut own = reader.fork();
    let mut zeros = 0;
    while own.passes_zeros(MAX_PASSED as u32) {
        zeros += MAX_PASSED;
    }
    zeros + pass(&mut own, left - zeros)
}

/// Whether so many zeros stand in front, which are then passed. Some are known to stand there; where they are too few,
/// all of them are counted, so that those of many words are counted once.
fn passes_zeros(reader: &mut BitReader<'_>, count: usize, known: &mut usize) -> bool
    requires known { StartsWithZeros known.old reader.old }
    ensures known { StartsWithZeros known.new reader.new }
    ensures passed { IsTrue result → reader.old ≡ replicate count 0 ++ reader.new }
    ensures others { IsFalse result → (known.new ≡ 0) × (reader.new ≡ reader.old) }
{
    if *known < count {
        *known = zeros_in_front(reader);
    }
    if *known < count {
        *known = 0;
        return false;
    }
    reader.skip(count);
    *known -= count;
    true
}

/// A flag, and the unit's issue where it is 1.
#[tactic(auto, unfolding(crate::specs::Private::PackedWords::slot_at))]
fn read_slot(
    alloc: Global,
    image: &Image,
    number_of_unit: u8,
    unit: &UnitDesc,
    issues: &mut List<Issue>,
    reader: &mut BitReader<'_>,
) -> Result<(), Unread>
    requires { unit.now ≡ nth image.now.units number_of_unit no_unit }
    ensures { Extends (slot_at image.now issues.old number_of_unit) reader.old result issues.new reader.new }
{
    if number(reader, FLAG)? == 0 {
        return Ok(());
    }
    let issue = read_issue_on(alloc, image, number_of_unit, unit, reader)?;
    Ok(issues.push(issue)?)
}

/// The issues, unit by unit.
// The three lists are read by functions of their own: inlined into one, they leave each other too few registers, and a
// long chain takes 4 per cent longer.
#[inline(never)]
#[tactic(auto, unfolding(crate::specs::Private::PackedWords::slots_at))]
fn read_slots(
    alloc: Global,
    image: &Image,
    reader: &mut BitReader<'_>,
) -> Result<List<Issue>, Unread>
    requires { IsNumbered image.now }
    ensures { Reads (slots_at image.now) reader.old result reader.new }
{
    let mut issues = List::new(alloc);
    let mut k = 0;
    loop {
        // Most units of most words issue nothing.
        k += pass(reader, image.units.len() - k);
        if k == image.units.len() {
            return Ok(issues);
        }
        read_slot(alloc, image, k as u8, &image.units[k], &mut issues, reader)?;
        k += 1;
    }
}

/// A flag, which is 1 where the bus is driven so.
#[tactic(auto, unfolding(crate::specs::Private::PackedWords::drive_at))]
fn read_drive(
    drive: Enable,
    enables: &mut Enables,
    reader: &mut BitReader<'_>,
) -> Result<(), Unread>
    ensures { Extends (drive_at drive.unit enables.old drive.bus) reader.old result enables.new reader.new }
{
    if number(reader, FLAG)? == 0 {
        return Ok(());
    }
    Ok(enables.push(drive)?)
}

/// The enables, a flag for each of the drives.
#[inline(never)]
fn read_drives(
    alloc: Global,
    drives: &List<Enable>,
    reader: &mut BitReader<'_>,
) -> Result<Enables, Unread>
    ensures { Reads (listed_drives_at drives.now) reader.old result reader.new }
{
    let mut enables = Enables::new(alloc);
    let mut k = 0;
    loop {
        // Most units of most words drive no bus, and the others one.
        k += pass(reader, drives.len() - k);
        if k == drives.len() {
            return Ok(enables);
        }
        read_drive(drives[k], &mut enables, reader)?;
        k += 1;
    }
}

/// The bus and the register of a take at the port, whose file has so many registers, behind a flag where so much
/// was left.
#[tactic(auto, unfolding(crate::specs::Private::PackedWords::taken_at))]
fn read_taken(
    image: &Image,
    port: PortRef,
    size: usize,
    takes: &Takes,
    left: usize,
    reader: &mut BitReader<'_>,
) -> Result<Take, Unread>
    ensures { (flag : List ℕ) → left ≡ length flag
        → Reads (taken_at image.now port size takes.now flag) reader.old result reader.new }
{
    let bus = number_under(reader, BUS, usize::from(image.buses))? as u8;
    let reg = number_under(reader, REGISTER, size)? as u8;
    let take = Take { port, bus, reg };
    if is_next_take(takes, &take) {
        Ok(take)
    } else {
        Err(refused(left))
    }
}

/// The takes into the file at a port, each behind a 1, then a 0.
fn read_port_takes(
    image: &Image,
    port: PortRef,
    size: usize,
    takes: &mut Takes,
    reader: &mut BitReader<'_>,
) -> Result<(), Unread>
    ensures { Extends (takes_at image.now port size (most_takes - length takes.old) takes.old)
        reader.old result takes.new reader.new }
{
    loop {
        let left = reader.count();
        if number(reader, FLAG)? == 0 {
            return Ok(());
        }
        if MAX_TAKES <= takes.len() {
            return Err(refused(left));
        }
        let take = read_taken(image, port, size, takes, left, reader)?;
        takes.push(take)?;
    }
}

/// The takes, file by file.
#[inline(never)]
fn read_takes(
    alloc: Global,
    image: &Image,
    files: &List<PortFile>,
    reader: &mut BitReader<'_>,
) -> Result<Takes, Unread>
    ensures { Reads (listed_takes_at image.now files.now) reader.old result reader.new }
{
    let mut takes = Takes::new(alloc);
    let mut k = 0;
    loop {
        // Into most files of most words nothing is taken.
        k += pass(reader, files.len() - k);
        if k == files.len() {
            return Ok(takes);
        }
        let file = files[k];
        read_port_takes(image, file.port, file.size, &mut takes, reader)?;
        k += 1;
    }
}

#[tactic(auto, unfolding(crate::specs::Private::WordFlags::listed_word_at))]
fn read_word(
    alloc: Global,
    image: &Image,
    flags: &Flags,
    reader: &mut BitReader<'_>,
) -> Result<Word, Unread>
    requires { IsNumbered image.now }
    ensures { Reads (listed_word_at image.now flags.now.drives flags.now.files) reader.old result reader.new }
{
    let issues = read_slots(alloc, image, reader)?;
    let enables = read_drives(alloc, &flags.drives, reader)?;
    let takes = read_takes(alloc, image, &flags.files, reader)?;
    Ok(Word {
        issues,
        enables,
        takes,
    })
}

pub(crate) fn read_words(
    alloc: Global,
    image: &Image,
    count: usize,
    reader: &mut BitReader<'_>,
) -> Result<List<Word>, Unread>
    requires { IsNumbered image.now }
    ensures { Reads (many_at (λ _. packed_word_at image.now) [] count) reader.old result reader.new }
{
    let idle = idle_bits_of(image);
    let flags = flags_of(alloc, image)?;
    let mut words = List::with_capacity(alloc, count)?;
    let mut zeros = 0;
    for _ in 0..count {
        // Many words do nothing.
        if passes_zeros(reader, idle, &mut zeros) {
            words.push(empty_word(alloc))?;
        } else {
            let word = read_word(alloc, image, &flags, reader)?;
            words.push(word)?;
        }
    }
    Ok(words)
}
