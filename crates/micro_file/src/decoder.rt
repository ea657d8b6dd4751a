//! A microcode file to its image, or the first byte that is wrong.

ghost use Rattle.std.specs.Prelude.{◌≡◌, ◌≢◌, ◌<◌, ◌^◌, ℕ, List, length, IfOk, IfErr, MatchResult};
ghost use Rattle.micro_image.specs.Spells.{bits_of, Spells};
ghost use Rattle.micro_file.specs.declared.fault.FormFault.TheVariants.{Memory};
ghost use Rattle.micro_file.specs.Faults.{placed, IsFormFault};
ghost use Rattle.micro_file.specs.Private.Places.{IsIn};
ghost use Rattle.micro_file.specs.Private.Reads.{Gives, Reads, Passes};
ghost use Rattle.micro_file.specs.Private.File.{head_at, ended, byte_image_at, padding_at, bit_image_at, bytes_of, byte_misread, byte_placed, whole_at};

use crate::byte_reader::ByteReader;
use crate::fault::FormFault;
use crate::hardware::{read_hardware, word_count};
use crate::misread::{Misread, Unread, refused};
use crate::{bit_words, byte_words};
use micro_bits::BitReader;
use micro_image::{Image, Version};
use std::alloc::Global;

/// The bits of a byte.
const BYTE: usize = 8;

/// The magic bytes and the version.
#[tactic(auto, unfolding(crate::specs::Private::File::head_at))]
fn read_version(reader: &mut ByteReader<'_>) -> Result<Version, Unread>
    ensures { Reads head_at reader.old result reader.new }
{
    reader.only(Misread::Magic, b'S')?;
    reader.only(Misread::Magic, b'I')?;
    reader.only(Misread::Magic, b'L')?;
    reader.only(Misread::Magic, b'M')?;
    match reader.byte()? {
        1 => Ok(Version::One),
        2 => Ok(Version::Two),
        _ => Err(Unread::Misread(Misread::Version)),
    }
}

/// The image, if nothing is left behind it.
fn end(image: Image, left: usize) -> Result<Image, Unread>
    ensures { (rest : List ℕ) → left ≡ length rest → Gives result (ended (image, rest)) }
{
    if left == 0 {
        Ok(image)
    } else {
        Err(Unread::Misread(Misread::Trailing { left }))
    }
}

/// An image in bytes, and nothing behind it.
#[tactic(auto, unfolding(crate::specs::Private::File::byte_image_at))]
fn read_bytes(alloc: Global, reader: &mut ByteReader<'_>) -> Result<Image, Unread>
    ensures { Gives result (byte_image_at reader.old) }
{
    let mut image = read_hardware(alloc, reader)?;
    let words = byte_words::read_words(alloc, &image, word_count(&image), reader)?;
    image.words = words;
    end(image, reader.left())
}

/// Passes the bits up to the end of a byte, which are zeros.
fn pass_padding(reader: &mut BitReader<'_>) -> Result<(), Unread>
    ensures { Passes padding_at reader.old result reader.new }
{
    let left = reader.count();
    if reader.passes_zeros((left % BYTE) as u32) {
        Ok(())
    } else {
        Err(refused(left))
    }
}

/// An image in the packed bits of these bytes, and nothing behind them but zeros to the end of the byte.
#[tactic(auto, unfolding(crate::specs::Private::File::bit_image_at))]
fn read_bits(alloc: Global, bytes: &[u8]) -> Result<Image, Unread>
    requires { length bytes.now < 2 ^ 32 }
    ensures { Gives result (bit_image_at (bits_of bytes.now)) }
{
    let mut reader = BitReader::new(bytes);
    let mut image = read_hardware(alloc, &mut reader)?;
    let words = bit_words::read_words(alloc, &image, word_count(&image), &mut reader)?;
    image.words = words;
    pass_padding(&mut reader)?;
    end(image, reader.count())
}

/// How many bytes the bits that are left begin in, if they are the last ones.
fn bytes_of(left: usize) -> usize
    ensures { result ≡ bytes_of left }
{
    left / BYTE + usize::from(left % BYTE != 0)
}

/// What was misread in bits, in bytes.
fn in_bytes(misread: Misread) -> Misread
    ensures { result ≡ byte_misread misread }
{
    match misread {
        Misread::Field { left } => Misread::Field {
            left: bytes_of(left),
        },
        Misread::Trailing { left } => Misread::Trailing {
            left: bytes_of(left),
        },
        other => other,
    }
}

/// An image in the packed bits of these bytes, and what was misread with its place in bytes.
fn read_packed(alloc: Global, bytes: &[u8]) -> Result<Image, Unread>
    requires { length bytes.now < 2 ^ 32 }
    ensures { Gives result (byte_placed (bit_image_at (bits_of bytes.now))) }
{
    match read_bits(alloc, bytes) {
        Ok(image) => Ok(image),
        Err(Unread::Misread(misread)) => Err(Unread::Misread(in_bytes(misread))),
        Err(Unread::Memory) => Err(Unread::Memory),
    }
}

#[tactic(auto, unfolding(crate::specs::Private::File::whole_at))]
fn read_whole(alloc: Global, bytes: &[u8]) -> Result<Image, Unread>
    requires { length bytes.now < 2 ^ 32 }
    ensures { Gives result (whole_at bytes.now) }
{
    let mut reader = ByteReader::new(bytes);
    match read_version(&mut reader)? {
        Version::One => read_bytes(alloc, &mut reader),
        Version::Two => read_packed(alloc, reader.rest()),
    }
}

/// What was misread, with its place in a file of this many bytes.
fn fault_at(misread: Misread, size: usize) -> FormFault
    requires short { size < 2 ^ 32 }
    requires inside { IsIn size misread }
    ensures { result ≡ placed size misread }
{
    match misread {
        Misread::Magic => FormFault::Magic,
        Misread::Version => FormFault::Version,
        Misread::Short => FormFault::Short(size as u32),
        Misread::Field { left } => FormFault::Field((size - left) as u32),
        Misread::Trailing { left } => FormFault::Trailing((size - left) as u32),
    }
}

/// The image that the bytes spell in either version. Where they spell none, the fault is the first in reading order.
/// `Memory` says that no memory was left.
pub fn decode(alloc: Global, bytes: &[u8]) -> Result<Image, FormFault>
    requires { length bytes.now < 2 ^ 32 }
    ensures spelled { IfOk result (λ image. Spells bytes.now image) }
    ensures every_spelling { (image : Image)
        → Spells bytes.now image
        → MatchResult result (λ decoded. decoded ≡ image) (λ fault. fault ≡ Memory) }
    ensures fault { IfErr result (λ fault. fault ≢ Memory → IsFormFault bytes.now fault) }
    ensures every_fault { (first : FormFault)
        → IsFormFault bytes.now first
        → MatchResult result (λ _. ⊥) (λ fault. fault ≢ Memory → fault ≡ first) }
{
    match read_whole(alloc, bytes) {
        Ok(image) => Ok(image),
        Err(Unread::Misread(misread)) => Err(fault_at(misread, bytes.len())),
        Err(Unread::Memory) => Err(FormFault::Memory),
    }
}
