//! A reader of bits, the most significant of each byte first.
ghost use Rattle.std.specs.Prelude.{◌≡◌, ◌≢◌, ◌*◌, ◌^◌, ◌<◌, ◌≤◌, ◌++◌, length, take, drop, replicate, IfOk, IfErr, IsTrue, IsFalse};
ghost use Rattle.std.specs.Int.{w64, from_be_bytes};
ghost use Rattle.micro_image.specs.Bits.{bits};
ghost use Rattle.micro_image.specs.Spells.{bits_of};
ghost use Rattle.micro_bits.specs.Numbers.{number_at, Reads};

use crate::fault::BitFault;
use std::marker::Model;

/// The bits of a byte.
const BYTE: usize = 8;

/// The bytes of the window through which bits are read.
const WINDOW: usize = 8;

/// The bits of the window.
const WINDOW_BITS: u32 = 64;

/// The number that has the bits of eight bytes, the first of which is this one; behind the last byte there are zeros.
#[inline]
fn window(bytes: &[u8], from: usize) -> u64
    requires { from ≤ length bytes.now }
    ensures { bits_of (take 8 (drop from bytes.now ++ replicate 8 0)) ≡ bits 64 result }
{
    let (_, rest) = bytes.split_at(from);
    if WINDOW <= rest.len() {
        let (front, _) = rest.split_at(WINDOW);
        u64::from_be_bytes([
            front[0], front[1], front[2], front[3], front[4], front[5], front[6], front[7],
        ])
    } else {
        last_window(rest)
    }
}

/// The number of fewer than eight bytes.
#[inline(never)]
fn last_window(rest: &[u8]) -> u64
    requires { length rest.now < 8 }
    ensures { result ≡ from_be_bytes w64 (take 8 (rest.now ++ replicate 8 0)) }
{
    let mut bytes = [0; WINDOW];
    bytes[..rest.len()].copy_from_slice(rest);
    u64::from_be_bytes(bytes)
}

/// Bits of which the front is read. A contract sees those that are left, each 0 or 1.
#[derive(Drop)]
pub struct BitReader<'a> {
    bytes: &'a [u8],
    /// How many bits are read.
    at: usize,
}

impl<'a> Model for BitReader<'a> {
    ghost use Rattle.std.specs.Prelude.{ℕ, ◌*◌, ◌^◌, ◌<◌, ◌≤◌, List, length, drop};
    ghost use Rattle.micro_image.specs.Spells.{bits_of};

    ghost Value = { List ℕ };

    ghost view = { λ reader. drop reader.at (bits_of reader.bytes.now) };

    ghost invariant = { λ reader. (reader.at ≤ 8 * length reader.bytes.now) × (length reader.bytes.now < 2 ^ 32) };
}

impl<'a> BitReader<'a> {
    pub fn new(bytes: &'a [u8]) -> BitReader<'a>
        requires { length bytes.now < 2 ^ 32 }
        ensures { result ≡ bits_of bytes.now }
    {
        BitReader { bytes, at: 0 }
    }

    /// Another reader of the bits that are left.
    #[inline]
    pub fn fork(&self) -> BitReader<'a>
        ensures { result ≡ self.now }
    {
        BitReader {
            bytes: self.bytes,
            at: self.at,
        }
    }

    /// How many bits are left.
    #[inline]
    pub fn count(&self) -> usize
        ensures count { result ≡ length self.now }
        ensures room { result < 2 ^ 63 }
    {
        BYTE * self.bytes.len() - self.at
    }

    /// The number that has the next bits.
    #[inline]
    fn peek(&self, count: u32) -> u64
        requires few { count ≤ 57 }
        requires there { count ≤ length self.now }
        ensures number { take count self.now ≡ bits count result }
        ensures bound { result < 2 ^ count }
    {
        let window = window(self.bytes, self.at / BYTE) << (self.at % BYTE) as u32;
        // In two steps, since no bit may be asked for.
        (window >> 1) >> (WINDOW_BITS - 1 - count)
    }

    /// A number of so many bits. The window holds 57 wherever they begin: up to 7 bits of its first byte are in front
    /// of them.
    #[inline]
    pub fn number(&mut self, count: u32) -> Result<u64, BitFault>
        requires few { count ≤ 57 }
        ensures reads { Reads (number_at count) self.old result self.new }
        ensures bound { IfOk result (λ number. number < 2 ^ count) }
        ensures short { IfErr result (λ _. self.new ≡ self.old) }
    {
        if self.count() < count as usize {
            return Err(BitFault::Short);
        }
        let number = self.peek(count);
        self.at += count as usize;
        Ok(number)
    }

    /// Passes zeros, at most so many, and returns how many. As a rule they are all that stand in front of the next 1,
    /// and one count of the zeros of the window takes the place of a look at each bit.
    #[inline]
    pub fn zeros(&mut self, most: u32) -> u32
        requires { most ≤ 57 }
        ensures passed { self.old ≡ replicate result 0 ++ self.new }
        ensures most { result ≤ most }
    {
        let window = window(self.bytes, self.at / BYTE) << (self.at % BYTE) as u32;
        // Behind the last bit the window has zeros too.
        let zeros = (window.leading_zeros().min(most) as usize).min(self.count());
        self.at += zeros;
        zeros as u32
    }

    /// Passes so many bits.
    #[inline]
    pub fn skip(&mut self, count: usize)
        requires { count ≤ length self.old }
        ensures { self.new ≡ drop count self.old }
    {
        self.at += count;
    }

    /// Whether so many bits are left and all zeros, which are then read.
    #[inline]
    pub fn passes_zeros(&mut self, count: u32) -> bool
        requires few { count ≤ 57 }
        ensures passed { IsTrue result → self.old ≡ replicate count 0 ++ self.new }
        ensures others { IsFalse result → (take count self.old ≢ replicate count 0) × (self.new ≡ self.old) }
    {
        if self.count() < count as usize {
            return false;
        }
        if self.peek(count) != 0 {
            return false;
        }
        self.at += count as usize;
        true
    }
}
