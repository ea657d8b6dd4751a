//! A writer of bits, the most significant of each byte first.
ghost use Rattle.std.specs.Prelude.{◌≡◌, ℕ, ◌<◌, ◌≤◌, ◌++◌, OnOk, IfOk};
ghost use Rattle.std.specs.Int.{w64, to_be_bytes};
ghost use Rattle.micro_image.specs.Bits.{bits};
ghost use Rattle.micro_image.specs.Spells.{bits_of};
ghost use Rattle.micro_bits.specs.Private.Writes.{Padded};

use lists::Bytes;
use std::alloc::AllocError;
use std::marker::Model;

/// The bits of the word that is filled.
const WORD: u32 = 64;

/// The bits of a byte.
const BYTE: u32 = 8;

/// Bytes that grow by bits. A contract sees all bits.
#[derive(Drop)]
pub(crate) struct BitWriter {
    bytes: Bytes,
    /// The bits behind the bytes are its lowest ones.
    word: u64,
    /// How many they are.
    count: u32,
}

impl Model for BitWriter {
    ghost use Rattle.std.specs.Prelude.{ℕ, ◌<◌, ◌++◌, List};
    ghost use Rattle.micro_image.specs.Bits.{bits};
    ghost use Rattle.micro_image.specs.Spells.{bits_of};

    ghost Value = { List ℕ };

    ghost view = { λ writer. bits_of writer.bytes ++ bits writer.count writer.word };

    ghost invariant = { λ writer. writer.count < 64 };
}

impl BitWriter {
    /// Goes on behind these bytes.
    pub(crate) fn new(bytes: Bytes) -> BitWriter
        ensures { result ≡ bits_of bytes }
    {
        BitWriter {
            bytes,
            word: 0,
            count: 0,
        }
    }

    /// Puts the lowest bits of the number.
    #[inline]
    pub(crate) fn put(&mut self, count: u32, number: u64) -> Result<(), AllocError>
        requires few { count ≤ 57 }
        ensures { OnOk result (self.new ≡ self.old ++ bits count number) }
    {
        let lowest = number % (1 << count);
        let free = WORD - self.count;
        if count < free {
            self.word = (self.word << count).wrapping_add(lowest);
            self.count += count;
            return Ok(());
        }
        let rest = count - free;
        let full = (self.word << free).wrapping_add(lowest >> rest);
        put_full(&mut self.bytes, full)?;
        self.word = lowest;
        self.count = rest;
        Ok(())
    }

    /// All bytes, the last one filled with zeros.
    pub(crate) fn finish(mut self) -> Result<Bytes, AllocError>
        ensures { IfOk result (λ bytes. Padded self bytes) }
    {
        if self.count == 0 {
            return Ok(self.bytes);
        }
        let last = (self.word << (WORD - self.count)).to_be_bytes();
        let count = (self.count + BYTE - 1) / BYTE;
        self.bytes.extend_from_slice(&last[..count as usize])?;
        Ok(self.bytes)
    }
}

/// Puts a full word behind the bytes. It stands alone so that `put`, which mostly finds room, is small enough to
/// be inlined.
#[inline(never)]
fn put_full(bytes: &mut Bytes, full: u64) -> Result<(), AllocError>
    ensures { OnOk result (bytes.new ≡ bytes.old ++ to_be_bytes w64 full) }
{
    bytes.extend_from_slice(&full.to_be_bytes())
}
