//! The rings that keep the words of nodes for as many samples as they are read.
ghost use Rattle.std.specs.Prelude.{◌≡◌, ◌+◌, ◌%◌, ◌<◌, ◌≤◌};
ghost use Rattle.equation_eval.specs.Private.Masks.{IsMask};

use std::marker::Model;

/// How many samples a phase counts before it begins again at 0: the size of the largest ring.
pub const PERIOD: u32 = 1024;

/// One less than the size of a ring, which is a power of two up to `PERIOD`. Contracts see the number.
#[derive(Clone, Copy)]
pub struct Mask {
    bits: u32,
}

impl Model for Mask {
    ghost use Rattle.std.specs.Prelude.{ℕ};
    ghost use Rattle.equation_eval.specs.Private.Masks.{IsMask};

    ghost Value = { ℕ };

    ghost view = { λ mask. mask.bits };

    ghost invariant = { λ mask. IsMask mask.bits };

    ghost inverse = { λ bits. record { bits = bits } };
}

impl Mask {
    /// The least mask of a ring that keeps the word of `delay` samples ago.
    pub fn above(delay: u32) -> Mask
        requires { delay < PERIOD }
        ensures covers { delay ≤ result }
        ensures size { IsMask result }
    {
        let mut bits = 0;
        while bits < delay {
            bits = 2 * bits + 1;
        }
        Mask { bits }
    }

    pub fn get(self) -> u32
        ensures value { result ≡ self }
        ensures most { result < PERIOD }
    {
        self.bits
    }

    /// A time as a number in the ring.
    #[inline(always)]
    pub fn wrap(self, time: u32) -> u32
        ensures value { result ≡ time % (self + 1) }
        ensures within { result ≤ self }
    {
        time & self.bits
    }
}

/// Where the words of a node are kept, by the time in samples.
#[derive(Clone, Copy)]
pub struct Ring {
    /// The number of the first cell.
    pub base: u32,
    pub mask: Mask,
}

/// What an operand reads: the word of a ring at a time that many samples after the phase.
#[derive(Clone, Copy)]
pub struct Source {
    pub base: u32,
    pub mask: Mask,
    /// A period less the delay.
    pub later: u32,
}
