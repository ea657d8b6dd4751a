//! Sets of numbers below 32.

ghost use Rattle.std.specs.Prelude.{◌≡◌, ◌≢◌, ◌<◌, ◌↔◌, ◌⊎◌, ℕ, IsTrue, MatchOption};
ghost use Rattle.bit_sets.specs.Bits.{Has, IsFirstOf, IsLastOf};
ghost use Rattle.bit_sets.specs.Sets.{none_of_32, all_of_32};

/// A set of numbers below 32: bit k stands for number k.
#[derive(Clone, Copy)]
pub struct Set32 {
    pub bits: u32,
}

impl Set32 {
    pub fn empty() -> Set32
        ensures { result ≡ none_of_32 }
    {
        Set32 { bits: 0 }
    }

    /// The set of all numbers below 32.
    pub fn full() -> Set32
        ensures { result ≡ all_of_32 }
    {
        Set32 { bits: u32::MAX }
    }

    pub fn contains(self, number: u8) -> bool
        requires { number < 32 }
        ensures { IsTrue result ↔ Has self.bits number }
    {
        (self.bits >> number) & 1 == 1
    }

    pub fn with(self, number: u8) -> Set32
        requires { number < 32 }
        ensures { (k : ℕ) → Has result.bits k ↔ (Has self.bits k ⊎ (k ≡ number)) }
    {
        Set32 {
            bits: self.bits | (1 << number),
        }
    }

    pub fn without(self, number: u8) -> Set32
        requires { number < 32 }
        ensures { (k : ℕ) → Has result.bits k ↔ (Has self.bits k × (k ≢ number)) }
    {
        Set32 {
            bits: self.bits & !(1 << number),
        }
    }

    /// Takes the first number out of the set.
    pub fn pop_first(&mut self) -> Option<u8>
        ensures first { MatchOption result ((k : ℕ) → ¬ Has self.old.bits k)
            (λ k. IsFirstOf self.old.bits k self.new.bits) }
        ensures small { MatchOption result (self.new.bits ≡ self.old.bits) (λ k. k < 32) }
    {
        if self.bits == 0 {
            return None;
        }
        let first = self.bits.trailing_zeros();
        self.bits &= !(1 << first);
        Some(first as u8)
    }

    /// Takes the last number out of the set.
    pub fn pop_last(&mut self) -> Option<u8>
        ensures last { MatchOption result ((k : ℕ) → ¬ Has self.old.bits k)
            (λ k. IsLastOf self.old.bits k self.new.bits) }
        ensures small { MatchOption result (self.new.bits ≡ self.old.bits) (λ k. k < 32) }
    {
        if self.bits == 0 {
            return None;
        }
        let last = self.bits.ilog2();
        self.bits &= !(1 << last);
        Some(last as u8)
    }

    pub fn union(self, other: Set32) -> Set32
        ensures { (k : ℕ) → Has result.bits k ↔ (Has self.bits k ⊎ Has other.bits k) }
    {
        Set32 {
            bits: self.bits | other.bits,
        }
    }

    pub fn intersection(self, other: Set32) -> Set32
        ensures { (k : ℕ) → Has result.bits k ↔ (Has self.bits k × Has other.bits k) }
    {
        Set32 {
            bits: self.bits & other.bits,
        }
    }
}
