//! Sets of numbers below 128.

ghost use Rattle.std.specs.Prelude.{◌≡◌, ◌<◌, ◌↔◌, ◌⊎◌, ℕ, MatchOption};
ghost use Rattle.bit_sets.specs.Bits.{Has, IsFirstOf};
ghost use Rattle.bit_sets.specs.Sets.{none_of_128};

/// A set of numbers below 128: bit k stands for number k.
#[derive(Clone, Copy)]
pub struct Set128 {
    pub bits: u128,
}

impl Set128 {
    pub fn empty() -> Set128
        ensures { result ≡ none_of_128 }
    {
        Set128 { bits: 0 }
    }

    pub fn with(self, number: u8) -> Set128
        requires { number < 128 }
        ensures { (k : ℕ) → Has result.bits k ↔ (Has self.bits k ⊎ (k ≡ number)) }
    {
        Set128 {
            bits: self.bits | (1 << number),
        }
    }

    /// Takes the first number out of the set.
    pub fn pop_first(&mut self) -> Option<u8>
        ensures first { MatchOption result ((k : ℕ) → ¬ Has self.old.bits k)
            (λ k. IsFirstOf self.old.bits k self.new.bits) }
        ensures small { MatchOption result (self.new.bits ≡ self.old.bits) (λ k. k < 128) }
    {
        if self.bits == 0 {
            return None;
        }
        let first = self.bits.trailing_zeros();
        self.bits &= !(1 << first);
        Some(first as u8)
    }
}
