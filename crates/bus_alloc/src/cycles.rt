//! Sets of cycles of a sample.

ghost use Rattle.std.specs.Prelude.{◌≡◌, ◌≢◌, ◌<◌, ◌≤◌, ◌⊎◌, ◌*◌, ◌/◌, ℕ, length, min, slice_index, IsTrue, ◌↔◌};
ghost use Rattle.plan_core.specs.Stages.{IsGapAround};
ghost use Rattle.bus_alloc.specs.Sets.{mark};

/// A period has at most this many cycles.
pub const MOST_CYCLES: u16 = 4096;
/// How many cycles a word of a set has a bit for.
pub const WORD_CYCLES: u16 = 64;
/// How many words a set has.
const WORDS: usize = 64;

/// A set of cycles of a sample, with a bit for each.
#[derive(Clone, Copy)]
pub struct CycleSet {
    words: [u64; WORDS],
    ghost full: { length words ≡ 64 },
}

impl CycleSet {
    pub fn new() -> CycleSet
        ensures { (cycle : ℕ) → mark result.words cycle ≡ 0 }
    {
        CycleSet { words: [0; WORDS] }
    }

    /// The word with the bits of 64 cycles.
    pub fn word(&self, index: u16) -> u64
        requires { index < 64 }
        ensures { result ≡ slice_index self.now.words index }
    {
        self.words[index as usize]
    }

    /// The first word before the end in which a cycle, this one or a later one, is not in the set, or the end.
    pub fn first_gap(&self, from: u16, end: u16) -> u16
        requires { end ≤ 64 }
        ensures after { min (from / 64) end ≤ result }
        ensures full { (c : ℕ) → from ≤ c → c < 64 * result → mark self.now.words c ≡ 1 }
    {
        let mut passed = (1 << (from % WORD_CYCLES)) - 1;
        for index in from / WORD_CYCLES..end {
            if self.words[index as usize] | passed != u64::MAX {
                return index;
            }
            passed = 0;
        }
        end
    }

    pub fn contains(&self, cycle: u16) -> bool
        requires { cycle < 4096 }
        ensures { IsTrue result ↔ (mark self.now.words cycle ≡ 1) }
    {
        self.words[(cycle / WORD_CYCLES) as usize] & (1 << (cycle % WORD_CYCLES)) != 0
    }

    pub fn insert(&mut self, cycle: u16)
        requires { cycle < 4096 }
        ensures same { mark self.new.words cycle ≡ 1 }
        ensures others { (c : ℕ) → c ≢ cycle → mark self.new.words c ≡ mark self.old.words c }
    {
        self.words[(cycle / WORD_CYCLES) as usize] |= 1 << (cycle % WORD_CYCLES);
    }

    /// Inserts the cycles from the first on, up to the end.
    pub fn insert_all(&mut self, first: u16, end: u16)
        requires order { first ≤ end }
        requires end { end ≤ 4096 }
        ensures inside { (c : ℕ) → first ≤ c → c < end → mark self.new.words c ≡ 1 }
        ensures outside { (c : ℕ) → (c < first) ⊎ (end ≤ c) → mark self.new.words c ≡ mark self.old.words c }
    {
        for cycle in first..end {
            self.insert(cycle);
        }
    }

    /// Inserts the cycles of a period that are less than the gap from this one, on either side around the period.
    pub fn insert_around(&mut self, cycle: u16, gap: u16, period: u16)
        requires period { period ≤ 4096 }
        requires cycle { cycle < period }
        requires gap { gap ≤ period }
        ensures near { (c : ℕ) → c < period → ¬ IsGapAround period gap cycle c → mark self.new.words c ≡ 1 }
        ensures far { (c : ℕ) → c < period → IsGapAround period gap cycle c
            → mark self.new.words c ≡ mark self.old.words c }
    {
        for away in 0..gap {
            self.insert((cycle + away) % period);
            self.insert((cycle + period - away) % period);
        }
    }
}
