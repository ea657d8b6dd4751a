//! Copies of lifetimes on the circle of cycles.

ghost use Rattle.std.specs.Prelude.{◌≡◌, ◌*◌, ◌<◌, ◌≤◌, ◌↔◌, IsTrue};
ghost use Rattle.plan_core.specs.Circle.{AreApart};
ghost use Rattle.reg_alloc.specs.Private.Spans.{IsOnCircle};
ghost use Rattle.given_registers.specs.Private.Words.{IsSpanOf, IsInOrder, IsApart, IsPairApart, IsWordApart};

use plan_core::Arc;

/// A copy of a lifetime that has its register.
#[derive(Clone, Copy)]
pub(crate) struct Allotted {
    /// The number of the lifetime.
    pub arc: usize,
    pub copy: u8,
    pub register: u8,
}

/// The cycles in which a register holds a word, counted from the start of the circle: all after one, up to another.
#[derive(Clone, Copy)]
pub(crate) struct Span {
    /// The cycle of the write.
    pub after: u16,
    /// The cycle of the last read, which may be past the end of the circle.
    pub upto: u16,
}

/// The circle of cycles after which a microprogram repeats.
#[derive(Clone, Copy)]
pub(crate) struct Circle {
    /// The cycles of a sample.
    pub period: u16,
    /// How many samples the circle has.
    pub samples: u8,
    ghost period_most: { period ≤ 4096 },
    ghost samples_most: { samples ≤ 4 },
}

impl Circle {
    /// When a register of the lifetime holds the word of this sample.
    fn span(self, arc: Arc, sample: u8) -> Span
        requires arc { IsOnCircle self.period arc }
        requires sample { sample < 4 }
        ensures { IsSpanOf self.period arc sample result }
    {
        let start = u16::from(sample) * self.period;
        Span {
            after: arc.w + start,
            upto: arc.r + start,
        }
    }

    /// Whether the first of two spans ends before the second begins, and the second before the first begins again.
    fn are_in_order(self, first: Span, second: Span) -> bool
        ensures { IsTrue result ↔ IsInOrder (self.samples * self.period) first second }
    {
        let length = u32::from(self.samples) * u32::from(self.period);
        first.upto <= second.after && u32::from(second.upto) <= u32::from(first.after) + length
    }

    /// Whether two spans share no cycle.
    fn are_spans_apart(self, a: Span, b: Span) -> bool
        ensures { IsTrue result ↔ IsApart (self.samples * self.period) a b }
    {
        if a.after <= b.after {
            self.are_in_order(a, b)
        } else {
            self.are_in_order(b, a)
        }
    }

    /// Whether the word of sample m of the one lifetime is never there with that of sample n of the other, if this is
    /// one of copy j.
    fn is_pair_apart(self, a: Arc, m: u8, b: Arc, j: u8, n: u8) -> bool
        requires first { IsOnCircle self.period a }
        requires second { IsOnCircle self.period b }
        requires m { m < 4 }
        requires n { n < 4 }
        ensures { IsTrue result ↔ IsPairApart self.period self.samples a b j m n }
    {
        if n % b.copies != j {
            return true;
        }
        self.are_spans_apart(self.span(a, m), self.span(b, n))
    }

    /// Whether the word of sample m of the one lifetime, if it is one of copy i, is never there with one of copy j of
    /// the other.
    fn is_word_apart(self, a: Arc, i: u8, m: u8, b: Arc, j: u8) -> bool
        requires first { IsOnCircle self.period a }
        requires second { IsOnCircle self.period b }
        requires m { m < 4 }
        ensures { IsTrue result ↔ IsWordApart self.period self.samples a i b j m self.samples }
    {
        if m % a.copies != i {
            return true;
        }
        for n in 0..self.samples {
            if !self.is_pair_apart(a, m, b, j, n) {
                return false;
            }
        }
        true
    }

    /// Whether two copies share no cycle.
    pub(crate) fn are_apart(self, a: Arc, i: u8, b: Arc, j: u8) -> bool
        requires first { IsOnCircle self.period a }
        requires second { IsOnCircle self.period b }
        ensures { IsTrue result ↔ AreApart self.period self.samples a i b j }
    {
        for m in 0..self.samples {
            if !self.is_word_apart(a, i, m, b, j) {
                return false;
            }
        }
        true
    }
}
