//! The circle of cycles, and when registers hold words on it.

ghost use Rattle.std.specs.Prelude.{◌≡◌, ◌+◌, ◌*◌, ◌<◌, ◌≤◌, ◌↔◌, length, IsTrue};
ghost use Rattle.reg_alloc.specs.Private.Spans.{span_of, AreInOrder, AreSpansApart};

use plan_core::Arc;

/// The most samples of a circle.
pub(crate) const MOST_SAMPLES: usize = 4;

/// The cycles in which a register holds words, counted from the start of the circle: all after one, up to another.
#[derive(Clone, Copy)]
pub(crate) struct Span {
    /// The cycle of the first write.
    pub after: u16,
    /// The cycle of the last read, which may be past the end of the circle.
    pub upto: u16,
}

/// The circle of cycles after which a microprogram repeats.
#[derive(Clone, Copy)]
pub(crate) struct Circle {
    /// The cycles of a sample.
    pub period: u16,
    /// How many samples the circle has.
    pub samples: u8,
    ghost period_most: { period ≤ 4096 },
    ghost samples_most: { samples ≤ 4 },
}

/// For each sample of the circle, the span from the first write of a word of this sample to the last read of one,
/// or none.
#[derive(Clone, Copy)]
pub(crate) struct Occupancy {
    pub spans: [Option<Span>; MOST_SAMPLES],
    ghost full: { length spans ≡ 4 },
}

impl Circle {
    /// When a register of the lifetime holds the word of this sample.
    pub(crate) fn span(self, arc: Arc, sample: u8) -> Span
        requires sample { sample < 4 }
        requires w { arc.w < self.period }
        requires r { arc.r ≤ arc.w + 4 * self.period }
        ensures { result ≡ span_of self.period arc sample }
    {
        let start = u16::from(sample) * self.period;
        Span {
            after: arc.w + start,
            upto: arc.r + start,
        }
    }

    /// Whether the first of two spans ends before the second begins, and the second before the first begins again.
    fn are_in_order(self, first: Span, second: Span) -> bool
        ensures { IsTrue result ↔ AreInOrder (self.samples * self.period) first second }
    {
        let length = u32::from(self.samples) * u32::from(self.period);
        first.upto <= second.after && u32::from(second.upto) <= u32::from(first.after) + length
    }

    /// Whether two spans share no cycle.
    pub(crate) fn are_apart(self, a: Span, b: Span) -> bool
        ensures { IsTrue result ↔ AreSpansApart (self.samples * self.period) a b }
    {
        if a.after <= b.after {
            self.are_in_order(a, b)
        } else {
            self.are_in_order(b, a)
        }
    }
}
