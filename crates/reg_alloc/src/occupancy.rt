//! When registers hold words.

ghost use Rattle.std.specs.Prelude.{◌≡◌, ◌+◌, ◌*◌, ◌<◌, ◌≤◌, ◌↔◌, ℕ, None, length, IsTrue, Option, Some};
ghost use Rattle.reg_alloc.specs.Private.Spans.{joined as joined_of, IsOnCircle};
ghost use Rattle.reg_alloc.specs.Private.Occupancies.{span_at, IsOfCopy, IsClear, IsFree, IsJoined};

use crate::circle::{Circle, MOST_SAMPLES, Occupancy, Span};
use plan_core::Arc;

/// The span from the start of the first span to the end of the second.
fn joined(first: Option<Span>, second: Option<Span>) -> Option<Span>
    ensures { result ≡ joined_of first second }
{
    match (first, second) {
        (Some(first), Some(second)) => Some(Span {
            after: first.after,
            upto: second.upto,
        }),
        (first, None) => first,
        (None, second) => second,
    }
}

impl Occupancy {
    /// That of a register that holds nothing.
    pub(crate) fn none() -> Occupancy
        ensures { (sample : ℕ) → span_at result sample ≡ None }
    {
        Occupancy {
            spans: [None; MOST_SAMPLES],
        }
    }

    /// That of a register of one copy of the lifetime.
    pub(crate) fn of_copy(circle: Circle, arc: Arc, copy: u8) -> Occupancy
        requires { IsOnCircle circle.period arc }
        ensures { IsOfCopy circle.period circle.samples arc copy result }
    {
        let mut spans = [None; MOST_SAMPLES];
        for sample in 0..circle.samples {
            if sample % arc.copies == copy {
                spans[usize::from(sample)] = Some(circle.span(arc, sample));
            }
        }
        Occupancy { spans }
    }

    /// Whether the register holds nothing in the span.
    fn is_clear(&self, circle: Circle, span: Span) -> bool
        ensures { IsTrue result ↔ IsClear circle.period circle.samples self.now span }
    {
        for sample in 0..circle.samples {
            if let Some(taken) = self.spans[usize::from(sample)] {
                if !circle.are_apart(taken, span) {
                    return false;
                }
            }
        }
        true
    }

    /// Whether the register holds nothing when another one does.
    pub(crate) fn is_free(&self, circle: Circle, other: &Occupancy) -> bool
        ensures { IsTrue result ↔ IsFree circle.period circle.samples self.now other.now }
    {
        for sample in 0..circle.samples {
            if let Some(span) = other.spans[usize::from(sample)] {
                if !self.is_clear(circle, span) {
                    return false;
                }
            }
        }
        true
    }

    /// Puts the words of the other register into this one. In each sample they come after those that are there.
    pub(crate) fn join(&mut self, other: &Occupancy)
        ensures { IsJoined self.old other.now self.new }
    {
        for sample in 0..MOST_SAMPLES {
            self.spans[sample] = joined(self.spans[sample], other.spans[sample]);
        }
    }
}
