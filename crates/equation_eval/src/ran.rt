//! The rows that were run, which clauses alone see.

ghost use Rattle.std.specs.Prelude.{◌≡◌};

use ghost_lists::Past;

/// The words of a row.
#[inline(always)]
pub fn past_of(row: &[i64]) -> Past<i64>
    ensures { result ≡ row.now }
{
    let mut past = Past::none();
    for word in row {
        past.push(word);
    }
    past
}
