//! Initial values by rising sample.

ghost use Rattle.std.specs.Prelude.{◌≡◌, ◌≤◌, ◌++◌, ℕ, ℤ, take, drop, length, slice_get, Some, IfOk};
ghost use Rattle.loop_expand.specs.Private.Elements.{inserted};

use lists::List;
use std::alloc::{AllocError, AllocFailed};

/// How many of the initial values come before one for this sample.
fn place_of(inits: &[(u16, i64)], sample: u16) -> usize
    ensures within { result ≤ length inits.now }
    ensures before { (word : ℤ) → inserted sample word inits.now
        ≡ take result inits.now ++ inserted sample word (drop result inits.now) }
    ensures at { (x : ℕ × ℤ) → slice_get inits.now result ≡ Some x → sample ≤ x.0 }
{
    for k in 0..inits.len() {
        if inits[k].0 >= sample {
            return k;
        }
    }
    inits.len()
}

/// Puts an initial value among others. The first that there is for a sample stays.
pub(crate) fn insert(
    inits: List<(u16, i64)>,
    sample: u16,
    word: i64,
) -> Result<List<(u16, i64)>, AllocError>
    ensures { IfOk result (λ more. more ≡ inserted sample word inits) }
{
    let mut inits = inits.into_vec();
    let place = place_of(&inits, sample);
    if place < inits.len() && inits[place].0 == sample {
        return Ok(List::from_vec(inits));
    }
    inits.insert(place, (sample, word))?;
    Ok(List::from_vec(inits))
}
