//! What the fields of a packed file depend on.
ghost use Rattle.std.specs.Prelude.{◌≡◌};
ghost use Rattle.micro_image.specs.Bits.{are_zeros};

use lists::List;

/// Whether all are 0.
pub fn are_zeros(words: &List<i64>) -> bool
    ensures { result ≡ are_zeros words.now }
{
    words.iter().all(|word| *word == 0)
}
