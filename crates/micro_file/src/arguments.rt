//! Which arguments operations take.
ghost use Rattle.std.specs.Prelude.{◌≡◌};
ghost use Rattle.micro_file.specs.Private.Arguments.{is_argument};
ghost use Rattle.micro_file.specs.Private.Fields.{is_raw_word, is_below};

use fix_word::{MOST_BITS, Op};

/// How many cells an address can name.
const ADDRESSES: usize = 65536;

/// One more than the greatest raw word; the least is its negative.
const HALF_RANGE: i64 = 1 << (MOST_BITS - 1);

/// Whether a machine word holds the number.
#[inline]
pub(crate) fn is_word(number: i64) -> bool
    ensures { result ≡ is_raw_word number }
{
    -HALF_RANGE <= number && number < HALF_RANGE
}

/// Whether the number is one of the first `limit`.
fn is_among(number: i64, limit: usize) -> bool
    ensures { result ≡ is_below limit number }
{
    0 <= number && (number as u64) < limit as u64
}

/// Whether the operation takes the argument, where there are this many input and output words.
pub(crate) fn fits_operation(op: Op, inputs: usize, outs: usize, argument: i64) -> bool
    ensures { result ≡ is_argument op inputs outs argument }
{
    match op {
        Op::Input => is_among(argument, inputs),
        Op::Output => is_among(argument, outs),
        Op::Const => is_word(argument),
        Op::Addr => is_among(argument, ADDRESSES),
        _ => is_among(argument, 1),
    }
}
