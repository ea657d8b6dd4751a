ghost use Rattle.std.specs.Prelude.{◌≡◌, ◌<◌, ◌≤◌, ◌*◌, ◌^◌, pos, unsigned_abs, IfOk, IfErr};
ghost use Rattle.fix_word.specs.Words.{IsShape, IsLiteral, IsOutOfRange};
ghost use Rattle.fix_word.specs.Values.{nearest_of};

use crate::types::{LitFault, Shape};
use crate::words::power_of_two;

fn power_of_ten(k: u8) -> i128
    requires { k ≤ 17 }
    ensures value { result ≡ pos (10 ^ k) }
    ensures most { unsigned_abs result ≤ 10 ^ 17 }
    ensures least { 1 ≤ unsigned_abs result }
{
    10i128.pow(k as u32)
}

/// Twice the digits, with `f` fraction bits.
fn doubled(digits: u64, f: u8) -> i128
    requires digits { digits < 10 ^ 18 }
    requires bits { f ≤ 40 }
    ensures value { result ≡ pos (2 * digits * 2 ^ f) }
    ensures most { unsigned_abs result ≤ 2 ^ 101 }
{
    2 * digits as i128 * power_of_two(f)
}

/// The whole number nearest to ±digits / 10^places * 2^f. A half goes up: floor(x + 1/2) = floor((2x + 1) / 2).
fn nearest(neg: bool, digits: u64, places: u8, f: u8) -> i128
    requires digits { digits < 10 ^ 18 }
    requires places { places ≤ 17 }
    requires bits { f ≤ 40 }
    ensures { result ≡ nearest_of neg digits places f }
{
    let unit = power_of_ten(places);
    let size = doubled(digits, f);
    let exact = if neg { -size } else { size };
    (exact + unit).div_euclid(2 * unit)
}

/// The raw word in the shape `to` of the decimal number digits / 10^places, or of its negative where `neg` is true: the
/// nearest one, a half going up. Page `docs/LANGUAGE.md`, "Rounding and conversion".
///
/// # Errors
///
/// `Range` where the nearest raw word is outside the range of `to.w` bits.
pub fn literal(neg: bool, digits: u64, places: u8, to: Shape) -> Result<i64, LitFault>
    requires digits { digits < 10 ^ 18 }
    requires places { places ≤ 17 }
    requires shape { IsShape to }
    ensures word { IfOk result (IsLiteral neg digits places to) }
    ensures range { IfErr result (λ _. IsOutOfRange neg digits places to) }
    ensures value { IfOk result (λ m. m ≡ nearest_of neg digits places to.f) }
{
    let raw = nearest(neg, digits, places, to.f);
    let bound = power_of_two(to.w - 1);
    if -bound <= raw && raw < bound {
        Ok(raw as i64)
    } else {
        Err(LitFault::Range)
    }
}
