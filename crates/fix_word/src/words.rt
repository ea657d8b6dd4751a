ghost use Rattle.std.specs.Prelude.{◌≡◌, ◌≤◌, ◌^◌, ◌≤ℤ◌, pos, unsigned_abs};
ghost use Rattle.fix_word.specs.Words.{IsWidth, IsWrap, IsForm, IsFormat, IsShape, IsConv};
ghost use Rattle.fix_word.specs.Values.{wrap_of, clip_of, fit_of, scaled_of, form_of, conv_of};

use crate::types::{Format, Mode, Shape};

/// All bits of a word of 64 but its sign.
const LOW_BITS: i128 = i64::MAX as i128;

pub(crate) fn power_of_two(k: u8) -> i128
    requires { k ≤ 63 }
    ensures { result ≡ pos (2 ^ k) }
{
    i128::from(1u64 << k)
}

/// The number that the low `w` bits stand for in two's complement: the highest of them is the sign.
#[inline(always)]
fn sign_extended(bits: i64, w: u8) -> i64
    requires width { IsWidth w }
    ensures { result ≡ wrap_of bits w }
{
    let above = 64 - w;
    (bits << above) >> above
}

/// The raw word of `w` bits that is congruent to `q` modulo 2^w: two's-complement wraparound.
#[inline(always)]
pub fn wrap(q: i128, w: u8) -> i64
    requires width { IsWidth w }
    ensures meaning { IsWrap q w result }
    ensures value { result ≡ wrap_of q w }
{
    sign_extended((q & LOW_BITS) as i64, w)
}

/// The raw word of `w` bits that is nearest to `q`: saturation.
#[inline(always)]
fn clip(q: i128, w: u8) -> i64
    requires width { IsWidth w }
    ensures { result ≡ clip_of q w }
{
    let half = power_of_two(w - 1);
    if q < -half {
        -half as i64
    } else if half - 1 < q {
        (half - 1) as i64
    } else {
        q as i64
    }
}

/// The whole number `q` brought to `w` bits by the mode.
#[inline(always)]
fn fit(q: i128, w: u8, mode: Mode) -> i64
    requires width { IsWidth w }
    ensures { result ≡ fit_of q w mode }
{
    match mode {
        Mode::Trunc | Mode::Round => wrap(q, w),
        Mode::Sat | Mode::RoundSat => clip(q, w),
    }
}

/// `q` divided by 2^steps and rounded to a whole number by the mode.
#[inline(always)]
fn shifted_down(q: i128, steps: u8, mode: Mode) -> i128
    requires number { unsigned_abs q ≤ 2 ^ 80 }
    requires steps { (1 ≤ steps) × (steps ≤ 80) }
    ensures value { result ≡ scaled_of q (pos steps) mode }
    ensures bound { unsigned_abs result ≤ 2 ^ 80 }
{
    match mode {
        Mode::Trunc | Mode::Sat => q >> steps,
        Mode::Round | Mode::RoundSat => ((q >> (steps - 1)) + 1) >> 1,
    }
}

/// `q` divided by 2^shift and rounded to a whole number by the mode.
#[inline(always)]
fn scale(q: i128, fmt: &Format) -> i128
    requires number { unsigned_abs q ≤ 2 ^ 80 }
    requires format { IsFormat fmt.now }
    ensures value { result ≡ scaled_of q fmt.now.shift fmt.now.mode }
    ensures bound { unsigned_abs result ≤ 2 ^ 120 }
{
    if fmt.shift == 0 {
        return q;
    }
    let steps = fmt.shift.unsigned_abs();
    if fmt.shift < 0 {
        q * power_of_two(steps)
    } else {
        shifted_down(q, steps, fmt.mode)
    }
}

/// The raw word of the exact number `q`, quantised to a format.
#[inline(always)]
pub fn form(q: i128, fmt: &Format) -> i64
    requires number { unsigned_abs q ≤ 2 ^ 80 }
    requires format { IsFormat fmt.now }
    ensures meaning { IsForm q fmt.now result }
    ensures value { result ≡ form_of q fmt.now }
{
    fit(scale(q, fmt), fmt.width, fmt.mode)
}

/// The raw word in the shape `to` of the raw word `m` with `f1` fraction bits. The mode says how it is rounded, and
/// whether it wraps or saturates. Page `docs/LANGUAGE.md`, "Rounding and conversion".
pub fn conv(m: i128, f1: i16, to: Shape, mode: Mode) -> i64
    requires number { unsigned_abs m ≤ 2 ^ 80 }
    requires places { (pos 0 ≤ℤ f1) × (f1 ≤ℤ pos 80) }
    requires shape { IsShape to }
    ensures meaning { IsConv m f1 to mode result }
    ensures value { result ≡ conv_of m f1 to mode }
{
    let fmt = Format {
        shift: (f1 - to.f as i16) as i8,
        mode,
        width: to.w,
    };
    form(m, &fmt)
}
