ghost use Rattle.std.specs.Prelude.{◌≡◌};
ghost use Rattle.fix_word.specs.Words.{overflow_of};

use thiserror::Error;

/// The most bits of a word.
pub const MOST_BITS: u8 = 40;

/// The size of a fixed-point number, Q(w-f).f in two's complement: `w` bits with the sign, of which `f` are fraction
/// bits. A raw word, its raw integer, is m for the value m / 2^f.
#[derive(Clone, Copy, Debug, PartialEq, Eq)]
pub struct Shape {
    pub w: u8,
    pub f: u8,
}

/// How a number is rounded to a whole one, and what becomes of one that a word of its width does not hold.
#[derive(Clone, Copy, Debug, PartialEq, Eq)]
pub enum Mode {
    /// Toward minus infinity, the floor; the word wraps.
    Trunc,
    /// To the nearest, ties up; the word wraps.
    Round,
    /// Toward minus infinity; the word saturates.
    Sat,
    /// To the nearest, ties up; the word saturates.
    RoundSat,
}

impl Mode {
    /// The overflow mode alone, for a result that has nothing to round, as a sum: the word wraps or saturates as in
    /// this mode.
    pub fn overflow(self) -> Mode
        ensures { result ≡ overflow_of self }
    {
        match self {
            Mode::Trunc | Mode::Round => Mode::Trunc,
            Mode::Sat | Mode::RoundSat => Mode::Sat,
        }
    }
}

/// How an exact number is quantised to a word: divided by 2^shift, which multiplies where the shift is negative,
/// rounded to a whole number by the mode, and wrapped or saturated to `width` bits by the mode.
#[derive(Clone, Copy, Debug, PartialEq, Eq)]
pub struct Format {
    pub shift: i8,
    pub mode: Mode,
    pub width: u8,
}

/// A type of fixed-point numbers.
#[derive(Clone, Copy, Debug, PartialEq, Eq)]
pub struct FixType {
    pub shape: Shape,
    pub mode: Mode,
}

/// The type of a signal.
#[derive(Clone, Copy, Debug, PartialEq, Eq)]
pub enum SigType {
    Fix(FixType),
    /// 0 is false, and 1 is true.
    Bool,
}

/// Why a literal is refused.
#[derive(Clone, Copy, Debug, PartialEq, Eq, Error)]
pub enum LitFault {
    /// The raw word is outside the range of the shape.
    #[error("literal out of range")]
    Range,
}
