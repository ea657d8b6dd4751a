//! Sizes of arrays and of words.

ghost use Rattle.std.specs.Prelude.{◌≡◌, length, if◌then◌else◌, Some, None};
ghost use Rattle.silage_syntax.specs.Names as name;
ghost use Rattle.name_rules.specs.Meanings as meaning;

use fix_word::{FixType, MOST_BITS, SigType};

/// The most elements of an array, and its greatest dim.
const MOST_ELEMENTS: u32 = 8192;

/// How many elements an array with these dims has, if they are allowed.
pub(crate) fn element_count(dims: &[u32]) -> Option<u32>
    ensures { result ≡ (if meaning.are_dims dims.now then Some (name.element_count dims.now) else None) }
{
    match dims {
        [] => Some(1),
        [dim, rest @ ..] => {
            let count = element_count(rest)?;
            if *dim < 1 || *dim > MOST_ELEMENTS || *dim * count > MOST_ELEMENTS {
                return None;
            }
            Some(*dim * count)
        }
    }
}

pub(crate) fn are_dims(dims: &[u32]) -> bool
    ensures { result ≡ meaning.are_dims dims.now }
{
    element_count(dims).is_some()
}

/// Whether a word has one bit or more, and no more of them after the point.
pub(crate) fn is_fix_type(ty: &FixType) -> bool
    ensures { result ≡ meaning.is_fix_type ty.now }
{
    1 <= ty.shape.w && ty.shape.w <= MOST_BITS && ty.shape.f <= ty.shape.w
}

pub(crate) fn is_signal_type(ty: &SigType) -> bool
    ensures { result ≡ meaning.is_signal_type ty.now }
{
    match ty {
        SigType::Fix(ty) => is_fix_type(ty),
        SigType::Bool => true,
    }
}
