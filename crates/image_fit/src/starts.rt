//! Whether the words that an image starts with are no wider than those of a datapath.

ghost use Rattle.std.specs.Prelude.{◌<◌, length, pos, IsTrue, OnOk};
ghost use Rattle.std.specs.List.{All};
ghost use Rattle.fix_word.specs.Words.{IsWord, IsWidth};
ghost use Rattle.micro_image.specs.Fields.{nth};
ghost use Rattle.image_fit.specs.Fits.{StartsWithin};

use crate::unfit::Unfit;
use fix_word::wrap;
use lists::List;
use micro_image::UnitDesc;

/// Whether a word has so many bits at most.
pub fn is_within(word: i64, bits: u8) -> bool
    requires { IsWidth bits }
    ensures { IsTrue result → IsWord bits word }
{
    wrap(i128::from(word), bits) == word
}

fn is_word_within(words: &List<i64>, at: usize, bits: u8) -> bool
    requires width { IsWidth bits }
    requires there { at < length words.now }
    ensures { IsTrue result → IsWord bits (nth words.now at (pos 0)) }
{
    is_within(words[at], bits)
}

fn are_within(words: &List<i64>, bits: u8) -> bool
    requires { IsWidth bits }
    ensures { IsTrue result → All (IsWord bits) words.now }
{
    for at in 0..words.len() {
        if !is_word_within(words, at, bits) {
            return false;
        }
    }
    true
}

fn files_within(files: &List<List<i64>>, bits: u8) -> bool
    requires { IsWidth bits }
    ensures { IsTrue result → All (All (IsWord bits)) files.now }
{
    for file in files.iter() {
        if !are_within(file, bits) {
            return false;
        }
    }
    true
}

/// Whether a unit starts with words of so many bits at most.
fn starts_within(unit: &UnitDesc, bits: u8) -> bool
    requires { IsWidth bits }
    ensures { IsTrue result → StartsWithin bits unit.now }
{
    files_within(&unit.files, bits) && are_within(&unit.cells, bits)
}

/// Checks what the units start with.
pub fn check_starts(units: &[UnitDesc], bits: u8) -> Result<(), Unfit>
    requires { IsWidth bits }
    ensures { OnOk result (All (StartsWithin bits) units.now) }
{
    for (number, unit) in units.iter().enumerate() {
        if !starts_within(unit, bits) {
            return Err(Unfit::Start { unit: number });
        }
    }
    Ok(())
}
