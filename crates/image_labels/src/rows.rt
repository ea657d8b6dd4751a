//! Whether all output words are put in each sample of a turn.
ghost use Rattle.std.specs.Prelude.{◌≡◌, ◌<◌, ◌≤◌, ◌↔◌, ℕ, length, IsTrue, OnOk, OnErr};
ghost use Rattle.micro_image.specs.Valid.{IsValid};
ghost use Rattle.image_labels.specs.Labels.{word_in as word_of, issued_in as issued};
ghost use Rattle.image_labels.specs.Labelled.{IsRowWord, PutsOn};
ghost use Rattle.image_labels.specs.Private.Checked.{PutsAt, PutsIn, PutsInSample, IsRowPut, AreRowsPut};

use crate::hardware::{issued_in, number_of, word_in};
use crate::mismatch::Mismatch;
use fix_word::Op;
use micro_image::{Image, Word};

/// Whether a unit is issued the output of a word.
fn puts_on(word: &Word, unit: u32, output: u8) -> bool
    ensures { IsTrue result ↔ PutsOn word.now unit output }
{
    match issued_in(word, unit) {
        Some(issue) => match issue.op {
            Op::Output => number_of(issue.arg) == u64::from(output),
            _ => false,
        },
        None => false,
    }
}

/// Whether a unit that is there is issued the output of a word in a cycle.
fn puts_at(image: &Image, cycle: u16, unit: u32, output: u8) -> bool
    requires { cycle < length image.now.words }
    ensures { IsTrue result ↔ PutsAt image.now cycle unit output }
{
    (unit as usize) < image.units.len() && puts_on(word_in(image, cycle), unit, output)
}

/// Whether some unit is issued the output of a word in a cycle.
fn puts_in(image: &Image, cycle: u16, output: u8) -> bool
    requires valid { IsValid image.now }
    requires cycle { cycle < length image.now.words }
    ensures { IsTrue result ↔ PutsIn image.now cycle output }
{
    for unit in 0..32u32 {
        if puts_at(image, cycle, unit, output) {
            return true;
        }
    }
    false
}

/// Whether a cycle is in a sample of a turn, and some unit is issued the output of a word in it.
fn puts_in_sample(image: &Image, cycle: u16, sample: u8, output: u8) -> bool
    requires valid { IsValid image.now }
    requires cycle { cycle < length image.now.words }
    ensures { IsTrue result ↔ PutsInSample image.now cycle sample output }
{
    cycle / image.period == u16::from(sample) && puts_in(image, cycle, output)
}

/// Whether an output word is put in a sample of a turn.
fn is_row_word(image: &Image, turn: u16, sample: u8, output: u8) -> bool
    requires valid { IsValid image.now }
    requires turn { turn ≡ length image.now.words }
    ensures { IsTrue result ↔ IsRowWord image.now sample output }
{
    for cycle in 0..turn {
        if puts_in_sample(image, cycle, sample, output) {
            return true;
        }
    }
    false
}

fn check_row(image: &Image, turn: u16, sample: u8) -> Result<(), Mismatch>
    requires valid { IsValid image.now }
    requires turn { turn ≡ length image.now.words }
    ensures ok { OnOk result (IsRowPut image.now sample image.now.outs) }
    ensures err { OnErr result (IsRowPut image.now sample image.now.outs → ⊥) }
{
    for output in 0..image.outs {
        if !is_row_word(image, turn, sample, output) {
            return Err(Mismatch::Row(sample, output));
        }
    }
    Ok(())
}

/// Checks that all output words are put in each sample of a turn.
pub fn check_rows(image: &Image, turn: u16) -> Result<(), Mismatch>
    requires valid { IsValid image.now }
    requires turn { turn ≡ length image.now.words }
    ensures ok { OnOk result (AreRowsPut image.now image.now.unroll) }
    ensures err { OnErr result (AreRowsPut image.now image.now.unroll → ⊥) }
{
    for sample in 0..image.unroll {
        check_row(image, turn, sample)?;
    }
    Ok(())
}
