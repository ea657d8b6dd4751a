//! The words of a guarded image: those of its first cycles, in which some samples have not begun, and whole words.
ghost use Rattle.std.specs.Prelude.{◌≡◌, ◌≤◌, map, IfOk};
ghost use Rattle.micro_image.specs.Valid.{IsValid};
ghost use Rattle.overlap_sim.specs.Guarded.{unguarded, unguarded_word};
ghost use Rattle.overlap_sim.specs.Private.Stages.{AreUpTo, IsUpTo, AllUpTo, IsPrologue};

use crate::fault::GuardFault;
use crate::guarded::{Guarded, GuardedWord, Staged};
use crate::obeyed::obeyed;
use lists::List;
use micro_image::Word;
use std::alloc::Global;

/// The latest stage of the parts, or one that is later.
fn last_of<T>(parts: &List<Staged<T>>, least: u8) -> u8
    ensures up_to { AreUpTo result parts.now }
    ensures least { least ≤ result }
{
    let mut last = least;
    for staged in parts.iter() {
        if last < staged.stage {
            last = staged.stage;
        }
    }
    last
}

/// The latest stage of a word, or one that is later.
fn last_in(word: &GuardedWord, least: u8) -> u8
    ensures up_to { IsUpTo result word.now }
    ensures least { least ≤ result }
{
    last_of(
        &word.takes,
        last_of(&word.enables, last_of(&word.issues, least)),
    )
}

/// The latest stage of the words.
pub(crate) fn last_stage(words: &List<GuardedWord>) -> u8
    ensures { AllUpTo result words.now }
{
    let mut last = 0;
    for word in words.iter() {
        last = last_in(word, last);
    }
    last
}

/// The words of the cycles before the sample in which the latest stage begins.
pub(crate) fn prologue(alloc: Global, guarded: &Guarded, last: u8) -> Result<List<Word>, GuardFault>
    requires valid { IsValid (unguarded guarded.now) }
    requires last { AllUpTo last guarded.now.words }
    ensures { IfOk result (IsPrologue guarded.now) }
{
    let period = usize::from(guarded.period);
    let round = guarded.words.len();
    let mut words = List::new(alloc);
    for cycle in 0..usize::from(last) * period {
        words.push(obeyed(alloc, cycle / period, &guarded.words[cycle % round])?)?;
    }
    Ok(words)
}

/// The words without the stages.
pub(crate) fn whole_words(
    alloc: Global,
    words: &List<GuardedWord>,
    last: u8,
) -> Result<List<Word>, GuardFault>
    requires { AllUpTo last words.now }
    ensures { IfOk result (λ whole_words. whole_words ≡ map unguarded_word words.now) }
{
    let mut whole = List::with_capacity(alloc, words.len())?;
    for word in words.iter() {
        whole.push(obeyed(alloc, usize::from(last), word)?)?;
    }
    Ok(whole)
}
