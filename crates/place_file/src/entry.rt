//! What a line says.

ghost use Rattle.std.specs.Prelude.{◌≡◌, ◌^◌, ◌↔◌, ℕ, IsTrue, IfOk, IfErr, MatchOption};
ghost use Rattle.datapath.specs.Allowed.{IsDatapath};
ghost use Rattle.place_file.specs.Lines.{said_by};
ghost use Rattle.place_file.specs.Given.{IsNumber, IsUnitNamed};
ghost use Rattle.place_file.specs.Faults.{HasNode, IsBadLine};
ghost use Rattle.place_file.specs.Private.Words.{said_of, IsSaidPlace, IsReadAs, IsUnread};

use crate::fault::{GivenFault, LineCause};
use crate::line::{Words, words_of};
use crate::number::number;
use datapath::Datapath;
use placed_plan::Place;

/// The place of a node, and the line that says it, from 1.
#[derive(Debug, Clone, Copy)]
pub(crate) struct Entry {
    pub node: u32,
    pub place: Place,
    pub line: u32,
}

/// The number of the unit of that name.
pub(crate) fn unit_named(datapath: &Datapath, name: &[u8]) -> Option<u8>
    requires { IsDatapath datapath.now }
    ensures { MatchOption result ((u : ℕ) → IsUnitNamed datapath.now name.now u → ⊥)
        (IsUnitNamed datapath.now name.now) }
{
    for number in 0..datapath.units.len() {
        if datapath.units[number].name.as_slice() == name {
            return Some(number as u8);
        }
    }
    None
}

/// The number of a cycle.
fn cycle_number(word: &[u8]) -> Option<u16>
    ensures { MatchOption result ((n : ℕ) → IsNumber (2 ^ 16) word.now n → ⊥) (IsNumber (2 ^ 16) word.now) }
{
    u16::try_from(number(word)?).ok()
}

/// Whether these are the same bytes.
pub(crate) fn is_word(word: &[u8], expected: &[u8]) -> bool
    ensures { IsTrue result ↔ (word.now ≡ expected.now) }
{
    word == expected
}

/// The place that the words behind a node's number say.
fn place_of(words: &Words, datapath: &Datapath) -> Result<Place, LineCause>
    requires datapath { IsDatapath datapath.now }
    requires node { HasNode (said_of words.now) }
    ensures place { IfOk result (IsSaidPlace datapath.now (said_of words.now)) }
    ensures cause { IfErr result (IsBadLine datapath.now (said_of words.now)) }
{
    if !is_word(words.cycle_label, b"cycle") {
        return Err(LineCause::Form);
    }
    let Some(cycle) = cycle_number(words.cycle) else {
        return Err(LineCause::Number);
    };
    if !is_word(words.unit_label, b"unit") {
        return Err(LineCause::Form);
    }
    match unit_named(datapath, words.unit) {
        Some(unit) => Ok(Place { unit, cycle }),
        None => Err(LineCause::Unit),
    }
}

/// What a line says, if it begins with `node`. It has this number.
pub(crate) fn entry_of(
    bytes: &[u8],
    datapath: &Datapath,
    line: u32,
) -> Result<Option<Entry>, GivenFault>
    requires datapath { IsDatapath datapath.now }
    ensures entry { IfOk result (IsReadAs datapath.now (said_by bytes.now) line) }
    ensures fault { IfErr result (IsUnread datapath.now (said_by bytes.now) line) }
{
    let words = words_of(bytes);
    if !is_word(words.head, b"node") {
        return Ok(None);
    }
    let Some(node) = number(words.node) else {
        return Err(GivenFault::Line {
            line,
            cause: LineCause::Number,
        });
    };
    match place_of(&words, datapath) {
        Ok(place) => Ok(Some(Entry { node, place, line })),
        Err(cause) => Err(GivenFault::Line { line, cause }),
    }
}
