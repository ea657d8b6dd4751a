//! Lists of words of a row.
ghost use Rattle.std.specs.Prelude.{◌≡◌, ◌≢◌, map, slice_index, true, false, IfSome, MatchOption};
ghost use Rattle.command_words.specs.WordLists.{parts_of, is_place, are_places, is_word_list, places_in, ArePlaces};
ghost use Rattle.silage_lex.specs.Texts.{decimal};

use crate::numbers::number_in;
use arrayvec::ArrayVec;

/// The most words of a row.
const MOST_WORDS: usize = 16;

/// The place of the last of so many.
const LAST_PLACE: u64 = 15;

/// The places of some words of a row, from 0, which rise strictly.
pub type WordList = ArrayVec<u8, MOST_WORDS>;

/// The place of a word that a text spells, which begins with no zero.
fn plain_place(text: &[u8]) -> Option<u8>
    requires { slice_index text.now 0 ≢ 48 }
    ensures { MatchOption result (is_place text.now ≡ false)
        (λ place. (is_place text.now ≡ true) × (place ≡ decimal text.now)) }
{
    Some(number_in(text, LAST_PLACE)? as u8)
}

/// The place of a word that the text spells, with no leading zero.
fn place_in(text: &[u8]) -> Option<u8>
    ensures { MatchOption result (is_place text.now ≡ false)
        (λ place. (is_place text.now ≡ true) × (place ≡ decimal text.now)) }
{
    match text {
        [b'0'] => Some(0),
        [b'0', ..] => None,
        _ => plain_place(text),
    }
}

/// The places in the text, which commas part, where they rise strictly.
fn places_apart(text: &str) -> Option<WordList>
    ensures { MatchOption result (are_places text.now ≡ false)
        (λ list. (are_places text.now ≡ true) × (list.items ≡ map decimal (parts_of text.now))) }
{
    let mut places = WordList::new();
    let mut least = 0;
    for part in text.split(',') {
        let place = place_in(part.as_bytes())?;
        if place < least {
            return None;
        }
        places.push(place);
        least = place + 1;
    }
    Some(places)
}

/// The words whose list the text is.
pub(crate) fn word_list(text: &str) -> Option<WordList>
    ensures is { MatchOption result (is_word_list text.now ≡ false)
        (λ list. (is_word_list text.now ≡ true) × (list.items ≡ places_in text.now)) }
    ensures rise { IfSome result (λ list. ArePlaces list.items) }
{
    if text == "-" {
        Some(WordList::new())
    } else {
        places_apart(text)
    }
}
