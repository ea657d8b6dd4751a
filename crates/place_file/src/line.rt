//! Lines of a text, and words of a line.

ghost use Rattle.std.specs.Prelude.{◌≡◌, ◌==◌, ◌≤◌, ℕ, [], ◌∷◌, drop, length, slice_index_or, MatchOption};
ghost use Rattle.std.specs.List.{position_or_len};
ghost use Rattle.place_file.specs.Lines.{parts_of, said_by};
ghost use Rattle.place_file.specs.Private.Words.{words_left, said_of};

pub(crate) const LINE_FEED: u8 = b'\n';

const BLANK: u8 = b' ';

/// The first six words of a line, each empty where the line has fewer.
#[derive(Drop)]
pub(crate) struct Words<'a> {
    pub head: &'a [u8],
    pub node: &'a [u8],
    pub cycle_label: &'a [u8],
    pub cycle: &'a [u8],
    pub unit_label: &'a [u8],
    pub unit: &'a [u8],
}

/// Where the byte first stands in the text, or the length of the text where it does not.
fn index_of(text: &[u8], byte: u8) -> usize
    ensures first { result ≡ position_or_len (λ (b : ℕ). b == byte) text.now }
    ensures within { result ≤ length text.now }
{
    for at in 0..text.len() {
        if text[at] == byte {
            return at;
        }
    }
    text.len()
}

/// The text before the first such byte, and the one behind it, where the text has it.
pub(crate) fn split_part(text: &[u8], byte: u8) -> (&[u8], Option<&[u8]>)
    ensures { MatchOption result.1 (parts_of byte text.now ≡ result.0.now ∷ [])
        (λ rest. parts_of byte text.now ≡ result.0.now ∷ parts_of byte rest.now) }
{
    let (part, behind) = text.split_at(index_of(text, byte));
    match behind.split_first() {
        Some((_, rest)) => (part, Some(rest)),
        None => (part, None),
    }
}

/// The next word of what is left of a line, and what is left behind it.
pub(crate) fn next_word(left: Option<&[u8]>) -> (&[u8], Option<&[u8]>)
    ensures word { result.0.now ≡ slice_index_or (words_left left.entry) 0 [] }
    ensures rest { words_left result.1 ≡ drop 1 (words_left left.entry) }
{
    match left {
        Some(line) => split_part(line, BLANK),
        None => (&[], None),
    }
}

/// The first six words of a line.
pub(crate) fn words_of(line: &[u8]) -> Words<'_>
    ensures { said_of result ≡ said_by line.now }
{
    let (head, left) = next_word(Some(line));
    let (node, left) = next_word(left);
    let (cycle_label, left) = next_word(left);
    let (cycle, left) = next_word(left);
    let (unit_label, left) = next_word(left);
    let (unit, _) = next_word(left);
    Words {
        head,
        node,
        cycle_label,
        cycle,
        unit_label,
        unit,
    }
}
