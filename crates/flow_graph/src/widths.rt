//! The widths of constants.

ghost use Rattle.std.specs.Prelude.{◌↔◌, IsTrue};
ghost use Rattle.fix_word.specs.Words.{IsWord, IsWidth, IsMachineWord};
ghost use Rattle.signal_graph.specs.GraphOf.{IsLeastWidth};

use fix_word::MOST_BITS;

/// Whether the word has so many bits.
fn fits(word: i64, bits: u8) -> bool
    requires { IsWidth bits }
    ensures { IsTrue result ↔ IsWord bits word }
{
    let half = i128::from(1u64 << (bits - 1));
    let word = i128::from(word);
    -half <= word && word < half
}

/// The least width that holds the word.
pub(crate) fn least_width(word: i64) -> u8
    requires { IsMachineWord word }
    ensures { IsLeastWidth word result }
{
    for bits in 1..MOST_BITS {
        if fits(word, bits) {
            return bits;
        }
    }
    MOST_BITS
}
