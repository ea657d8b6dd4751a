//! Rows of raw words.

ghost use Rattle.std.specs.Prelude.{◌≡◌, ◌+◌, ◌*◌, ◌<◌, ◌≤◌, length, take, drop, slice_index_or, pos};
ghost use Rattle.net_solution.specs.RowLists.{row_in, count_in};

use lists::List;

/// Rows of raw words, one behind the other. Their words are as many as whole rows have.
#[derive(Drop)]
pub struct RowList {
    /// How many words a row has.
    pub width: u8,
    /// Row n has the places from n * width to (n + 1) * width - 1.
    pub words: List<i64>,
}

impl RowList {
    /// How many rows there are.
    pub fn count(&self) -> usize
        requires { 0 < self.now.width }
        ensures { result ≡ count_in self.now }
    {
        self.words.len() / usize::from(self.width)
    }

    /// A row.
    pub fn row(&self, place: usize) -> &[i64]
        requires { (place + 1) * self.now.width ≤ length self.now.words }
        ensures { result.now ≡ row_in self.now place }
    {
        let words = self.words.as_slice();
        let width = usize::from(self.width);
        let from = place * width;
        &words[from..from + width]
    }

    /// A word of a row.
    pub fn word(&self, place: usize, word: u8) -> i64
        requires row { (place + 1) * self.now.width ≤ length self.now.words }
        requires word { word < self.now.width }
        ensures { result ≡ slice_index_or (row_in self.now place) word (pos 0) }
    {
        self.row(place)[usize::from(word)]
    }
}
