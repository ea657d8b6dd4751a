//! Rows as text.

ghost use Rattle.std.specs.Prelude.{◌≡◌, ◌<◌, ◌≤◌, ◌+◌, ◌*◌, [], ◌∷◌, ◌++◌, length, take, drop};
ghost use Rattle.sample_io.specs.Samples.{printed_row};

use itoa::Buffer;

/// Writes the row of raw words as a line of a sample file, and gives the line's length in bytes.
pub fn put_row(words: &[i64], put: &mut [u8]) -> usize
    requires some { 0 < length words.now }
    requires room { 21 * length words.now + 1 ≤ length put.old }
    ensures line { take result put.new ≡ printed_row words.now }
    ensures size { result ≡ length (printed_row words.now) }
    ensures rest { drop result put.new ≡ drop result put.old }
{
    let mut buffer = Buffer::new();
    let mut end = 0;
    for word in words {
        let text = buffer.format(*word);
        end = put_word(text, put, end);
    }
    put[end - 1] = b'\n';
    end
}

/// Writes the text and a comma from `at` on, and gives the position after them.
fn put_word(text: &str, put: &mut [u8], at: usize) -> usize
    requires { at + length text.now < length put.old }
    ensures end { result ≡ at + length text.now + 1 }
    ensures front { take result put.new ≡ take at put.old ++ text.now ++ 44 ∷ [] }
    ensures rest { drop result put.new ≡ drop result put.old }
{
    let end = at + text.len();
    put[at..end].copy_from_slice(text.as_bytes());
    put[end] = b',';
    end + 1
}
