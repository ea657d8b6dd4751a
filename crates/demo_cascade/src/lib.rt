//! What `demo` compiles, runs and prints: the source of a cascade of biquad sections, its datapath, its input words and
//! its line.
#![tactic(auto)]

ghost use Rattle.std.specs.Prelude.{◌≡◌, ◌+◌, ◌-◌, ◌<◌, ◌≤◌, ◌^◌, ◌++◌, List, ℤ, decimal, IfOk, OnOk};
ghost use Rattle.std.specs.Fmt.{signed_decimal};
ghost use Rattle.demo_cascade.specs.Cascade as spec;

use itoa::Buffer;
use lists::Bytes;
use std::alloc::{AllocError, Global};

/// The source up to its first number, and its texts between the others.
const SOURCE_HEAD: &[u8] = b"func biquad(x : fix<16,8>) y : fix<16,8> = begin\n\
y = 0.5 * x + 0.25 * x@1 + 0.125 * x@2 - 0.25 * y@1 - 0.125 * y@2;\n\
end;\n\
func main(x : fix<16,8>) y : fix<16,8> = begin\n\
var s[";

const FIRST_SIGNAL: &[u8] = b"] : fix<16,8>;\n\
s[0] = x;\n\
(i : 0 .. ";

const SECTION_CALL: &[u8] = b") :: begin\n\
s[i + 1] = biquad(s[i]);\n\
end;\n\
y = s[";

const SOURCE_END: &[u8] = b"];\n\
end;\n";

/// The datapath behind its period: a unit of each kind, and a bus for each unit that gives words.
const TABLES: &[u8] = b"
word = 16
hold = 0
[[unit]]
name = \"inp\"
kind = \"in\"
[[unit]]
name = \"rom\"
kind = \"rom\"
[[unit]]
name = \"add\"
kind = \"alu\"
files = [256, 256]
[[unit]]
name = \"mul\"
kind = \"mul\"
latency = 2
files = [256, 256]
[[unit]]
name = \"pick\"
kind = \"sel\"
files = [64, 64, 64]
[[unit]]
name = \"mem\"
kind = \"ram\"
files = [256, 256]
cells = 256
[[unit]]
name = \"adr\"
kind = \"acu\"
ram = \"mem\"
[[unit]]
name = \"outp\"
kind = \"out\"
files = [16]
[[bus]]
name = \"b0\"
from = [\"inp\"]
to = [\"add.0\", \"add.1\", \"mul.0\", \"mul.1\", \"pick.0\", \"pick.1\", \"pick.2\", \"mem.1\", \"outp.0\"]
[[bus]]
name = \"b1\"
from = [\"rom\"]
to = [\"add.0\", \"add.1\", \"mul.0\", \"mul.1\", \"pick.0\", \"pick.1\", \"pick.2\", \"mem.1\", \"outp.0\"]
[[bus]]
name = \"b2\"
from = [\"add\"]
to = [\"add.0\", \"add.1\", \"mul.0\", \"mul.1\", \"pick.0\", \"pick.1\", \"pick.2\", \"mem.1\", \"outp.0\"]
[[bus]]
name = \"b3\"
from = [\"mul\"]
to = [\"add.0\", \"add.1\", \"mul.0\", \"mul.1\", \"pick.0\", \"pick.1\", \"pick.2\", \"mem.1\", \"outp.0\"]
[[bus]]
name = \"b4\"
from = [\"pick\"]
to = [\"add.0\", \"add.1\", \"mul.0\", \"mul.1\", \"pick.0\", \"pick.1\", \"pick.2\", \"mem.1\", \"outp.0\"]
[[bus]]
name = \"b5\"
from = [\"mem\"]
to = [\"add.0\", \"add.1\", \"mul.0\", \"mul.1\", \"pick.0\", \"pick.1\", \"pick.2\", \"mem.1\", \"outp.0\"]
[[bus]]
name = \"b6\"
from = [\"adr\"]
to = [\"mem.0\"]
";

/// Adds a text, and a number behind it that may be below 0.
fn put_signed(out: &mut Bytes, text: &[u8], number: i128) -> Result<(), AllocError>
    ensures { OnOk result (out.new ≡ out.old ++ text.now ++ signed_decimal number) }
{
    out.extend_from_slice(text)?;
    out.extend_from_slice(Buffer::new().format(number).as_bytes())
}

/// Adds a text, and a number behind it.
fn put_number(out: &mut Bytes, text: &[u8], number: u64) -> Result<(), AllocError>
    ensures { OnOk result (out.new ≡ out.old ++ text.now ++ decimal number) }
{
    put_signed(out, text, i128::from(number))
}

/// The source of a cascade.
#[tactic(auto, unfolding(crate::specs::Cascade::cascade_source))]
pub fn cascade_source(alloc: Global, sections: u64) -> Result<Bytes, AllocError>
    requires { (1 ≤ sections) × (sections ≤ 32) }
    ensures { IfOk result (λ text. text ≡ spec.cascade_source sections) }
{
    let mut text = Bytes::new(alloc);
    put_number(&mut text, SOURCE_HEAD, sections + 1)?;
    put_number(&mut text, FIRST_SIGNAL, sections - 1)?;
    put_number(&mut text, SECTION_CALL, sections)?;
    text.extend_from_slice(SOURCE_END)?;
    Ok(text)
}

/// The cycles of a sample.
fn cascade_period(sections: u64) -> u64
    requires { sections ≤ 32 }
    ensures { result ≡ spec.cascade_period sections }
{
    32 * sections + 32
}

/// The datapath of a cascade.
#[tactic(auto, unfolding(crate::specs::Cascade::cascade_datapath))]
pub fn cascade_datapath(alloc: Global, sections: u64) -> Result<Bytes, AllocError>
    requires { sections ≤ 32 }
    ensures { IfOk result (λ text. text ≡ spec.cascade_datapath sections) }
{
    let mut text = Bytes::new(alloc);
    put_number(&mut text, b"period = ", cascade_period(sections))?;
    text.extend_from_slice(TABLES)?;
    Ok(text)
}

/// The input word of sample n.
pub fn cascade_word(n: u64) -> i64
    requires { n < 2 ^ 32 }
    ensures { result ≡ spec.cascade_word n }
{
    ((37 * n) % 256) as i64 - 128
}

/// What the output words of a cascade come to.
#[derive(Clone, Copy)]
pub struct Totals {
    pub sum: i128,
    /// The last word.
    pub last: i64,
}

/// The line that is printed.
#[tactic(auto, unfolding(crate::specs::Cascade::cascade_line))]
pub fn cascade_line(
    alloc: Global,
    sections: u64,
    samples: u64,
    totals: &Totals,
) -> Result<Bytes, AllocError>
    requires { sections ≤ 32 }
    ensures { (words : List ℤ) → totals.now.sum ≡ spec.sum_of words → totals.now.last ≡ spec.last_of words
        → IfOk result (λ text. text ≡ spec.cascade_line sections samples words) }
{
    let mut text = Bytes::new(alloc);
    put_number(&mut text, b"sections ", sections)?;
    put_number(&mut text, b" samples ", samples)?;
    put_number(&mut text, b" period ", cascade_period(sections))?;
    put_signed(&mut text, b" sum ", totals.sum)?;
    put_signed(&mut text, b" last ", i128::from(totals.last))?;
    text.extend_from_slice(b"\n")?;
    Ok(text)
}
