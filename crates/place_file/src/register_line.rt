//! What a line says of a register.

ghost use Rattle.std.specs.Prelude.{◌≡◌, ◌^◌, ℕ, IfOk, IfErr, MatchOption};
ghost use Rattle.datapath.specs.Allowed.{IsDatapath};
ghost use Rattle.place_file.specs.Given.{IsNumber};
ghost use Rattle.place_file.specs.Registers.{words_by, SaysRegister, IsBadRegisterLine};
ghost use Rattle.place_file.specs.Private.Registers.{words_read, IsReadRegister, IsUnreadRegister};

use crate::entry::{is_word, unit_named};
use crate::fault::{RegisterLineCause, RegistersFault};
use crate::line::next_word;
use crate::number::number;
use datapath::{Datapath, PortRef};
use given_registers::GivenRegister;

/// The first ten words of a line, each empty where the line has fewer.
#[derive(Drop)]
pub(crate) struct RegisterWords<'a> {
    pub head: &'a [u8],
    pub register: &'a [u8],
    pub unit_label: &'a [u8],
    pub unit: &'a [u8],
    pub port_label: &'a [u8],
    pub port: &'a [u8],
    pub node_label: &'a [u8],
    pub node: &'a [u8],
    pub copy_label: &'a [u8],
    pub copy: &'a [u8],
}

/// The first ten words of a line.
fn register_words_of(line: &[u8]) -> RegisterWords<'_>
    ensures { words_read result ≡ words_by line.now }
{
    let (head, left) = next_word(Some(line));
    let (register, left) = next_word(left);
    let (unit_label, left) = next_word(left);
    let (unit, left) = next_word(left);
    let (port_label, left) = next_word(left);
    let (port, left) = next_word(left);
    let (node_label, left) = next_word(left);
    let (node, left) = next_word(left);
    let (copy_label, left) = next_word(left);
    let (copy, _) = next_word(left);
    RegisterWords {
        head,
        register,
        unit_label,
        unit,
        port_label,
        port,
        node_label,
        node,
        copy_label,
        copy,
    }
}

/// A number below 256.
fn small_number(word: &[u8]) -> Option<u8>
    ensures { MatchOption result ((n : ℕ) → IsNumber (2 ^ 8) word.now n → ⊥) (IsNumber (2 ^ 8) word.now) }
{
    u8::try_from(number(word)?).ok()
}

/// The register that the words behind `register` say, and for which copy.
fn register_of(
    words: &RegisterWords,
    datapath: &Datapath,
) -> Result<GivenRegister, RegisterLineCause>
    requires { IsDatapath datapath.now }
    ensures register { IfOk result (SaysRegister datapath.now (words_read words.now)) }
    ensures cause { IfErr result (IsBadRegisterLine datapath.now (words_read words.now)) }
{
    let Some(register) = small_number(words.register) else {
        return Err(RegisterLineCause::Number);
    };
    if !is_word(words.unit_label, b"unit") {
        return Err(RegisterLineCause::Form);
    }
    let Some(unit) = unit_named(datapath, words.unit) else {
        return Err(RegisterLineCause::Unit);
    };
    if !is_word(words.port_label, b"port") {
        return Err(RegisterLineCause::Form);
    }
    let Some(port) = small_number(words.port) else {
        return Err(RegisterLineCause::Number);
    };
    if !is_word(words.node_label, b"node") {
        return Err(RegisterLineCause::Form);
    }
    let Some(node) = number(words.node) else {
        return Err(RegisterLineCause::Number);
    };
    if !is_word(words.copy_label, b"copy") {
        return Err(RegisterLineCause::Form);
    }
    let Some(copy) = small_number(words.copy) else {
        return Err(RegisterLineCause::Number);
    };
    Ok(GivenRegister {
        node,
        port: PortRef { unit, port },
        copy,
        register,
    })
}

/// What a line says, if it begins with `register`. It has this number.
pub(crate) fn given_register_of(
    bytes: &[u8],
    datapath: &Datapath,
    line: u32,
) -> Result<Option<GivenRegister>, RegistersFault>
    requires { IsDatapath datapath.now }
    ensures register { IfOk result (IsReadRegister datapath.now (words_by bytes.now)) }
    ensures fault { IfErr result (IsUnreadRegister datapath.now (words_by bytes.now) line) }
{
    let words = register_words_of(bytes);
    if !is_word(words.head, b"register") {
        return Ok(None);
    }
    match register_of(&words, datapath) {
        Ok(register) => Ok(Some(register)),
        Err(cause) => Err(RegistersFault::Line { line, cause }),
    }
}
