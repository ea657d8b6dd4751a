//! The wires to a processor: where its input words come from.

ghost use Rattle.std.specs.Prelude.{◌≡◌, ◌<◌, ◌≤◌, IfOk};
ghost use Rattle.std.specs.Option.{ok_or};
ghost use Rattle.toml.specs.View.{view, table_view, array_view};
ghost use Rattle.toml_rows.specs.Reading.{Gives, key};
ghost use Rattle.toml_rows.specs.Values.{entries, array_within};
ghost use Rattle.toml_rows.specs.declared.misfit.Misfit.TheVariants as misfit;
ghost use Rattle.net_core.specs.declared.fault.NetFault.TheVariants.{Memory};
ghost use Rattle.net_core.specs.declared.fault.NetSection.TheVariants as section;
ghost use Rattle.net_file.specs.Spelling.{wire_spelled};
ghost use Rattle.net_file.specs.Table as row;
ghost use Rattle.net_file.specs.NetRules.{in_table};
ghost use Rattle.net_file.specs.Private.Spelled.{digit, teen, number, is_input, is_from, spelled, is_wire};

use crate::keys::settle;
use lists::List;
use net_core::{NetFault, NetSection, Wire};
use std::alloc::{AllocError, Global};
use toml::value::Array;
use toml::{Table, Value};
use toml_rows::{Misfit, member};

/// How many wires lead to a processor at most.
const MOST_WIRES: usize = 16;

fn digit(byte: u8) -> Option<u8>
    ensures { result ≡ digit byte }
{
    match byte {
        b'0'..=b'9' => Some(byte - b'0'),
        _ => None,
    }
}

fn teen(tens: u8, ones: u8) -> Option<u8>
    ensures { result ≡ teen tens ones }
{
    match (tens, ones) {
        (b'1', b'0'..=b'5') => Some(10 + (ones - b'0')),
        _ => None,
    }
}

/// The number of a text in decimal without leading zeros, below 16.
#[tactic(auto, unfolding(crate::specs::Private::Spelled::number))]
fn number(text: &[u8]) -> Option<u8>
    ensures { result ≡ number text.now }
{
    match text.len() {
        1 => digit(text[0]),
        2 => teen(text[0], text[1]),
        _ => None,
    }
}

fn is_input(text: &[u8]) -> bool
    ensures { result ≡ is_input text.now }
{
    text.len() >= 3 && text[0] == b'i' && text[1] == b'n' && text[2] == b'.'
}

fn is_from(text: &[u8]) -> bool
    ensures { result ≡ is_from text.now }
{
    text.len() >= 2 && text[1] == b'.'
}

/// The wire that is written so.
#[tactic(auto, unfolding(crate::specs::Private::Spelled::spelled))]
fn spelled(text: &[u8]) -> Option<Wire>
    ensures { result ≡ spelled text.now }
{
    if is_input(text) {
        let word = number(&text[3..])?;
        return Some(Wire::Input(word));
    }
    if !is_from(text) {
        return None;
    }
    let proc = digit(text[0])?;
    let word = number(&text[2..])?;
    Some(Wire::From { proc, word })
}

/// Whether the wire may lead to the processor.
fn is_wire(inputs: u8, own: u8, wire: Wire) -> bool
    ensures { result ≡ is_wire inputs own wire }
{
    match wire {
        Wire::Input(word) => word < inputs,
        Wire::From { proc, .. } => proc < own,
    }
}

fn wire_of(inputs: u8, own: u8, text: &str) -> Result<Wire, Misfit>
    requires inputs { inputs ≤ 16 }
    requires own { own < 8 }
    ensures { result ≡ ok_or (wire_spelled inputs own text.now) misfit.Range }
{
    match spelled(text.as_bytes()) {
        Some(wire) if is_wire(inputs, own, wire) => Ok(wire),
        _ => Err(Misfit::Range),
    }
}

fn as_wire(inputs: u8, own: u8, value: &Value) -> Result<Wire, Misfit>
    requires inputs { inputs ≤ 16 }
    requires own { own < 8 }
    ensures { result ≡ row.wire inputs own (view value.now) }
{
    match value.as_str() {
        Some(text) => wire_of(inputs, own, text),
        None => Err(Misfit::WrongKind),
    }
}

/// A list of wires, or why a value is no such list.
type Judged = Result<Result<List<Wire>, Misfit>, AllocError>;

fn wires(alloc: Global, inputs: u8, own: u8, array: &Array) -> Judged
    requires inputs { inputs ≤ 16 }
    requires own { own < 8 }
    ensures { IfOk result (λ r. r ≡ entries (row.wire inputs own) (array_view array.now)) }
{
    let mut wires = List::with_capacity(alloc, array.len())?;
    let mut in_range = true;
    for value in array.iter() {
        match as_wire(inputs, own, value) {
            Ok(wire) => wires.push(wire)?,
            Err(Misfit::Range) => in_range = false,
            Err(Misfit::WrongKind) => return Ok(Err(Misfit::WrongKind)),
        }
    }
    if in_range {
        Ok(Ok(wires))
    } else {
        Ok(Err(Misfit::Range))
    }
}

fn feed_of(alloc: Global, inputs: u8, own: u8, value: &Value) -> Judged
    requires inputs { inputs ≤ 16 }
    requires own { own < 8 }
    ensures { IfOk result (λ r. r ≡ array_within 1 16 (row.wire inputs own) (view value.now)) }
{
    let Some(array) = value.as_array() else {
        return Ok(Err(Misfit::WrongKind));
    };
    match wires(alloc, inputs, own, array)? {
        Ok(wires) if 1 <= wires.len() && wires.len() <= MOST_WIRES => Ok(Ok(wires)),
        Ok(_) => Ok(Err(Misfit::Range)),
        Err(misfit) => Ok(Err(misfit)),
    }
}

/// Where the input words of a processor come from.
#[tactic(auto, unfolding(toml_rows::specs::Reading::key))]
pub(crate) fn feed_key(
    alloc: Global,
    inputs: u8,
    own: u8,
    table: &Table,
) -> Result<List<Wire>, NetFault>
    requires inputs { inputs ≤ 16 }
    requires own { own < 8 }
    ensures { Gives Memory result (key (in_table (section.Proc own)) (table_view table.now) (row.feed inputs own)) }
{
    let section = NetSection::Proc(own);
    match member(table, "feed") {
        Some(value) => settle(section, feed_of(alloc, inputs, own, value)?),
        None => Err(NetFault::Missing(section)),
    }
}
