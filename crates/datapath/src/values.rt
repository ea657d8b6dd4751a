//! A value of the file: a whole number, a name, a kind of unit.

ghost use Rattle.std.specs.Prelude.{◌≡◌, ◌≤◌, IfOk};
ghost use Rattle.std.specs.List.{list_all};
ghost use Rattle.toml.specs.View.{view, table_view};
ghost use Rattle.datapath.specs.Table as row;
ghost use Rattle.datapath.specs.Values.{whole, is_name_byte, is_name, name as a_name, kind as a_kind, kind_called};
ghost use Rattle.datapath.specs.Reading.{Gives, judged, key};

use crate::fault::{Misfit, PathFault, Section};
use crate::keys::{member, settle};
use lists::Name;
use operations::Kind;
use std::alloc::Global;
use toml::{Table, Value};

pub(crate) fn as_whole(value: &Value, least: u32, most: u32) -> Result<u32, Misfit>
    ensures value { result ≡ whole least most (view value.now) }
    ensures bound { IfOk result (λ n. (least ≤ n) × (n ≤ most)) }
{
    match value.as_integer() {
        Some(n) if i64::from(least) <= n && n <= i64::from(most) => Ok(n as u32),
        Some(_) => Err(Misfit::Range),
        None => Err(Misfit::WrongKind),
    }
}

fn is_name_byte(byte: u8) -> bool
    ensures { result ≡ is_name_byte byte }
{
    matches!(byte, b'0'..=b'9' | b'A'..=b'Z' | b'a'..=b'z' | b'_')
}

fn has_name_bytes(text: &[u8]) -> bool
    ensures { result ≡ list_all is_name_byte text.now }
{
    text.iter().all(|byte| is_name_byte(*byte))
}

fn is_name(text: &str) -> bool
    ensures { result ≡ is_name text.now }
{
    1 <= text.len() && text.len() <= 32 && has_name_bytes(text.as_bytes())
}

fn name_of(alloc: Global, section: Section, value: &Value) -> Result<Name, PathFault>
    ensures { Gives result (judged section (a_name (view value.now))) }
{
    match value.as_str() {
        None => Err(PathFault::WrongKind(section)),
        Some(text) if is_name(text) => Ok(Name::from_slice(alloc, text.as_bytes())?),
        Some(_) => Err(PathFault::Range(section)),
    }
}

/// The name of a unit or a bus.
#[tactic(auto, unfolding(crate::specs::Reading::key))]
pub(crate) fn name_key(alloc: Global, section: Section, table: &Table) -> Result<Name, PathFault>
    ensures { Gives result (key section (table_view table.now) row.name) }
{
    match member(table, "name") {
        Some(value) => name_of(alloc, section, value),
        None => Err(PathFault::Missing(section)),
    }
}

fn kind_called(text: &str) -> Result<Kind, Misfit>
    ensures { result ≡ kind_called text.now }
{
    match text {
        "in" => Ok(Kind::Input),
        "out" => Ok(Kind::Output),
        "rom" => Ok(Kind::Rom),
        "alu" => Ok(Kind::Alu),
        "mul" => Ok(Kind::Mul),
        "sel" => Ok(Kind::Sel),
        "ram" => Ok(Kind::Ram),
        "acu" => Ok(Kind::Acu),
        _ => Err(Misfit::Range),
    }
}

pub(crate) fn as_kind(value: &Value) -> Result<Kind, Misfit>
    ensures { result ≡ a_kind (view value.now) }
{
    match value.as_str() {
        Some(text) => kind_called(text),
        None => Err(Misfit::WrongKind),
    }
}

#[tactic(auto, unfolding(crate::specs::Reading::key))]
pub(crate) fn kind_key(section: Section, table: &Table) -> Result<Kind, PathFault>
    ensures { result ≡ key section (table_view table.now) row.kind }
{
    match member(table, "kind") {
        Some(value) => settle(section, None, Some(as_kind(value))),
        None => Err(PathFault::Missing(section)),
    }
}
