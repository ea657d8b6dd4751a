//! An array of the file: of numbers, of texts, of tables.

ghost use Rattle.std.specs.Prelude.{◌≡◌, ◌≤◌, length, map, IfOk, None};
ghost use Rattle.toml.specs.View.{view, table_view, array_view};
ghost use Rattle.datapath.specs.Table as table_rows;
ghost use Rattle.datapath.specs.Table.{row, ports};
ghost use Rattle.datapath.specs.Values.{whole, text, a_table, entries, array_of, array_within};
ghost use Rattle.datapath.specs.Reading.{Gives, key};
ghost use Rattle.datapath.specs.Private.Answers.{GivesAs, seen, texts};
ghost use Rattle.datapath.specs.declared.fault.Section.TheVariants as section;

use crate::fault::{Misfit, PathFault, Section};
use crate::keys::{member, settle};
use crate::values::as_whole;
use lists::List;
use operations::Kind;
use std::alloc::{AllocError, Global};
use toml::value::Array;
use toml::{Table, Value};

/// A list of values, or why they are not such a list.
type Judged<T> = Result<Result<List<T>, Misfit>, AllocError>;

fn table_entries(alloc: Global, array: &Array) -> Judged<&Table>
    ensures { IfOk result (λ r. seen (map (λ t. table_view t.now)) r ≡ entries a_table (array_view array.now)) }
{
    let mut tables = List::with_capacity(alloc, array.len())?;
    for value in array.iter() {
        match value.as_table() {
            Some(table) => tables.push(table)?,
            None => return Ok(Err(Misfit::WrongKind)),
        }
    }
    Ok(Ok(tables))
}

fn tables_of(alloc: Global, value: &Value) -> Judged<&Table>
    ensures value { IfOk result (λ r. seen (map (λ t. table_view t.now)) r
        ≡ array_within 1 32 a_table (view value.now)) }
    ensures bound { IfOk result (λ r. IfOk r (λ tables. length tables ≤ 32)) }
{
    let Some(array) = value.as_array() else {
        return Ok(Err(Misfit::WrongKind));
    };
    match table_entries(alloc, array)? {
        Ok(tables) if 1 <= tables.len() && tables.len() <= 32 => Ok(Ok(tables)),
        Ok(_) => Ok(Err(Misfit::Range)),
        Err(misfit) => Ok(Err(misfit)),
    }
}

/// The tables of all units, or of all buses.
#[tactic(auto, unfolding(crate::specs::Reading::key))]
pub(crate) fn tables_key<'a>(
    alloc: Global,
    table: &'a Table,
    name: &str,
) -> Result<List<&'a Table>, PathFault>
    ensures value { GivesAs (map (λ t. table_view t.now)) result
        (key section.Top (table_view table.now) (row name.now (array_within 1 32 a_table) None)) }
    ensures bound { IfOk result (λ tables. length tables ≤ 32) }
{
    match member(table, name) {
        Some(value) => settle(Section::Top, None, Some(tables_of(alloc, value)?)),
        None => Err(PathFault::Missing(Section::Top)),
    }
}

fn text_entries(alloc: Global, array: &Array) -> Judged<&str>
    ensures { IfOk result (λ r. seen texts r ≡ entries text (array_view array.now)) }
{
    let mut found = List::with_capacity(alloc, array.len())?;
    for value in array.iter() {
        match value.as_str() {
            Some(text) => found.push(text)?,
            None => return Ok(Err(Misfit::WrongKind)),
        }
    }
    Ok(Ok(found))
}

fn texts_of(alloc: Global, value: &Value) -> Judged<&str>
    ensures { IfOk result (λ r. seen texts r ≡ array_of text (view value.now)) }
{
    match value.as_array() {
        Some(array) => text_entries(alloc, array),
        None => Ok(Err(Misfit::WrongKind)),
    }
}

fn few_texts_of(alloc: Global, value: &Value, room: usize) -> Judged<&str>
    ensures { IfOk result (λ r. seen texts r ≡ array_within 0 room text (view value.now)) }
{
    match texts_of(alloc, value)? {
        Ok(found) if found.len() <= room => Ok(Ok(found)),
        Ok(_) => Ok(Err(Misfit::Range)),
        Err(misfit) => Ok(Err(misfit)),
    }
}

/// The names of the units that may drive a bus.
#[tactic(auto, unfolding(crate::specs::Reading::key))]
pub(crate) fn from_key(
    alloc: Global,
    section: Section,
    table: &Table,
) -> Result<List<&str>, PathFault>
    ensures { GivesAs texts result (key section (table_view table.now) table_rows.from) }
{
    match member(table, "from") {
        Some(value) => settle(section, None, Some(texts_of(alloc, value)?)),
        None => Err(PathFault::Missing(section)),
    }
}

/// The names of the ports that a bus may be written to, where so many may still come.
#[tactic(auto, unfolding(crate::specs::Reading::key))]
pub(crate) fn to_key(
    alloc: Global,
    section: Section,
    table: &Table,
    room: usize,
) -> Result<List<&str>, PathFault>
    ensures { GivesAs texts result (key section (table_view table.now) (table_rows.to room)) }
{
    match member(table, "to") {
        Some(value) => settle(section, None, Some(few_texts_of(alloc, value, room)?)),
        None => Err(PathFault::Missing(section)),
    }
}

fn sizes(alloc: Global, array: &Array) -> Judged<u16>
    ensures { IfOk result (λ r. r ≡ entries (whole 1 256) (array_view array.now)) }
{
    let mut sizes = List::with_capacity(alloc, array.len())?;
    let mut in_range = true;
    for value in array.iter() {
        match as_whole(value, 1, 256) {
            Ok(size) => sizes.push(size as u16)?,
            Err(Misfit::Range) => in_range = false,
            Err(Misfit::WrongKind) => return Ok(Err(Misfit::WrongKind)),
        }
    }
    if in_range {
        Ok(Ok(sizes))
    } else {
        Ok(Err(Misfit::Range))
    }
}

fn files_of(alloc: Global, ports: usize, value: &Value) -> Judged<u16>
    ensures { IfOk result (λ r. r ≡ array_within ports ports (whole 1 256) (view value.now)) }
{
    let Some(array) = value.as_array() else {
        return Ok(Err(Misfit::WrongKind));
    };
    match sizes(alloc, array)? {
        Ok(sizes) if sizes.len() == ports => Ok(Ok(sizes)),
        Ok(_) => Ok(Err(Misfit::Range)),
        Err(misfit) => Ok(Err(misfit)),
    }
}

/// The registers of the file of each port.
#[tactic(auto, unfolding(crate::specs::Reading::key))]
pub(crate) fn files_key(
    alloc: Global,
    section: Section,
    table: &Table,
    kind: Kind,
) -> Result<List<u16>, PathFault>
    ensures { Gives result (key section (table_view table.now) (table_rows.files (ports kind))) }
{
    let ports = kind.ports();
    match member(table, "files") {
        Some(value) => settle(section, None, Some(files_of(alloc, ports, value)?)),
        None if ports == 0 => Ok(List::new(alloc)),
        None => Err(PathFault::Missing(section)),
    }
}
