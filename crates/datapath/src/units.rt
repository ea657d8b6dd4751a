//! The units.

ghost use Rattle.std.specs.Prelude.{◌≡◌, ◌≤◌, ◌<◌, length, map, IfOk, [], ◌∷◌, option_map, take};
ghost use Rattle.std.specs.List.{list_any};
ghost use Rattle.std.specs.Str.{bytes_eq};
ghost use Rattle.toml.specs.View.{view, table_view};
ghost use Rattle.datapath.specs.Table as row;
ghost use Rattle.datapath.specs.Table.{unit_keys, is_ram, is_acu};
ghost use Rattle.datapath.specs.Reading.{Gives, key, only, where_has, in_turn};
ghost use Rattle.datapath.specs.PathOf.{kind_known, unit_in, unit_at, unit_name_at, is_known_acu, ram_in, ram_at, with_rams, units_of};
ghost use Rattle.datapath.specs.Private.Answers.{GivesAs, texts};

use crate::arrays::files_key;
use crate::entries::{ram_named, same_name};
use crate::fault::{PathFault, Section};
use crate::keys::{member, only_keys, whole_key};
use crate::types::Unit;
use crate::values::{as_kind, kind_key, name_key};
use lists::List;
use operations::Kind;
use std::alloc::Global;
use toml::Table;

/// The kind that a unit's table names, if it names one.
#[tactic(auto, unfolding(crate::specs::PathOf::kind_known))]
fn kind_known(table: &Table) -> Option<Kind>
    ensures { result ≡ kind_known (table_view table.now) }
{
    match member(table, "kind") {
        Some(value) => as_kind(value).ok(),
        None => None,
    }
}

fn unit_keys(known: Option<Kind>) -> &'static [&'static str]
    ensures { texts result.now ≡ unit_keys known }
{
    match known {
        None => &["name", "kind", "latency", "gap", "files", "cells", "ram"],
        Some(Kind::Ram) => &["name", "kind", "latency", "gap", "files", "cells"],
        Some(Kind::Acu) => &["name", "kind", "latency", "gap", "files", "ram"],
        Some(_) => &["name", "kind", "latency", "gap", "files"],
    }
}

fn known_keys(section: Section, table: &Table) -> Result<(), PathFault>
    ensures { result ≡ only section (table_view table.now) (unit_keys (kind_known (table_view table.now))) }
{
    only_keys(section, table, unit_keys(kind_known(table)))
}

fn cells_key(section: Section, table: &Table, kind: Kind) -> Result<u32, PathFault>
    ensures { result ≡ where_has (is_ram kind) (key section (table_view table.now) row.cells) 0 }
{
    match kind {
        Kind::Ram => whole_key(section, table, "cells", None, 1, 65536),
        _ => Ok(0),
    }
}

#[tactic(auto, unfolding(crate::specs::Reading::key))]
fn ram_key<'a>(section: Section, table: &'a Table) -> Result<&'a str, PathFault>
    ensures { GivesAs (λ name. name.now) result (key section (table_view table.now) row.ram) }
{
    match member(table, "ram") {
        Some(value) => value.as_str().ok_or(PathFault::WrongKind(section)),
        None => Err(PathFault::Missing(section)),
    }
}

/// Judges the name of the ram that an acu addresses.
fn has_ram_key(section: Section, table: &Table, kind: Kind) -> Result<&str, PathFault>
    ensures { GivesAs (λ name. name.now) result
        (where_has (is_acu kind) (key section (table_view table.now) row.ram) []) }
{
    match kind {
        Kind::Acu => ram_key(section, table),
        _ => Ok(""),
    }
}

/// A unit, but for its ram.
#[tactic(auto, unfolding(crate::specs::PathOf::unit_in))]
fn unit_in(alloc: Global, section: Section, table: &Table) -> Result<Unit, PathFault>
    ensures { Gives result (unit_in section (table_view table.now)) }
{
    known_keys(section, table)?;
    let name = name_key(alloc, section, table)?;
    let kind = kind_key(section, table)?;
    let latency = whole_key(section, table, "latency", Some(1), 1, 8)?;
    let gap = whole_key(section, table, "gap", Some(1), 1, latency)?;
    let files = files_key(alloc, section, table, kind)?;
    let cells = cells_key(section, table, kind)?;
    has_ram_key(section, table, kind)?;
    Ok(Unit {
        name,
        kind,
        latency: latency as u8,
        gap: gap as u8,
        files,
        cells,
        ram: 0,
    })
}

fn all_units(alloc: Global, tables: &[&Table]) -> Result<List<Unit>, PathFault>
    requires { length tables.now ≤ 32 }
    ensures value { Gives result (in_turn unit_at [] (map (λ t. table_view t.now) tables.now)) }
    ensures count { IfOk result (λ units. length units ≡ length tables.now) }
{
    let mut units = List::with_capacity(alloc, tables.len())?;
    for table in tables {
        let section = Section::Unit(units.len() as u8);
        let unit = unit_in(alloc, section, table)?;
        units.push(unit)?;
    }
    Ok(units)
}

fn has_name(units: &[Unit], name: &[u8]) -> bool
    ensures { result ≡ list_any (λ unit. bytes_eq name.now unit.name) units.now }
{
    units
        .iter()
        .any(|unit| same_name(name, unit.name.as_slice()))
}

fn names_differ(units: &[Unit]) -> Result<(), PathFault>
    requires { length units.now ≤ 32 }
    ensures { GivesAs (λ _. map (λ unit. unit.name) units.now) result
        (in_turn unit_name_at [] (map (λ unit. unit.name) units.now)) }
{
    for (place, unit) in units.iter().enumerate() {
        if has_name(&units[..place], unit.name.as_slice()) {
            return Err(PathFault::Twice(Section::Unit(place as u8)));
        }
    }
    Ok(())
}

#[tactic(auto, unfolding(crate::specs::PathOf::ram_in))]
fn ram_in(section: Section, units: &[Unit], table: &Table) -> Result<u8, PathFault>
    requires { length units.now ≤ 32 }
    ensures { Gives result (ram_in section units.now (table_view table.now)) }
{
    match kind_known(table) {
        Some(Kind::Acu) => {
            let name = ram_key(section, table)?;
            match ram_named(units, name.as_bytes()) {
                Some(ram) => Ok(ram as u8),
                None => Err(PathFault::UnknownUnit(section)),
            }
        }
        _ => Ok(0),
    }
}

fn all_rams(alloc: Global, units: &[Unit], tables: &[&Table]) -> Result<List<u8>, PathFault>
    requires few { length units.now ≤ 32 }
    requires tables { length tables.now ≤ 32 }
    ensures value { Gives result (in_turn (ram_at units.now) [] (map (λ t. table_view t.now) tables.now)) }
    ensures count { IfOk result (λ rams. length rams ≡ length tables.now) }
{
    let mut rams = List::with_capacity(alloc, tables.len())?;
    for table in tables {
        let section = Section::Unit(rams.len() as u8);
        let ram = ram_in(section, units, table)?;
        rams.push(ram)?;
    }
    Ok(rams)
}

/// Puts the position of its ram into each acu.
fn set_rams(units: &mut List<Unit>, rams: &[u8])
    requires { length rams.now ≤ length units.old }
    ensures { units.new ≡ with_rams units.old rams.now }
{
    for (place, ram) in rams.iter().enumerate() {
        units[place].ram = *ram;
    }
}

/// All units.
#[tactic(auto, unfolding(crate::specs::PathOf::units_of))]
pub(crate) fn units_of(alloc: Global, tables: &[&Table]) -> Result<List<Unit>, PathFault>
    requires { length tables.now ≤ 32 }
    ensures value { Gives result (units_of (map (λ t. table_view t.now) tables.now)) }
    ensures bound { IfOk result (λ units. length units ≤ 32) }
{
    let mut units = all_units(alloc, tables)?;
    names_differ(units.as_slice())?;
    let rams = all_rams(alloc, units.as_slice(), tables)?;
    set_rams(&mut units, rams.as_slice());
    Ok(units)
}
