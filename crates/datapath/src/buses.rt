//! The buses.

ghost use Rattle.std.specs.Prelude.{◌≡◌, ◌≤◌, ◌<◌, length, map, IfOk, [], ◌∷◌};
ghost use Rattle.std.specs.List.{list_any};
ghost use Rattle.std.specs.Str.{bytes_eq};
ghost use Rattle.toml.specs.View.{view, table_view};
ghost use Rattle.datapath.specs.Table as row;
ghost use Rattle.datapath.specs.Table.{bus_keys};
ghost use Rattle.datapath.specs.Names.{new_name, driver, sink};
ghost use Rattle.datapath.specs.Reading.{Gives, key, only, in_turn};
ghost use Rattle.datapath.specs.PathOf.{room_after, bus_in, bus_at};
ghost use Rattle.datapath.specs.Allowed.{IsDistinct};
ghost use Rattle.datapath.specs.Private.Answers.{GivesAs, texts};

use crate::arrays::{from_key, to_key};
use crate::entries::{drivers, same_name, sinks};
use crate::fault::{PathFault, Section};
use crate::keys::only_keys;
use crate::types::{Bus, Unit};
use crate::values::name_key;
use lists::{List, Name};
use std::alloc::Global;
use toml::Table;

/// How many `to` entries all buses may have.
const MOST_ENTRIES: usize = 256;

/// How many `to` entries may still come after these buses.
fn room_after(buses: &[Bus]) -> usize
    ensures { result ≡ room_after buses.now }
{
    let mut room = MOST_ENTRIES;
    for bus in buses {
        room = room.saturating_sub(bus.to.len());
    }
    room
}

fn has_name(buses: &[Bus], name: &[u8]) -> bool
    ensures { result ≡ list_any (λ bus. bytes_eq name.now bus.name) buses.now }
{
    buses.iter().any(|bus| same_name(name, bus.name.as_slice()))
}

fn new_name(section: Section, before: &[Bus], name: &Name) -> Result<(), PathFault>
    ensures { GivesAs (λ _. name.now) result (new_name section (map (λ bus. bus.name) before.now) name.now) }
{
    if has_name(before, name.as_slice()) {
        return Err(PathFault::Twice(section));
    }
    Ok(())
}

#[tactic(auto, unfolding(crate::specs::PathOf::bus_in))]
fn bus_in(
    alloc: Global,
    section: Section,
    units: &[Unit],
    before: &[Bus],
    table: &Table,
) -> Result<Bus, PathFault>
    requires few { length units.now ≤ 32 }
    requires distinct { IsDistinct (map (λ unit. unit.name) units.now) }
    ensures { Gives result (bus_in section units.now before.now (table_view table.now)) }
{
    only_keys(section, table, &["name", "from", "to"])?;
    let name = name_key(alloc, section, table)?;
    let from = from_key(alloc, section, table)?;
    let to = to_key(alloc, section, table, room_after(before))?;
    new_name(section, before, &name)?;
    let from = drivers(alloc, section, units, from.as_slice())?;
    let to = sinks(alloc, section, units, to.as_slice())?;
    Ok(Bus { name, from, to })
}

/// All buses.
pub(crate) fn all_buses(
    alloc: Global,
    units: &[Unit],
    tables: &[&Table],
) -> Result<List<Bus>, PathFault>
    requires few { length units.now ≤ 32 }
    requires distinct { IsDistinct (map (λ unit. unit.name) units.now) }
    requires tables { length tables.now ≤ 32 }
    ensures { Gives result (in_turn (bus_at units.now) [] (map (λ t. table_view t.now) tables.now)) }
{
    let mut buses = List::with_capacity(alloc, tables.len())?;
    for table in tables {
        let section = Section::Bus(buses.len() as u8);
        let bus = bus_in(alloc, section, units, buses.as_slice(), table)?;
        buses.push(bus)?;
    }
    Ok(buses)
}
