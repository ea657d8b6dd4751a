//! What the names in a file stand for.

ghost use Rattle.std.specs.Prelude.{◌≡◌, ◌≤◌, ◌<◌, ◌==◌, length, map, option_map, IfOk, IfSome, [], None};
ghost use Rattle.std.specs.List.{list_any};
ghost use Rattle.std.specs.Str.{bytes_eq};
ghost use Rattle.datapath.specs.Names.{unit_named, ram_named, last_dot, ports_at, port_of, driver, sink, is_port};
ghost use Rattle.datapath.specs.Reading.{Gives, in_turn};
ghost use Rattle.datapath.specs.Allowed.{IsDistinct};
ghost use Rattle.datapath.specs.Private.Answers.{texts};

use crate::fault::{PathFault, Section};
use crate::types::Unit;
use lists::List;
use operations::{Kind, PortRef};
use std::alloc::Global;

/// Whether the names are the same. Names that count up begin alike, so their last bytes are compared first.
#[tactic(auto, using(crate::proofs::Named::last_differs))]
pub(crate) fn same_name(left: &[u8], right: &[u8]) -> bool
    ensures { result ≡ bytes_eq left.now right.now }
{
    if left.len() != right.len() {
        return false;
    }
    let count = left.len();
    if count > 0 && left[count - 1] != right[count - 1] {
        return false;
    }
    left == right
}

fn first_named(units: &[Unit], name: &[u8]) -> Option<usize>
    ensures value { result ≡ unit_named units.now name.now }
    ensures bound { IfSome result (λ unit. unit < length units.now) }
{
    units
        .iter()
        .position(|unit| same_name(name, unit.name.as_slice()))
}

/// The position of the unit of the name. The search begins near the unit that was named before, as a file mostly names
/// units in their order.
fn unit_named(units: &[Unit], near: usize, name: &[u8]) -> Option<usize>
    requires distinct { IsDistinct (map (λ unit. unit.name) units.now) }
    ensures value { result ≡ unit_named units.now name.now }
    ensures bound { IfSome result (λ unit. unit < length units.now) }
{
    let near = near.min(units.len());
    match first_named(&units[near..], name) {
        Some(steps) => Some(near + steps),
        None => first_named(units, name),
    }
}

/// The position of the ram of the name.
pub(crate) fn ram_named(units: &[Unit], name: &[u8]) -> Option<usize>
    ensures value { result ≡ ram_named units.now name.now }
    ensures bound { IfSome result (λ unit. unit < length units.now) }
{
    units.iter().position(|unit| unit.kind == Kind::Ram && same_name(name, unit.name.as_slice()))
}

fn has_unit(units: &[u8], unit: u8) -> bool
    ensures { result ≡ list_any (λ other. other == unit) units.now }
{
    units.contains(&unit)
}

#[tactic(auto, unfolding(crate::specs::Names::driver))]
fn driver(section: Section, units: &[Unit], before: &[u8], name: &str) -> Result<u8, PathFault>
    requires few { length units.now ≤ 32 }
    requires distinct { IsDistinct (map (λ unit. unit.name) units.now) }
    ensures { result ≡ driver section units.now before.now name.now }
{
    let next = before.last().map_or(0, |unit| usize::from(*unit) + 1);
    match unit_named(units, next, name.as_bytes()) {
        Some(unit) if has_unit(before, unit as u8) => Err(PathFault::Twice(section)),
        Some(unit) => Ok(unit as u8),
        None => Err(PathFault::UnknownUnit(section)),
    }
}

/// The units that may drive a bus.
pub(crate) fn drivers(
    alloc: Global,
    section: Section,
    units: &[Unit],
    names: &[&str],
) -> Result<List<u8>, PathFault>
    requires few { length units.now ≤ 32 }
    requires distinct { IsDistinct (map (λ unit. unit.name) units.now) }
    ensures { Gives result (in_turn (driver section units.now) [] (texts names.now)) }
{
    let mut drivers = List::with_capacity(alloc, names.len())?;
    for name in names {
        let unit = driver(section, units, drivers.as_slice(), name)?;
        drivers.push(unit)?;
    }
    Ok(drivers)
}

/// The parts before and after the last dot.
fn last_dot(text: &[u8]) -> Option<(&[u8], &[u8])>
    ensures { option_map (λ parts. (parts.0.now, parts.1.now)) result ≡ last_dot text.now }
{
    let mut place = text.len();
    while place > 0 {
        place -= 1;
        if text[place] == b'.' {
            return Some((&text[..place], &text[place + 1..]));
        }
    }
    None
}

fn ports_at(units: &[Unit], unit: usize) -> usize
    requires { unit < length units.now }
    ensures { result ≡ ports_at units.now unit }
{
    units[unit].kind.ports()
}

/// The port that the digit names, of so many ports.
fn port_of(count: usize, text: &[u8]) -> Option<u8>
    ensures { result ≡ port_of count text.now }
{
    match text {
        [digit @ b'0'..=b'9'] if usize::from(*digit - b'0') < count => Some(*digit - b'0'),
        _ => None,
    }
}

fn has_port(ports: &[PortRef], port: &PortRef) -> bool
    ensures { result ≡ list_any (is_port port.now) ports.now }
{
    ports
        .iter()
        .any(|other| other.unit == port.unit && other.port == port.port)
}

#[tactic(auto, unfolding(crate::specs::Names::sink))]
fn sink(
    section: Section,
    units: &[Unit],
    before: &[PortRef],
    text: &str,
) -> Result<PortRef, PathFault>
    requires few { length units.now ≤ 32 }
    requires distinct { IsDistinct (map (λ unit. unit.name) units.now) }
    ensures { result ≡ sink section units.now before.now text.now }
{
    let Some((name, digit)) = last_dot(text.as_bytes()) else {
        return Err(PathFault::UnknownPort(section));
    };
    let last = before.last().map_or(0, |port| usize::from(port.unit));
    let Some(unit) = unit_named(units, last, name) else {
        return Err(PathFault::UnknownUnit(section));
    };
    let Some(port) = port_of(ports_at(units, unit), digit) else {
        return Err(PathFault::UnknownPort(section));
    };
    let unit = unit as u8;
    let sink = PortRef { unit, port };
    if has_port(before, &sink) {
        return Err(PathFault::Twice(section));
    }
    Ok(sink)
}

/// The ports that a bus may be written to.
pub(crate) fn sinks(
    alloc: Global,
    section: Section,
    units: &[Unit],
    names: &[&str],
) -> Result<List<PortRef>, PathFault>
    requires few { length units.now ≤ 32 }
    requires distinct { IsDistinct (map (λ unit. unit.name) units.now) }
    ensures { Gives result (in_turn (sink section units.now) [] (texts names.now)) }
{
    let mut sinks = List::with_capacity(alloc, names.len())?;
    for name in names {
        let port = sink(section, units, sinks.as_slice(), name)?;
        sinks.push(port)?;
    }
    Ok(sinks)
}
