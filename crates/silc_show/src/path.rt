//! The datapath of a datapath file: a line for its numbers, for each unit and for each bus, units and buses in order.

ghost use Rattle.std.specs.Prelude.{IfOk};
ghost use Rattle.datapath.specs.Allowed.{IsDatapath};

use crate::page::{Page, Refused};
use datapath::{Bus, Datapath, PathFault, PortRef, Unit, read};

fn put_unit(page: &mut Page, number: usize, unit: &Unit) {
    page.number("unit ", number);
    page.name(" ", &unit.name);
    page.text(" ");
    page.text(unit.kind.name());
    page.number(" latency ", unit.latency);
    page.number(" gap ", unit.gap);
    page.numbers(" files", &unit.files);
    page.number(" cells ", unit.cells);
    page.number(" ram ", unit.ram);
    page.end();
}

fn put_port(page: &mut Page, port: PortRef) {
    page.number(" ", port.unit);
    page.number(".", port.port);
}

fn put_bus(page: &mut Page, number: usize, bus: &Bus) {
    page.number("bus ", number);
    page.name(" ", &bus.name);
    page.numbers(" from", &bus.from);
    page.text(" to");
    for port in &bus.to {
        put_port(page, *port);
    }
    page.end();
}

fn put_datapath(page: &mut Page, path: &Datapath) {
    page.number("period ", path.period);
    page.number(" word ", path.word);
    page.number(" hold ", path.hold);
    page.end();
    for (number, unit) in path.units.iter().enumerate() {
        put_unit(page, number, unit);
    }
    for (number, bus) in path.buses.iter().enumerate() {
        put_bus(page, number, bus);
    }
}

pub fn datapath_of(page: &mut Page, bytes: &[u8]) -> Result<Datapath, Refused>
    ensures { IfOk result IsDatapath }
{
    match read(page.alloc, bytes) {
        Ok(path) => Ok(path),
        Err(PathFault::Memory) => Err(page.cut()),
        Err(fault) => Err(page.refuse_in_words(&fault)),
    }
}

pub fn put(page: &mut Page, bytes: &[u8]) -> Result<(), Refused> {
    let path = datapath_of(page, bytes)?;
    put_datapath(page, &path);
    Ok(())
}
