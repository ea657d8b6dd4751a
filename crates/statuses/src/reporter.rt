//! The line of an error.
ghost use Rattle.desk_core.specs.Desk.{FaultsNeverFall, IsUnchanged};

use crate::status::{Ending, Status, UnitRefusal};
use arrayvec::ArrayString;
use datapath::Unit;
use desk_core::Desk;
use source_faults::Element;
use std::fmt::{self, Write};

/// A part of a line that is reported. The longest, of a bad row, has 66 bytes.
type Piece = ArrayString<80>;

/// The line of an error, up to the name of the element.
fn write_error(piece: &mut Piece, program: &str, ending: &Ending) -> fmt::Result {
    let status = ending.status;
    match ending.line {
        Some(number) => write!(piece, "{program}: line {number}: {status}"),
        None => write!(piece, "{program}: {status}"),
    }
}

/// The element that the error names, where it names one.
fn named_element(ending: &Ending) -> Option<Element<'_>> {
    match &ending.element {
        Some(named) => named.element(),
        None => None,
    }
}

/// The subscripts of an element.
fn write_subscripts(piece: &mut Piece, element: &Element) -> fmt::Result {
    let place = element.place;
    match element.decl.dims.as_slice() {
        [_] => write!(piece, "[{place}]"),
        [_, columns] => {
            let columns = (*columns).max(1);
            write!(piece, "[{}][{}]", place / columns, place % columns)
        }
        _ => Ok(()),
    }
}

/// Reports an error that names no unit, in one line that begins with the name of the program. That has at most 18
/// bytes, else the line is cut off. It takes no memory, and names of elements have any length.
pub fn report_error<D: Desk>(desk: &mut D, program: &str, ending: &Ending)
    ensures faults { FaultsNeverFall (D.view desk.old) (D.view desk.new) }
    ensures unchanged { IsUnchanged (D.view desk.old) (D.view desk.new) }
{
    let mut piece = Piece::new();
    let _ = write_error(&mut piece, program, ending);
    if let Some(element) = named_element(ending) {
        let _ = piece.write_str(" ");
        desk.complain(piece.as_bytes());
        desk.complain(element.decl.name.as_slice());
        piece.clear();
        let _ = write_subscripts(&mut piece, &element);
    }
    let _ = piece.write_str("\n");
    desk.complain(piece.as_bytes());
}

/// An error that is about a unit, or about a port of it. Its line has the unit's name.
#[derive(Drop)]
struct UnitError<'a> {
    cause: &'static str,
    unit: &'a Unit,
    port: Option<u8>,
    relation: &'static str,
    node: u32,
}

/// The unit of the datapath that the error is about.
fn unit_at(ending: &Ending, unit: u8) -> Option<&Unit> {
    match &ending.path {
        Some(path) => path.units.get(usize::from(unit)),
        None => None,
    }
}

/// The unit that the error names, where it names one.
fn unit_error(ending: &Ending) -> Option<UnitError<'_>> {
    match ending.status {
        Status::Unit(UnitRefusal::NoRoute { unit, port, node }) => Some(UnitError {
            cause: "no route to",
            unit: unit_at(ending, unit)?,
            port: Some(port),
            relation: "for",
            node,
        }),
        Status::Unit(UnitRefusal::NoAcu { ram, node }) => Some(UnitError {
            cause: "no acu for ram",
            unit: unit_at(ending, ram)?,
            port: None,
            relation: "at",
            node,
        }),
        Status::FileFull { unit, port, node } => Some(UnitError {
            cause: "file full",
            unit: unit_at(ending, unit)?,
            port: Some(port),
            relation: "at",
            node,
        }),
        _ => None,
    }
}

/// Reports an error that names a unit.
fn report_unit<D: Desk>(desk: &mut D, error: &UnitError)
    ensures faults { FaultsNeverFall (D.view desk.old) (D.view desk.new) }
    ensures unchanged { IsUnchanged (D.view desk.old) (D.view desk.new) }
{
    let mut piece = Piece::new();
    let _ = write!(piece, "silc: {} ", error.cause);
    desk.complain(piece.as_bytes());
    desk.complain(error.unit.name.as_slice());
    piece.clear();
    if let Some(port) = error.port {
        let _ = write!(piece, ".{port}");
    }
    let _ = writeln!(piece, " {} node {}", error.relation, error.node);
    desk.complain(piece.as_bytes());
}

/// Reports the error in one line. It takes no memory, and names of elements and units have any length.
pub fn report<D: Desk>(desk: &mut D, ending: &Ending)
    ensures faults { FaultsNeverFall (D.view desk.old) (D.view desk.new) }
    ensures unchanged { IsUnchanged (D.view desk.old) (D.view desk.new) }
{
    match unit_error(ending) {
        Some(error) => report_unit(desk, &error),
        None => report_error(desk, "silc", ending),
    }
}
