//! The cycle of a conflict: its microword, with a mark at what is in conflict.

ghost use Rattle.std.specs.Prelude.{◌<◌, length};
ghost use Rattle.cycle_sim.specs.Microcode.{IsSound};
ghost use Rattle.micro_image.specs.Valid.{IsIssue, IsValid, IsWordOf};

use crate::contents::Contents;
use crate::image::{put_drive, put_issue, put_take};
use crate::page::Page;
use cycle_sim::{Conflict, ConflictKind, Microcode};
use micro_image::{Enable, Image, Issue, Take, Word};

/// Ends a line, with a mark where it is in conflict.
fn end_line(page: &mut Page, in_conflict: bool) {
    if in_conflict {
        page.text(" <-");
    }
    page.end();
}

/// The word that is obeyed at a cycle.
pub fn word_at(code: &Microcode, cycle: u64) -> &Word
    requires { IsSound code.now }
    ensures { IsWordOf code.now.image result.now }
{
    code.word_at(cycle as usize)
}

/// The last cycle before this one in which a unit was issued something with which it is busy.
fn busy_since(code: &Microcode, unit: u8, cycle: u64) -> Option<u64>
    requires sound { IsSound code.now }
    requires unit { unit < length code.now.image.units }
{
    for back in 1..code.image.units[unit as usize].gap {
        let back = u64::from(back);
        if back > cycle {
            return None;
        }
        for issue in &word_at(code, cycle - back).issues {
            if issue.unit == unit {
                return Some(cycle - back);
            }
        }
    }
    None
}

fn put_busy(page: &mut Page, code: &Microcode, unit: u8, cycle: u64)
    requires sound { IsSound code.now }
    requires unit { unit < length code.now.image.units }
{
    if let Some(began) = busy_since(code, unit, cycle) {
        page.number("  busy with the issue of cycle ", began);
        page.end();
    }
}

fn put_address(page: &mut Page, image: &Image, contents: &Contents, issue: &Issue)
    requires valid { IsValid image.now }
    requires issue { IsIssue image.now issue.now }
    requires unit { issue.now.unit < length image.now.units }
{
    page.number(" address ", contents.operand(image, issue, 0).get());
    page.number(" of ", image.units[issue.unit as usize].cells.len());
    page.text(" cells");
}

fn put_issue_in(
    page: &mut Page,
    code: &Microcode,
    contents: &Contents,
    conflict: Conflict,
    issue: &Issue,
)
    requires sound { IsSound code.now }
    requires issue { IsIssue code.now.image issue.now }
{
    let there = u16::from(issue.unit) == conflict.place;
    let early = there && conflict.kind == ConflictKind::Busy;
    let outside = there && conflict.kind == ConflictKind::Address;
    put_issue(page, issue);
    if outside {
        put_address(page, &code.image, contents, issue);
    }
    end_line(page, early || outside);
    if early {
        put_busy(page, code, issue.unit, conflict.cycle);
    }
}

fn put_drive_in(page: &mut Page, conflict: Conflict, drive: Enable) {
    let in_conflict = match conflict.kind {
        ConflictKind::TwoDrivers => u16::from(drive.bus) == conflict.place,
        ConflictKind::NoResult => u16::from(drive.unit) == conflict.place,
        _ => false,
    };
    put_drive(page, drive);
    end_line(page, in_conflict);
}

/// The number of a take's register file: four times its unit, and its port.
fn file_of(take: Take) -> u16 {
    4 * u16::from(take.port.unit) + u16::from(take.port.port)
}

fn put_take_in(page: &mut Page, conflict: Conflict, take: Take) {
    let in_conflict = match conflict.kind {
        ConflictKind::FileTwice => file_of(take) == conflict.place,
        ConflictKind::NoDriver => u16::from(take.bus) == conflict.place,
        _ => false,
    };
    put_take(page, take);
    end_line(page, in_conflict);
}

/// Ends the line of the conflict's cycle, and puts those of its microword.
pub fn put_conflict(page: &mut Page, code: &Microcode, contents: &Contents, conflict: Conflict)
    requires { IsSound code.now }
{
    page.shown(" conflict: ", &conflict.kind);
    page.number(" ", conflict.place);
    page.end();
    let word = word_at(code, conflict.cycle);
    for issue in &word.issues {
        put_issue_in(page, code, contents, conflict, issue);
    }
    for drive in &word.enables {
        put_drive_in(page, conflict, *drive);
    }
    for take in &word.takes {
        put_take_in(page, conflict, *take);
    }
}
