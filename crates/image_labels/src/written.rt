//! Since when registers are not written: all in each cycle of a turn, and by hints of the certificate those that are
//! read by issues.
ghost use Rattle.std.specs.Prelude.{◌≡◌, ◌<◌, ◌≤◌, ◌+◌, ◌*◌, length, IsTrue, slice_set};
ghost use Rattle.std.specs.List.{All};
ghost use Rattle.image_labels.specs.Labels.{word_in as word_of};
ghost use Rattle.image_labels.specs.Private.Written.{IsUnwritten, place_of, AreUnwritten, written_at, IsReadSince, AreReadSince, AreAllReadSince, AreRight};

use crate::hardware::{issued_in, register_at, word_in};
use crate::label::{Certificate, Hints, cycle_at};
use micro_image::{Image, Issue, Take};

/// How many registers there may be.
pub const REGISTERS: usize = 32768;
/// The most operands of an operation.
const PORTS: u32 = 3;

/// Where a list of all registers has one.
pub fn register_index(unit: u32, port: u32, reg: u32) -> usize
    ensures { result ≡ place_of unit port reg }
{
    unit as usize * 1024 + port as usize * 256 + reg as usize
}

/// Where the certificate has the hint on what the issue of a cycle on a unit reads at a port.
pub fn hint_index(cycle: u16, unit: u32, port: u32) -> usize
    ensures { result ≡ cycle * 96 + unit * 3 + port }
{
    usize::from(cycle) * 96 + unit as usize * 3 + port as usize
}

/// Since which cycle the register is not written that the issue of a cycle on a unit reads at a port, as the
/// certificate has it.
fn written_in(certificate: &Certificate, cycle: u16, unit: u32, port: u32) -> u16
    ensures { result ≡ written_at certificate.now cycle unit port }
{
    cycle_at(&certificate.written, hint_index(cycle, unit, port))
}

/// Notes the cycle after that of a take at its register.
fn note_take(last: &mut [u16], take: &Take, after: u16)
    ensures { last.new
        ≡ slice_set last.old (place_of take.now.port.unit take.now.port.port take.now.reg) after }
{
    let index = register_index(
        u32::from(take.port.unit),
        u32::from(take.port.port),
        u32::from(take.reg),
    );
    if index < last.len() {
        last[index] = after;
    }
}

/// Notes the registers that are written in a cycle.
pub fn note_takes(image: &Image, last: &mut [u16], cycle: u16)
    requires cycle { cycle < length image.now.words }
    requires small { cycle < 65535 }
    ensures length { length last.new ≡ length last.old }
    ensures unwritten { AreUnwritten image.now last.old cycle → AreUnwritten image.now last.new (cycle + 1) }
{
    for take in word_in(image, cycle).takes.iter() {
        note_take(last, take, cycle + 1);
    }
}

/// Whether it is noted that a register is not written before a cycle, since another one.
fn is_unwritten(
    image: &Image,
    last: &[u16],
    unit: u32,
    port: u32,
    reg: u32,
    since: u16,
    cycle: u16,
) -> bool
    requires { AreUnwritten image.now last.now cycle }
    ensures { IsTrue result → IsUnwritten image.now unit port reg since cycle }
{
    let index = register_index(unit, port, reg);
    index < last.len() && last[index] <= since
}

/// Whether the hint is right on what the issue of a cycle reads at a port.
fn is_read_since(
    image: &Image,
    certificate: &Certificate,
    last: &[u16],
    cycle: u16,
    issue: &Issue,
    port: u32,
) -> bool
    requires { AreUnwritten image.now last.now cycle }
    ensures { IsTrue result → IsReadSince image.now certificate.now cycle issue.now port }
{
    let unit = u32::from(issue.unit);
    let reg = u32::from(register_at(&issue.regs, port));
    let since = written_in(certificate, cycle, unit, port);
    is_unwritten(image, last, unit, port, reg, since, cycle)
}

/// Whether the hints are right on what an issue of a cycle reads.
fn are_read_since(
    image: &Image,
    certificate: &Certificate,
    last: &[u16],
    cycle: u16,
    issue: &Issue,
) -> bool
    requires { AreUnwritten image.now last.now cycle }
    ensures { IsTrue result → AreReadSince image.now certificate.now cycle issue.now }
{
    for port in 0..PORTS {
        if !is_read_since(image, certificate, last, cycle, issue, port) {
            return false;
        }
    }
    true
}

/// Whether the hints are right on what the issues of a cycle read.
fn are_read_in(image: &Image, certificate: &Certificate, last: &[u16], cycle: u16) -> bool
    requires cycle { cycle < length image.now.words }
    requires last { AreUnwritten image.now last.now cycle }
    ensures { IsTrue result
        → All (AreReadSince image.now certificate.now cycle) (word_of image.now cycle).issues }
{
    for issue in word_in(image, cycle).issues.iter() {
        if !are_read_since(image, certificate, last, cycle, issue) {
            return false;
        }
    }
    true
}

/// Whether all hints on what is read are right. Notes for each register since when it is not written at the turn's end.
pub fn are_all_read_since(
    image: &Image,
    certificate: &Certificate,
    last: &mut [u16],
    turn: u16,
) -> bool
    requires { turn ≡ length image.now.words }
    ensures reads { IsTrue result → AreAllReadSince image.now certificate.now (length image.now.words) }
    ensures last { AreUnwritten image.now last.new turn }
{
    let mut right = true;
    for cycle in 0..turn {
        let is = are_read_in(image, certificate, last, cycle);
        note_takes(image, last, cycle);
        right = right && is;
    }
    right
}

/// A cycle since which a register is not written that a unit reads at a port, by the hint on its issue.
fn hint_on(
    image: &Image,
    certificate: &Certificate,
    unit: u32,
    port: u32,
    reg: u32,
    cycle: u16,
) -> u16
    requires cycle { cycle < length image.now.words }
    requires reads { AreAllReadSince image.now certificate.now (length image.now.words) }
    requires port { port < 3 }
    ensures { IsUnwritten image.now unit port reg result cycle }
{
    match issued_in(word_in(image, cycle), unit) {
        Some(found) => {
            if u32::from(register_at(&found.regs, port)) == reg {
                written_in(certificate, cycle, unit, port)
            } else {
                cycle
            }
        }
        None => cycle,
    }
}

/// A cycle since which a register is not written that a unit reads at a port, by the hints where they are right.
pub fn read_since(
    image: &Image,
    certificate: &Certificate,
    unit: u32,
    port: u32,
    reg: u32,
    cycle: u16,
    hints: Hints,
) -> u16
    requires { AreRight image.now certificate.now hints }
    ensures { IsUnwritten image.now unit port reg result cycle }
{
    if hints.reads && port < PORTS && usize::from(cycle) < image.words.len() {
        hint_on(image, certificate, unit, port, reg, cycle)
    } else {
        cycle
    }
}
