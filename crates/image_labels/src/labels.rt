//! The labels of registers and cells in a cycle of a turn.
ghost use Rattle.std.specs.Prelude.{◌≡◌, ◌<◌, ◌≤◌, ◌==◌, ◌+◌, ◌*◌, ◌↔◌, length, find, IsTrue, Some, if◌then◌else◌};
ghost use Rattle.image_labels.specs.declared.label.Label.{Label as LabelOf};
ghost use Rattle.micro_image.specs.Fields.{nth};
ghost use Rattle.image_labels.specs.declared.label.Label.TheVariants.{Unknown, Signal};
ghost use Rattle.image_labels.specs.Labels.{issue_label as label_of_issue, driven_label as label_of_bus, register_label as label_of_register, operand_label as label_of_operand, cell_label as label_of_cell, stored_label, word_in as word_of, is_address as is_address_of};
ghost use Rattle.image_labels.specs.Private.Settled.{fresh_at, settled_at};
ghost use Rattle.image_labels.specs.Private.Written.{IsUnwritten, AreUnwritten, AreRight};

use crate::hardware::{delay_on, driver_of, ended_in, issued_in, register_at, take_into, word_in};
use crate::label::{Certificate, Hints, Label, cycle_at};
use crate::written::{read_since, register_index};
use fix_word::Op;
use lists::List;
use micro_image::{Image, Issue};

/// Whether two labels are one.
pub fn same_label(a: Label, b: Label) -> bool
    ensures { IsTrue result ↔ (a ≡ b) }
{
    a == b
}

/// Whether a label is of this word.
pub fn is_signal(label: Label, node: u32, sample: u32) -> bool
    ensures { IsTrue result ↔ (label ≡ Signal node sample) }
{
    same_label(label, Label::Signal(node, sample))
}

fn is_address(label: Label, cell: u32) -> bool
    ensures { result ≡ is_address_of label cell }
{
    match label {
        Label::Address(_, x) => x == cell,
        _ => false,
    }
}

fn label_at(labels: &List<Label>, index: usize) -> Label
    ensures { result ≡ nth labels.now index Unknown }
{
    if index < labels.len() {
        labels[index]
    } else {
        Label::Unknown
    }
}

/// The label of an issue.
pub fn issue_label(certificate: &Certificate, cycle: u16, unit: u32) -> Label
    ensures { result ≡ label_of_issue certificate.now cycle unit }
{
    label_at(&certificate.issues, usize::from(cycle) * 32 + unit as usize)
}

/// The label that a register starts a turn with.
pub fn first_register(certificate: &Certificate, unit: u32, port: u32, reg: u32) -> Label
    ensures { result ≡ nth certificate.now.registers (unit * 1024 + port * 256 + reg) Unknown }
{
    label_at(
        &certificate.registers,
        unit as usize * 1024 + port as usize * 256 + reg as usize,
    )
}

/// The label that a cell starts a turn with.
pub fn first_cell(certificate: &Certificate, unit: u32, cell: u32) -> Label
    ensures { result ≡ nth certificate.now.cells (unit * 65536 + cell) Unknown }
{
    label_at(&certificate.cells, unit as usize * 65536 + cell as usize)
}

/// The last cycle in which a cell has what it holds when a turn starts, as the certificate has it.
pub fn fresh_in(certificate: &Certificate, unit: u32, cell: u32) -> u16
    ensures { result ≡ fresh_at certificate.now unit cell }
{
    cycle_at(&certificate.fresh, unit as usize * 65536 + cell as usize)
}

/// The first cycle in which it has what it holds when the turn ends.
pub fn settled_in(certificate: &Certificate, unit: u32, cell: u32) -> u16
    ensures { result ≡ settled_at certificate.now unit cell }
{
    cycle_at(&certificate.settled, unit as usize * 65536 + cell as usize)
}

/// The label of what a bus carries in a cycle.
fn driven_label(image: &Image, certificate: &Certificate, cycle: u16, bus: u8) -> Label
    requires { cycle < length image.now.words }
    ensures { result ≡ label_of_bus image.now certificate.now cycle
        (find (λ enable. enable.bus == bus) (word_of image.now cycle).enables) }
{
    match driver_of(word_in(image, cycle), bus) {
        Some(driver) => {
            let unit = u32::from(driver.unit);
            let delay = u16::from(delay_on(image, unit));
            issue_label(certificate, cycle.saturating_sub(delay), unit)
        }
        None => Label::Unknown,
    }
}

/// The label of a register at the start of a cycle.
fn register_label(
    image: &Image,
    certificate: &Certificate,
    unit: u32,
    port: u32,
    reg: u32,
    cycle: u16,
) -> Label
    requires { cycle ≤ length image.now.words }
    ensures { result ≡ label_of_register image.now certificate.now unit port reg cycle }
{
    for back in 0..cycle {
        let before = cycle - back - 1;
        if let Some(take) = take_into(word_in(image, before), unit, port, reg) {
            return driven_label(image, certificate, before, take.bus);
        }
    }
    first_register(certificate, unit, port, reg)
}

/// The label of a register at the start of a cycle, where it is not written since another one.
fn label_since(
    image: &Image,
    certificate: &Certificate,
    unit: u32,
    port: u32,
    reg: u32,
    since: u16,
    cycle: u16,
) -> Label
    requires cycle { cycle ≤ length image.now.words }
    requires unwritten { IsUnwritten image.now unit port reg since cycle }
    ensures { result ≡ label_of_register image.now certificate.now unit port reg cycle }
{
    if since < cycle {
        register_label(image, certificate, unit, port, reg, since)
    } else {
        register_label(image, certificate, unit, port, reg, cycle)
    }
}

/// The label of a register at the end of a turn, by the cycles since which registers are not written.
pub fn last_label(
    image: &Image,
    certificate: &Certificate,
    last: &[u16],
    unit: u32,
    port: u32,
    reg: u32,
    turn: u16,
) -> Label
    requires turn { turn ≡ length image.now.words }
    requires last { AreUnwritten image.now last.now turn }
    ensures { result ≡ label_of_register image.now certificate.now unit port reg turn }
{
    let index = register_index(unit, port, reg);
    if index < last.len() {
        label_since(image, certificate, unit, port, reg, last[index], turn)
    } else {
        register_label(image, certificate, unit, port, reg, turn)
    }
}

/// The label of a register at the start of a cycle in which its unit reads it, by the hints where they are right.
fn register_read(
    image: &Image,
    certificate: &Certificate,
    unit: u32,
    port: u32,
    reg: u32,
    cycle: u16,
    hints: Hints,
) -> Label
    requires cycle { cycle ≤ length image.now.words }
    requires right { AreRight image.now certificate.now hints }
    ensures { result ≡ label_of_register image.now certificate.now unit port reg cycle }
{
    let since = read_since(image, certificate, unit, port, reg, cycle, hints);
    label_since(image, certificate, unit, port, reg, since, cycle)
}

/// The label of what an issue of a cycle reads at a port.
pub fn operand_label(
    image: &Image,
    certificate: &Certificate,
    cycle: u16,
    issue: &Issue,
    port: u32,
    hints: Hints,
) -> Label
    requires cycle { cycle ≤ length image.now.words }
    requires right { AreRight image.now certificate.now hints }
    ensures { result ≡ label_of_operand image.now certificate.now cycle issue.now port }
{
    let reg = u32::from(register_at(&issue.regs, port));
    register_read(
        image,
        certificate,
        u32::from(issue.unit),
        port,
        reg,
        cycle,
        hints,
    )
}

/// Whether the issue of a cycle stores into a cell.
fn stores_into(
    image: &Image,
    certificate: &Certificate,
    cycle: u16,
    issue: &Issue,
    cell: u32,
    hints: Hints,
) -> bool
    requires cycle { cycle ≤ length image.now.words }
    requires right { AreRight image.now certificate.now hints }
    ensures { (before : LabelOf)
        → stored_label image.now certificate.now cycle cell (Some issue.now) before
        ≡ (if result then label_of_operand image.now certificate.now cycle issue.now 1 else before) }
{
    match issue.op {
        Op::Store => is_address(
            operand_label(image, certificate, cycle, issue, 0, hints),
            cell,
        ),
        _ => false,
    }
}

/// The label of a cell at the start of a cycle.
pub fn cell_label(
    image: &Image,
    certificate: &Certificate,
    unit: u32,
    cell: u32,
    cycle: u16,
    hints: Hints,
) -> Label
    requires cycle { cycle ≤ length image.now.words }
    requires right { AreRight image.now certificate.now hints }
    ensures { result ≡ label_of_cell image.now certificate.now unit cell cycle }
{
    let delay = u16::from(delay_on(image, unit));
    for back in 0..cycle {
        let before = cycle - back - 1;
        if let Some(issue) = ended_in(image, before, unit) {
            let issued = before.saturating_sub(delay);
            if stores_into(image, certificate, issued, issue, cell, hints) {
                return operand_label(image, certificate, issued, issue, 1, hints);
            }
        }
    }
    first_cell(certificate, unit, cell)
}
