//! The labels of cells, by hints of the certificate on the first and the last store into each.
ghost use Rattle.std.specs.Prelude.{◌≡◌, ◌<◌, ◌≤◌, ℕ, length, IsTrue, Some};
ghost use Rattle.image_labels.specs.declared.label.Label.{Label as LabelOf};
ghost use Rattle.image_labels.specs.Labels.{cell_label as label_of_cell, stored_label};
ghost use Rattle.image_labels.specs.Private.Settled.{fresh_at, settled_at, IsQuiet, LeavesQuiet, AreQuiet, AreAllQuiet};
ghost use Rattle.image_labels.specs.Private.Written.{AreRight};

use crate::hardware::{delay_on, ended_in};
use crate::label::{Certificate, Hints, Label};
use crate::labels::{cell_label, first_cell, fresh_in, operand_label, settled_in};
use fix_word::Op;
use micro_image::{Image, Issue};

/// Whether an issue stores into no cell that is quiet in the cycle in which the issue ends.
fn spares(
    image: &Image,
    certificate: &Certificate,
    unit: u32,
    ends: u16,
    cycle: u16,
    issue: &Issue,
    hints: Hints,
) -> bool
    requires cycle { cycle ≤ length image.now.words }
    requires right { AreRight image.now certificate.now hints }
    ensures { IsTrue result → (x : ℕ) → IsQuiet certificate.now unit x ends → (before : LabelOf)
        → stored_label image.now certificate.now cycle x (Some issue.now) before ≡ before }
{
    match issue.op {
        Op::Store => match operand_label(image, certificate, cycle, issue, 0, hints) {
            Label::Address(_, cell) => {
                fresh_in(certificate, unit, cell) <= ends
                    && ends < settled_in(certificate, unit, cell)
            }
            _ => true,
        },
        _ => true,
    }
}

/// Whether what ends on a unit in a cycle stores into no cell that is quiet then.
fn leaves_quiet(
    image: &Image,
    certificate: &Certificate,
    unit: u32,
    cycle: u16,
    hints: Hints,
) -> bool
    requires cycle { cycle < length image.now.words }
    requires right { AreRight image.now certificate.now hints }
    ensures { IsTrue result → LeavesQuiet image.now certificate.now unit cycle }
{
    match ended_in(image, cycle, unit) {
        Some(issue) => {
            let issued = cycle.saturating_sub(u16::from(delay_on(image, unit)));
            spares(image, certificate, unit, cycle, issued, issue, hints)
        }
        None => true,
    }
}

fn are_quiet(image: &Image, certificate: &Certificate, unit: u32, turn: u16, hints: Hints) -> bool
    requires turn { turn ≡ length image.now.words }
    requires right { AreRight image.now certificate.now hints }
    ensures { IsTrue result → AreQuiet image.now certificate.now unit (length image.now.words) }
{
    for cycle in 0..turn {
        if !leaves_quiet(image, certificate, unit, cycle, hints) {
            return false;
        }
    }
    true
}

/// Whether all stores are where the certificate has them. Else each cell is looked for in all cycles, and the answers are
/// the same.
pub fn are_all_quiet(image: &Image, certificate: &Certificate, turn: u16, hints: Hints) -> bool
    requires turn { turn ≡ length image.now.words }
    requires right { AreRight image.now certificate.now hints }
    ensures { IsTrue result → AreAllQuiet image.now certificate.now 32 }
{
    for unit in 0..32u32 {
        if !are_quiet(image, certificate, unit, turn, hints) {
            return false;
        }
    }
    true
}

/// The label of a cell in a cycle, which is that of the turn's start up to its first store.
fn fresh_label(
    image: &Image,
    certificate: &Certificate,
    unit: u32,
    cell: u32,
    cycle: u16,
    hints: Hints,
) -> Label
    requires cycle { cycle ≤ length image.now.words }
    requires right { AreRight image.now certificate.now hints }
    requires quiet { AreQuiet image.now certificate.now unit (length image.now.words) }
    ensures { result ≡ label_of_cell image.now certificate.now unit cell cycle }
{
    let fresh = fresh_in(certificate, unit, cell);
    if fresh < cycle {
        cell_label(image, certificate, unit, cell, cycle, hints)
    } else {
        cell_label(image, certificate, unit, cell, 0, hints)
    }
}

/// The label of a cell in a cycle, which is that of the turn's end from its last store on.
fn settled_label(
    image: &Image,
    certificate: &Certificate,
    unit: u32,
    cell: u32,
    cycle: u16,
    hints: Hints,
) -> Label
    requires cycle { cycle ≤ length image.now.words }
    requires right { AreRight image.now certificate.now hints }
    requires quiet { AreQuiet image.now certificate.now unit (length image.now.words) }
    ensures { result ≡ label_of_cell image.now certificate.now unit cell cycle }
{
    let settled = settled_in(certificate, unit, cell);
    if settled < cycle {
        cell_label(image, certificate, unit, cell, settled, hints)
    } else {
        fresh_label(image, certificate, unit, cell, cycle, hints)
    }
}

/// The label of a cell at the start of a cycle, by the hints where they are right.
pub fn label_in(
    image: &Image,
    certificate: &Certificate,
    unit: u32,
    cell: u32,
    cycle: u16,
    hints: Hints,
) -> Label
    requires cycle { cycle ≤ length image.now.words }
    requires right { AreRight image.now certificate.now hints }
    ensures { result ≡ label_of_cell image.now certificate.now unit cell cycle }
{
    if hints.stores {
        if unit < 32 {
            return settled_label(image, certificate, unit, cell, cycle, hints);
        }
    }
    cell_label(image, certificate, unit, cell, cycle, hints)
}
