//! Whether what registers and cells hold comes round with each turn.
ghost use Rattle.std.specs.Prelude.{◌≡◌, ◌<◌, ◌≤◌, ◌+◌, ◌↔◌, [], ℕ, length, ℤ, IsTrue, OnOk, OnErr};
ghost use Rattle.signal_graph.specs.Rules.{word_before as word_before_in};
ghost use Rattle.signal_graph.specs.GraphSolves.{node_of};
ghost use Rattle.micro_image.specs.Fields.{nth, unit_of, microprogram_of};
ghost use Rattle.micro_image.specs.Log.{Register, Cell, initial};
ghost use Rattle.micro_image.specs.Valid.{IsValid};
ghost use Rattle.image_labels.specs.Labels.{register_label as label_of_register, cell_label as label_of_cell};
ghost use Rattle.image_labels.specs.Labelled.{IsWordBefore, IsRegisterStart, IsCellStart};
ghost use Rattle.image_labels.specs.Private.Checked.{IsFileStart, AreFilesStart, AreRegistersStart, IsRamStart, AreCellsStart};
ghost use Rattle.image_labels.specs.Private.Written.{AreUnwritten, AreRight};

use crate::hardware::{
    cell_in, cells_on, files_on, initial_cell, initial_register, registers_on, word_before,
};
use crate::label::{Certificate, Hints, Label};
use crate::labels::{first_cell, first_register, is_signal, last_label, same_label};
use crate::mismatch::Mismatch;
use crate::settled::label_in;
use micro_image::Image;
use signal_graph::Graph;

/// Whether a word is that of a node before the run.
fn is_before(graph: &Graph, node: u32, sample: u32, word: i64) -> bool
    ensures { IsTrue result ↔ IsWordBefore graph.now node sample word }
{
    let v = node as usize;
    if v < graph.nodes.len() && 0 < sample && sample < 1024 {
        word == word_before(&graph.nodes[v].inits, 1024 - sample)
    } else {
        false
    }
}

fn later(sample: u32, samples: u8) -> u32
    ensures { sample < 1024 → result ≡ sample + samples }
{
    sample.saturating_add(u32::from(samples))
}

/// Whether a register comes round.
fn is_register_start(
    graph: &Graph,
    image: &Image,
    certificate: &Certificate,
    last: &[u16],
    unit: u32,
    port: u32,
    reg: u32,
    turn: u16,
) -> bool
    requires turn { turn ≡ length image.now.words }
    requires last { AreUnwritten image.now last.now turn }
    ensures { IsTrue result
        ↔ IsRegisterStart graph.now image.now certificate.now turn unit port reg }
{
    match first_register(certificate, unit, port, reg) {
        Label::Unknown => true,
        Label::Signal(node, sample) => {
            is_before(
                graph,
                node,
                sample,
                initial_register(image, unit, port, reg),
            ) && is_signal(
                last_label(image, certificate, last, unit, port, reg, turn),
                node,
                later(sample, image.unroll),
            )
        }
        Label::Address(_, _) => false,
        Label::Constant(word) => {
            initial_register(image, unit, port, reg) == word
                && same_label(
                    last_label(image, certificate, last, unit, port, reg, turn),
                    Label::Constant(word),
                )
        }
    }
}

/// Whether a cell comes round.
fn is_cell_start(
    graph: &Graph,
    image: &Image,
    certificate: &Certificate,
    unit: u32,
    cells: u32,
    cell: u32,
    turn: u16,
    hints: Hints,
) -> bool
    requires turn { turn ≡ length image.now.words }
    requires cell { cell < cells }
    requires right { AreRight image.now certificate.now hints }
    ensures { IsTrue result
        ↔ IsCellStart graph.now image.now certificate.now turn cells unit cell }
{
    match first_cell(certificate, unit, cell) {
        Label::Unknown => true,
        Label::Signal(node, sample) => {
            let last = cell_in(cells, u64::from(cell), u16::from(image.unroll)) as u32;
            is_before(graph, node, sample, initial_cell(image, unit, cell))
                && is_signal(
                    label_in(image, certificate, unit, last, turn, hints),
                    node,
                    later(sample, image.unroll),
                )
        }
        Label::Address(_, _) => false,
        Label::Constant(word) => {
            let last = cell_in(cells, u64::from(cell), u16::from(image.unroll)) as u32;
            initial_cell(image, unit, cell) == word
                && same_label(
                    label_in(image, certificate, unit, last, turn, hints),
                    Label::Constant(word),
                )
        }
    }
}

fn check_file(
    graph: &Graph,
    image: &Image,
    certificate: &Certificate,
    last: &[u16],
    unit: u32,
    port: u32,
    turn: u16,
) -> Result<(), Mismatch>
    requires turn { turn ≡ length image.now.words }
    requires last { AreUnwritten image.now last.now turn }
    ensures ok { OnOk result (IsFileStart graph.now image.now certificate.now turn unit port 256) }
    ensures err { OnErr result (IsFileStart graph.now image.now certificate.now turn unit port 256 → ⊥) }
{
    let registers = registers_on(image, unit, port);
    for reg in 0..256u32 {
        if (reg as usize) < registers
            && !is_register_start(graph, image, certificate, last, unit, port, reg, turn)
        {
            return Err(Mismatch::Register(unit, port, reg));
        }
    }
    Ok(())
}

fn check_files(
    graph: &Graph,
    image: &Image,
    certificate: &Certificate,
    last: &[u16],
    unit: u32,
    turn: u16,
) -> Result<(), Mismatch>
    requires turn { turn ≡ length image.now.words }
    requires last { AreUnwritten image.now last.now turn }
    ensures ok { OnOk result (AreFilesStart graph.now image.now certificate.now turn unit 3) }
    ensures err { OnErr result (AreFilesStart graph.now image.now certificate.now turn unit 3 → ⊥) }
{
    for port in 0..3u32 {
        if (port as usize) < files_on(image, unit) {
            check_file(graph, image, certificate, last, unit, port, turn)?;
        }
    }
    Ok(())
}

/// Checks what the registers start with, and hold at the end of a turn.
pub fn check_registers(
    graph: &Graph,
    image: &Image,
    certificate: &Certificate,
    last: &[u16],
    turn: u16,
) -> Result<(), Mismatch>
    requires turn { turn ≡ length image.now.words }
    requires last { AreUnwritten image.now last.now turn }
    ensures ok { OnOk result (AreRegistersStart graph.now image.now certificate.now turn 32) }
    ensures err { OnErr result (AreRegistersStart graph.now image.now certificate.now turn 32 → ⊥) }
{
    for unit in 0..32u32 {
        if (unit as usize) < image.units.len() {
            check_files(graph, image, certificate, last, unit, turn)?;
        }
    }
    Ok(())
}

fn check_ram(
    graph: &Graph,
    image: &Image,
    certificate: &Certificate,
    unit: u32,
    cells: u32,
    turn: u16,
    hints: Hints,
) -> Result<(), Mismatch>
    requires turn { turn ≡ length image.now.words }
    requires right { AreRight image.now certificate.now hints }
    ensures ok { OnOk result (IsRamStart graph.now image.now certificate.now turn cells unit cells) }
    ensures err { OnErr result (IsRamStart graph.now image.now certificate.now turn cells unit cells → ⊥) }
{
    for cell in 0..cells {
        if !is_cell_start(graph, image, certificate, unit, cells, cell, turn, hints) {
            return Err(Mismatch::Cell(unit, cell));
        }
    }
    Ok(())
}

/// Checks the same of the cells.
pub fn check_cells(
    graph: &Graph,
    image: &Image,
    certificate: &Certificate,
    turn: u16,
    hints: Hints,
) -> Result<(), Mismatch>
    requires valid { IsValid image.now }
    requires turn { turn ≡ length image.now.words }
    requires right { AreRight image.now certificate.now hints }
    ensures ok { OnOk result (AreCellsStart graph.now image.now certificate.now turn 32) }
    ensures err { OnErr result (AreCellsStart graph.now image.now certificate.now turn 32 → ⊥) }
{
    for unit in 0..32u32 {
        if (unit as usize) < image.units.len() {
            let cells = cells_on(image, unit) as u32;
            check_ram(graph, image, certificate, unit, cells, turn, hints)?;
        }
    }
    Ok(())
}
