//! Finds labels for an image by its graph: from each output to the nodes that it reads, and so on to what these read.
//! Nothing rests on what is found, as `validate` asks nothing of it.
ghost use Rattle.std.specs.Prelude.{◌<◌, ◌≤◌, length, IfSome};
ghost use Rattle.micro_image.specs.Valid.{IsValid};

use crate::copies::{edge_at, is_copy, representative};
use crate::fits::{does_at, done_node, first_output, sample_at};
use crate::hardware::{
    cell_in, cells_on, delay_on, driver_of, ended_in, issued_in, modulus_of, number_of,
    register_at, take_into, word_in,
};
use crate::label::{Certificate, Label, cycle_at};
use crate::labels::{first_cell, first_register, fresh_in, issue_label, settled_in};
use crate::operands::commutes;
use crate::written::{hint_index, note_takes, register_index};
use fix_word::Op;
use lists::List;
use micro_image::{Image, Issue};
use signal_graph::{Edges, Graph, Node};
use std::alloc::{AllocError, Global};

/// The most units of an image, and for how many a certificate has room in each cycle.
const UNITS: u32 = 32;
/// How many registers of a unit a certificate has room for.
const UNIT_REGISTERS: usize = 1024;
/// For how many operands in a cycle it has room.
const CYCLE_READS: usize = 96;
/// The most cells of a ram.
const CELLS: usize = 65536;
/// The most operands of an operation.
const PORTS: u32 = 3;
/// The port at which a store reads its word.
const WORD_PORT: u32 = 1;
/// What numbers are mixed by.
const MIXER: u64 = 0x9E37_79B9_7F4A_7C15;
/// A place at which no node is noted.
const FREE: u32 = u32::MAX;
/// How many places are looked at for a node.
const PROBES: u64 = 16;
/// More nodes than a graph has.
const MOST_NODES: usize = 1 << 30;

/// The word of a node in a sample, as labels count samples.
#[derive(Clone, Copy)]
struct Signal {
    node: u32,
    sample: u32,
}

#[derive(Clone, Copy)]
struct Register {
    unit: u32,
    port: u32,
    reg: u32,
}

/// What a unit is issued in a cycle of the turn, and the word that it comes to.
#[derive(Clone, Copy)]
struct Known {
    cycle: u16,
    unit: u32,
    signal: Signal,
}

/// What wrote a register last, before a cycle of the turn.
#[derive(Clone, Copy)]
enum Writer {
    /// What a unit was issued in a cycle.
    Issue { cycle: u16, unit: u32 },
    /// A take whose bus has no driver.
    NoDriver,
    /// Nothing in this turn.
    Nothing,
}

/// The labels that are found so far, the issues that have one, in the order in which it was found, and for each
/// register the cycle after the one in which it is written last in a turn, or 0.
#[derive(Drop)]
struct Search {
    certificate: Certificate,
    known: List<Known>,
    last: List<u16>,
}

/// So many zeros.
fn zeros(alloc: Global, count: usize) -> Result<List<u16>, AllocError> {
    let mut zeros = List::new(alloc);
    for _ in 0..count {
        zeros.push(0)?;
    }
    Ok(zeros)
}

/// So many labels of which nothing is known.
fn unknowns(alloc: Global, count: usize) -> Result<List<Label>, AllocError> {
    let mut labels = List::new(alloc);
    for _ in 0..count {
        labels.push(Label::Unknown)?;
    }
    Ok(labels)
}

fn put(labels: &mut List<Label>, index: usize, label: Label) {
    if index < labels.len() {
        labels[index] = label;
    }
}

fn put_signal(labels: &mut List<Label>, index: usize, signal: Signal) {
    put(labels, index, Label::Signal(signal.node, signal.sample));
}

/// What writes a register in the cycle before one, if there is one before.
fn writer_before(image: &Image, register: Register, after: u16) -> Writer {
    if after == 0 || usize::from(after) > image.words.len() {
        return Writer::Nothing;
    }
    let Register { unit, port, reg } = register;
    let word = word_in(image, after - 1);
    match take_into(word, unit, port, reg) {
        Some(take) => match driver_of(word, take.bus) {
            Some(driver) => {
                let unit = u32::from(driver.unit);
                let delay = u16::from(delay_on(image, unit));
                Writer::Issue {
                    cycle: (after - 1).saturating_sub(delay),
                    unit,
                }
            }
            None => Writer::NoDriver,
        },
        None => Writer::Nothing,
    }
}

/// What writes a register last before the cycle in which its unit reads it.
fn writer_of(image: &Image, certificate: &Certificate, register: Register, cycle: u16) -> Writer {
    let index = hint_index(cycle, register.unit, register.port);
    writer_before(image, register, cycle_at(&certificate.written, index))
}

/// What writes a register last in a turn.
fn last_writer_of(image: &Image, last: &List<u16>, register: Register) -> Writer {
    let Register { unit, port, reg } = register;
    writer_before(
        image,
        register,
        cycle_at(last, register_index(unit, port, reg)),
    )
}

/// The label of what an issue of a cycle reads at a port.
fn label_read(
    image: &Image,
    certificate: &Certificate,
    cycle: u16,
    issue: &Issue,
    port: u32,
) -> Label {
    let register = read_register(issue, u32::from(issue.unit), port);
    match writer_of(image, certificate, register, cycle) {
        Writer::Issue { cycle, unit } => issue_label(certificate, cycle, unit),
        Writer::NoDriver => Label::Unknown,
        Writer::Nothing => first_register(certificate, register.unit, port, register.reg),
    }
}

/// The cell that an issue of a cycle stores into, if it stores.
fn cell_of(image: &Image, certificate: &Certificate, cycle: u16, issue: &Issue) -> Option<u32> {
    if !matches!(issue.op, Op::Store) {
        return None;
    }
    match label_read(image, certificate, cycle, issue, 0) {
        Label::Address(_, cell) => Some(cell),
        _ => None,
    }
}

/// The cycle in which the last store into a cell was issued that ended before a cycle.
fn storer_of(
    image: &Image,
    certificate: &Certificate,
    unit: u32,
    cell: u32,
    cycle: u16,
) -> Option<u16>
    requires { cycle ≤ length image.now.words }
{
    if settled_in(certificate, unit, cell) <= cycle {
        return last_storer_of(image, certificate, unit, cell);
    }
    if cycle <= fresh_in(certificate, unit, cell) {
        return None;
    }
    let delay = u16::from(delay_on(image, unit));
    for back in 0..cycle {
        let before = cycle - back - 1;
        if let Some(issue) = ended_in(image, before, unit) {
            let issued = before.saturating_sub(delay);
            if cell_of(image, certificate, issued, issue) == Some(cell) {
                return Some(issued);
            }
        }
    }
    None
}

/// The cycle in which the last store of a turn into a cell was issued.
fn last_storer_of(image: &Image, certificate: &Certificate, unit: u32, cell: u32) -> Option<u16> {
    let delay = u16::from(delay_on(image, unit));
    match settled_in(certificate, unit, cell) {
        0 => None,
        settled => Some((settled - 1).saturating_sub(delay)),
    }
}

/// The register whose word a unit stores that is issued a store in a cycle.
fn stored_register(image: &Image, cycle: u16, unit: u32) -> Register {
    let mut reg = 0;
    if usize::from(cycle) < image.words.len()
        && let Some(issue) = issued_in(word_in(image, cycle), unit)
    {
        reg = u32::from(register_at(&issue.regs, WORD_PORT));
    }
    Register {
        unit,
        port: WORD_PORT,
        reg,
    }
}

/// The same word as the turn before counts its sample.
fn a_turn_later(image: &Image, signal: Signal) -> Signal {
    Signal {
        node: signal.node,
        sample: signal.sample.saturating_add(u32::from(image.unroll)),
    }
}

/// Whether an issue is a pass that moves a word as it is, and no node's own of that sample.
fn moves(graph: &Graph, image: &Image, issue: &Issue, cycle: u16, signal: Signal) -> bool
    requires { IsValid image.now }
{
    let own = does_at(graph, issue, signal.node) && signal.sample == sample_at(image, cycle);
    matches!(issue.op, Op::Pass) && issue.fmt.shift == 0 && !own
}

/// The label of an issue that is to come to a word: that word of a load and of a pass that moves it, and else the node's
/// of its own sample, if it does what the node does or gives its word at once.
fn label_for(
    graph: &Graph,
    image: &Image,
    issue: &Issue,
    cycle: u16,
    signal: Signal,
) -> Option<Signal>
    requires { IsValid image.now }
{
    if matches!(issue.op, Op::Load) || moves(graph, image, issue, cycle, signal) {
        return Some(signal);
    }
    done_node(graph, issue, signal.node)?;
    Some(Signal {
        node: signal.node,
        sample: sample_at(image, cycle),
    })
}

/// Notes what an issue comes to that has no label yet.
fn want_issue(
    search: &mut Search,
    graph: &Graph,
    image: &Image,
    cycle: u16,
    unit: u32,
    signal: Signal,
) -> Result<(), AllocError>
    requires { IsValid image.now }
{
    if usize::from(cycle) < image.words.len()
        && matches!(
            issue_label(&search.certificate, cycle, unit),
            Label::Unknown
        )
        && let Some(issue) = issued_in(word_in(image, cycle), unit)
        && let Some(signal) = label_for(graph, image, issue, cycle, signal)
    {
        let index = usize::from(cycle) * UNITS as usize + unit as usize;
        put_signal(&mut search.certificate.issues, index, signal);
        search.known.push(Known {
            cycle,
            unit,
            signal,
        })?;
    }
    Ok(())
}

/// Notes what a register holds when a turn starts.
fn put_register(search: &mut Search, register: Register, label: Label) {
    let Register { unit, port, reg } = register;
    let index = register_index(unit, port, reg);
    put(&mut search.certificate.registers, index, label);
}

/// Notes the word of a constant in a register that no cycle writes.
fn put_constant(search: &mut Search, graph: &Graph, register: Register, signal: Signal) {
    let node = signal.node as usize;
    if node < graph.nodes.len() && matches!(graph.nodes[node].op, Op::Const) {
        let label = Label::Constant(graph.nodes[node].arg);
        put_register(search, register, label);
    }
}

/// Notes the word that a register holds when the turn starts, by what the issue comes to that wrote it last, in the turn
/// before.
fn put_first(search: &mut Search, image: &Image, register: Register, cycle: u16, unit: u32) {
    let label = match issue_label(&search.certificate, cycle, unit) {
        Label::Signal(node, sample) => {
            Label::Signal(node, sample.saturating_sub(u32::from(image.unroll)))
        }
        Label::Constant(word) => Label::Constant(word),
        _ => Label::Unknown,
    };
    put_register(search, register, label);
}

/// Notes the word that a register holds when the turn starts, and what the issue comes to by which it does, in the turn
/// before.
fn want_first(
    search: &mut Search,
    graph: &Graph,
    image: &Image,
    register: Register,
    signal: Signal,
) -> Result<(), AllocError>
    requires { IsValid image.now }
{
    match last_writer_of(image, &search.last, register) {
        Writer::Issue { cycle, unit } => {
            want_issue(
                search,
                graph,
                image,
                cycle,
                unit,
                a_turn_later(image, signal),
            )?;
            put_first(search, image, register, cycle, unit);
            Ok(())
        }
        Writer::NoDriver => Ok(()),
        Writer::Nothing => {
            put_constant(search, graph, register, signal);
            Ok(())
        }
    }
}

/// Notes the word that a register holds at the start of a cycle.
fn want_register(
    search: &mut Search,
    graph: &Graph,
    image: &Image,
    register: Register,
    cycle: u16,
    signal: Signal,
) -> Result<(), AllocError>
    requires { IsValid image.now }
{
    match writer_of(image, &search.certificate, register, cycle) {
        Writer::Issue { cycle, unit } => want_issue(search, graph, image, cycle, unit, signal),
        Writer::NoDriver => Ok(()),
        Writer::Nothing => want_first(search, graph, image, register, signal),
    }
}

/// Notes the word of a cell when the turn starts: of the store that it comes from in a turn before, and of the cell at
/// the start of each turn since.
fn want_kept(
    search: &mut Search,
    graph: &Graph,
    image: &Image,
    unit: u32,
    cell: u32,
    signal: Signal,
) -> Result<(), AllocError>
    requires { IsValid image.now }
{
    let cells = cells_on(image, unit);
    if cells == 0 || cells > CELLS {
        return Ok(());
    }
    let (mut cell, mut signal) = (cell, signal);
    for _ in 0..cells {
        if !matches!(first_cell(&search.certificate, unit, cell), Label::Unknown) {
            return Ok(());
        }
        let index = unit as usize * CELLS + cell as usize;
        put_signal(&mut search.certificate.cells, index, signal);
        cell = cell_in(cells as u32, u64::from(cell), u16::from(image.unroll)) as u32;
        signal = a_turn_later(image, signal);
        if let Some(issued) = last_storer_of(image, &search.certificate, unit, cell) {
            let register = stored_register(image, issued, unit);
            return want_stored(search, graph, image, register, issued, signal);
        }
    }
    Ok(())
}

/// Notes the word that a store reads which was issued in a cycle.
fn want_stored(
    search: &mut Search,
    graph: &Graph,
    image: &Image,
    register: Register,
    cycle: u16,
    signal: Signal,
) -> Result<(), AllocError>
    requires { IsValid image.now }
{
    if usize::from(cycle) < image.words.len() {
        want_register(search, graph, image, register, cycle, signal)?;
    }
    Ok(())
}

/// Notes the word that a cell holds at the start of a cycle.
fn want_cell(
    search: &mut Search,
    graph: &Graph,
    image: &Image,
    unit: u32,
    cell: u32,
    cycle: u16,
    signal: Signal,
) -> Result<(), AllocError>
    requires valid { IsValid image.now }
    requires cycle { cycle ≤ length image.now.words }
{
    match storer_of(image, &search.certificate, unit, cell, cycle) {
        Some(issued) => {
            let register = stored_register(image, issued, unit);
            want_stored(search, graph, image, register, issued, signal)
        }
        None => want_kept(search, graph, image, unit, cell, signal),
    }
}

/// Notes the word of the cell that a load reads.
fn want_loaded(
    search: &mut Search,
    graph: &Graph,
    image: &Image,
    issue: &Issue,
    known: Known,
) -> Result<(), AllocError>
    requires valid { IsValid image.now }
    requires cycle { known.cycle ≤ length image.now.words }
{
    let Known {
        cycle,
        unit,
        signal,
    } = known;
    match label_read(image, &search.certificate, cycle, issue, 0) {
        Label::Address(_, cell) => want_cell(search, graph, image, unit, cell, cycle, signal),
        _ => Ok(()),
    }
}

/// The register that an issue reads at a port.
fn read_register(issue: &Issue, unit: u32, port: u32) -> Register {
    Register {
        unit,
        port,
        reg: u32::from(register_at(&issue.regs, port)),
    }
}

/// The word of an operand in a sample, by the node that stands for its own.
fn operand_signal(certificate: &Certificate, edges: &Edges, operand: u32, sample: u32) -> Signal {
    let edge = edge_at(edges, operand);
    Signal {
        node: representative(&certificate.representatives, edge.node),
        sample: sample.saturating_sub(u32::from(edge.delay)),
    }
}

/// What writes a register last before the cycle in which its unit reads it, or in the turn before, and so many samples
/// ago it counts.
fn last_writer(
    search: &Search,
    image: &Image,
    register: Register,
    cycle: u16,
) -> Option<(u16, u32, u32)> {
    match writer_of(image, &search.certificate, register, cycle) {
        Writer::Issue { cycle, unit } => Some((cycle, unit, 0)),
        Writer::NoDriver => None,
        Writer::Nothing => match last_writer_of(image, &search.last, register) {
            Writer::Issue { cycle, unit } => Some((cycle, unit, u32::from(image.unroll))),
            _ => None,
        },
    }
}

/// Whether an issue may come to a word, as far as it itself shows.
fn may_give(graph: &Graph, image: &Image, issue: &Issue, cycle: u16, signal: Signal) -> bool
    requires { IsValid image.now }
{
    let done = done_node(graph, issue, signal.node).is_some();
    let own = done && signal.sample == sample_at(image, cycle);
    own || matches!(issue.op, Op::Load) || moves(graph, image, issue, cycle, signal)
}

/// The issue that wrote a register last before its unit reads it in a cycle, and what it comes to if the register holds
/// this word then.
fn written(
    search: &Search,
    image: &Image,
    register: Register,
    cycle: u16,
    signal: Signal,
) -> Option<Known> {
    let (cycle, unit, later) = last_writer(search, image, register, cycle)?;
    let Signal { node, sample } = signal;
    let sample = sample.saturating_add(later);
    Some(Known {
        cycle,
        unit,
        signal: Signal { node, sample },
    })
}

/// Whether an issue may come to its word, as far as it itself shows.
fn may_come(graph: &Graph, image: &Image, known: Known) -> bool
    requires { IsValid image.now }
{
    usize::from(known.cycle) < image.words.len()
        && match issued_in(word_in(image, known.cycle), known.unit) {
            Some(issue) => may_give(graph, image, issue, known.cycle, known.signal),
            None => false,
        }
}

/// Whether an issue may read an operand of a node at a port.
fn may_read(
    search: &Search,
    graph: &Graph,
    image: &Image,
    issue: &Issue,
    known: Known,
    edges: &Edges,
    port: u32,
    operand: u32,
) -> bool
    requires { IsValid image.now }
{
    let register = read_register(issue, known.unit, port);
    let signal = operand_signal(
        &search.certificate,
        edges,
        operand,
        sample_at(image, known.cycle),
    );
    match written(search, image, register, known.cycle, signal) {
        Some(known) => may_come(graph, image, known),
        None => true,
    }
}

/// Whether an issue may read a node's operands, in either order where it gives the same.
fn may_read_both(
    search: &Search,
    graph: &Graph,
    image: &Image,
    issue: &Issue,
    known: Known,
    edges: &Edges,
) -> bool
    requires { IsValid image.now }
{
    (may_read(search, graph, image, issue, known, edges, 0, 0)
        && (edges.len() < 2 || may_read(search, graph, image, issue, known, edges, 1, 1)))
        || (commutes(issue.op)
            && may_read(search, graph, image, issue, known, edges, 0, 1)
            && may_read(search, graph, image, issue, known, edges, 1, 0))
}

/// Whether an issue may read the operands of a node, if it has any.
fn may_read_node(
    search: &Search,
    graph: &Graph,
    image: &Image,
    issue: &Issue,
    known: Known,
    node: u32,
) -> bool
    requires { IsValid image.now }
{
    let node = node as usize;
    if node >= graph.nodes.len() {
        return false;
    }
    let edges = &graph.nodes[node].edges;
    edges.is_empty() || may_read_both(search, graph, image, issue, known, edges)
}

/// Whether an issue may come to its word, as far as the issues show that wrote what it reads.
fn may_come_by_reads(search: &Search, graph: &Graph, image: &Image, known: Known) -> bool
    requires { IsValid image.now }
{
    if usize::from(known.cycle) >= image.words.len() {
        return false;
    }
    match issued_in(word_in(image, known.cycle), known.unit) {
        Some(issue) => match done_node(graph, issue, known.signal.node) {
            Some(node) => may_read_node(search, graph, image, issue, known, node),
            None => true,
        },
        None => false,
    }
}

/// Whether an issue may read an operand of a node at a port, as far as the issues show that wrote what its writer reads.
fn may_read_by_reads(
    search: &Search,
    graph: &Graph,
    image: &Image,
    issue: &Issue,
    known: Known,
    edges: &Edges,
    port: u32,
    operand: u32,
) -> bool
    requires { IsValid image.now }
{
    let register = read_register(issue, known.unit, port);
    let signal = operand_signal(
        &search.certificate,
        edges,
        operand,
        sample_at(image, known.cycle),
    );
    match written(search, image, register, known.cycle, signal) {
        Some(known) => may_come_by_reads(search, graph, image, known),
        None => true,
    }
}

/// Whether an issue reads the two operands of a node exchanged, as far as the issues show that wrote them, and where
/// these may be either, those that wrote what they read.
fn is_exchanged(
    search: &Search,
    graph: &Graph,
    image: &Image,
    issue: &Issue,
    known: Known,
    edges: &Edges,
) -> bool
    requires { IsValid image.now }
{
    if !commutes(issue.op)
        || !may_read(search, graph, image, issue, known, edges, 0, 1)
        || !may_read(search, graph, image, issue, known, edges, 1, 0)
    {
        return false;
    }
    !(may_read(search, graph, image, issue, known, edges, 0, 0)
        && may_read(search, graph, image, issue, known, edges, 1, 1)
        && may_read_by_reads(search, graph, image, issue, known, edges, 0, 0)
        && may_read_by_reads(search, graph, image, issue, known, edges, 1, 1))
}

/// The operand that an issue reads at a port.
fn operand_at(exchanged: bool, port: u32) -> u32 {
    match (exchanged, port) {
        (true, 0) => 1,
        (true, 1) => 0,
        _ => port,
    }
}

/// Notes the words that the operands of a node are, at the registers that an issue reads.
fn want_operands(
    search: &mut Search,
    graph: &Graph,
    image: &Image,
    issue: &Issue,
    known: Known,
) -> Result<(), AllocError>
    requires { IsValid image.now }
{
    let node = match done_node(graph, issue, known.signal.node) {
        Some(node) => node as usize,
        None => return Ok(()),
    };
    if node >= graph.nodes.len() {
        return Ok(());
    }
    let edges = &graph.nodes[node].edges;
    let exchanged = is_exchanged(search, graph, image, issue, known, edges);
    for port in 0..PORTS {
        if (port as usize) < edges.len() {
            let register = read_register(issue, known.unit, port);
            let operand = operand_at(exchanged, port);
            let sample = sample_at(image, known.cycle);
            let signal = operand_signal(&search.certificate, edges, operand, sample);
            want_register(search, graph, image, register, known.cycle, signal)?;
        }
    }
    Ok(())
}

/// Notes the word that a pass moves.
fn want_moved(
    search: &mut Search,
    graph: &Graph,
    image: &Image,
    issue: &Issue,
    known: Known,
) -> Result<(), AllocError>
    requires { IsValid image.now }
{
    let register = read_register(issue, known.unit, 0);
    want_register(search, graph, image, register, known.cycle, known.signal)
}

/// Notes the words that an issue reads whose own word is known.
fn want_reads(
    search: &mut Search,
    graph: &Graph,
    image: &Image,
    known: Known,
) -> Result<(), AllocError>
    requires { IsValid image.now }
{
    if usize::from(known.cycle) >= image.words.len() {
        return Ok(());
    }
    match issued_in(word_in(image, known.cycle), known.unit) {
        Some(issue) => match issue.op {
            Op::Load => want_loaded(search, graph, image, issue, known),
            _ if moves(graph, image, issue, known.cycle, known.signal) => {
                want_moved(search, graph, image, issue, known)
            }
            _ => want_operands(search, graph, image, issue, known),
        },
        None => Ok(()),
    }
}

/// Notes the cell that the address is of which a unit is issued in a cycle, if it is issued one.
fn put_address(image: &Image, labels: &mut List<Label>, cycle: u16, unit: u32, issue: &Issue)
    requires { IsValid image.now }
{
    let cells = modulus_of(image, unit);
    if matches!(issue.op, Op::Addr) && 0 < cells && cells <= CELLS {
        let cells = cells as u32;
        let cell = cell_in(cells, number_of(issue.arg), cycle / image.period) as u32;
        let index = usize::from(cycle) * UNITS as usize + unit as usize;
        put(labels, index, Label::Address(cells, cell));
    }
}

/// Whether a node is a constant.
fn is_const(graph: &Graph, node: u32) -> bool {
    let node = node as usize;
    node < graph.nodes.len() && matches!(graph.nodes[node].op, Op::Const)
}

/// Whether one of the edges leads to a constant of an earlier sample.
fn reads_constant_late(graph: &Graph, edges: &Edges) -> bool {
    for port in 0..PORTS {
        let edge = edge_at(edges, port);
        if (port as usize) < edges.len() && 0 < edge.delay && is_const(graph, edge.node) {
            return true;
        }
    }
    false
}

/// Whether a node reads a constant of an earlier sample: before sample 0 its word is another one.
fn reads_constants_late(graph: &Graph) -> bool {
    for v in 0..graph.nodes.len() {
        if reads_constant_late(graph, &graph.nodes[v].edges) {
            return true;
        }
    }
    false
}

/// Notes the word that a unit is issued in a cycle, if it is issued a constant.
fn put_const(labels: &mut List<Label>, cycle: u16, unit: u32, issue: &Issue) {
    if matches!(issue.op, Op::Const) {
        let index = usize::from(cycle) * UNITS as usize + unit as usize;
        put(labels, index, Label::Constant(issue.arg));
    }
}

/// Notes the words of constants.
fn put_constants(image: &Image, labels: &mut List<Label>, turn: u16)
    requires valid { IsValid image.now }
    requires turn { turn ≤ length image.now.words }
{
    for cycle in 0..turn {
        for unit in 0..UNITS {
            if let Some(issue) = issued_in(word_in(image, cycle), unit) {
                put_const(labels, cycle, unit, issue);
            }
        }
    }
}

/// Notes the cells that addresses are of.
fn put_addresses(image: &Image, labels: &mut List<Label>, turn: u16)
    requires valid { IsValid image.now }
    requires turn { turn ≤ length image.now.words }
{
    for cycle in 0..turn {
        for unit in 0..UNITS {
            if let Some(issue) = issued_in(word_in(image, cycle), unit) {
                put_address(image, labels, cycle, unit, issue);
            }
        }
    }
}

/// The cell that a store is into which ends on a unit in a cycle.
fn cell_stored(image: &Image, certificate: &Certificate, cycle: u16, unit: u32) -> Option<u32>
    requires { cycle < length image.now.words }
{
    let issue = ended_in(image, cycle, unit)?;
    let issued = cycle.saturating_sub(u16::from(delay_on(image, unit)));
    cell_of(image, certificate, issued, issue)
}

/// Notes that a store ends in a cycle, behind all that were noted.
fn note_store(certificate: &mut Certificate, index: usize, cycle: u16) {
    if index < certificate.settled.len() && index < certificate.fresh.len() {
        if certificate.settled[index] == 0 {
            certificate.fresh[index] = cycle;
        }
        certificate.settled[index] = cycle.saturating_add(1);
    }
}

/// Notes the first and the last store of a turn into each cell.
fn put_stores(image: &Image, certificate: &mut Certificate, turn: u16)
    requires { turn ≤ length image.now.words }
{
    for cycle in 0..turn {
        for unit in 0..UNITS {
            if let Some(cell) = cell_stored(image, certificate, cycle, unit) {
                let index = unit as usize * CELLS + cell as usize;
                note_store(certificate, index, cycle);
            }
        }
    }
}

/// Notes since when the registers are not written that an issue of a cycle reads.
fn put_reads_of(written: &mut List<u16>, last: &List<u16>, cycle: u16, issue: &Issue) {
    let unit = u32::from(issue.unit);
    for port in 0..PORTS {
        let reg = u32::from(register_at(&issue.regs, port));
        let index = hint_index(cycle, unit, port);
        if index < written.len() {
            written[index] = cycle_at(last, register_index(unit, port, reg));
        }
    }
}

/// Notes since when the registers are not written that the issues of a cycle read.
fn put_reads_in(image: &Image, written: &mut List<u16>, last: &List<u16>, cycle: u16)
    requires { cycle < length image.now.words }
{
    for issue in word_in(image, cycle).issues.iter() {
        put_reads_of(written, last, cycle, issue);
    }
}

/// Notes since when registers are not written: those that are read, and all at the end of a turn.
fn put_writes(image: &Image, written: &mut List<u16>, last: &mut List<u16>, turn: u16)
    requires { turn ≤ length image.now.words }
{
    for cycle in 0..turn {
        put_reads_in(image, written, last, cycle);
        note_takes(image, last, cycle);
    }
}

/// The node whose word an output puts.
fn output_node(graph: &Graph, issue: &Issue) -> Option<u32> {
    let first = first_output(graph);
    let number = number_of(issue.arg);
    if matches!(issue.op, Op::Output) && first < MOST_NODES && number < 256 {
        Some(first as u32 + number as u32)
    } else {
        None
    }
}

/// Notes the words of the outputs.
fn want_outputs(
    search: &mut Search,
    graph: &Graph,
    image: &Image,
    turn: u16,
) -> Result<(), AllocError>
    requires valid { IsValid image.now }
    requires turn { turn ≤ length image.now.words }
{
    for cycle in 0..turn {
        let sample = sample_at(image, cycle);
        for unit in 0..UNITS {
            if let Some(issue) = issued_in(word_in(image, cycle), unit)
                && let Some(node) = output_node(graph, issue)
            {
                want_issue(search, graph, image, cycle, unit, Signal { node, sample })?;
            }
        }
    }
    Ok(())
}

/// A number that copies of a node share.
fn mix(nodes: &List<u32>, node: &Node) -> u64 {
    let mut mixed = u64::from(node.fmt.width).wrapping_add(node.arg.unsigned_abs());
    for port in 0..PORTS {
        let edge = edge_at(&node.edges, port);
        let operand = u64::from(representative(nodes, edge.node));
        mixed = mixed
            .wrapping_mul(MIXER)
            .wrapping_add(operand)
            .wrapping_mul(MIXER)
            .wrapping_add(u64::from(edge.delay));
    }
    mixed
}

/// The first place that is free or has a node that one is a copy of, from that of the number that copies share on.
fn place_of(graph: &Graph, nodes: &List<u32>, places: &List<u32>, v: u32) -> Option<usize>
    requires { v < length graph.now.nodes }
    ensures { IfSome result (λ place. place < length places.now) }
{
    let count = places.len();
    if count == 0 {
        return None;
    }
    let first = mix(nodes, &graph.nodes[v as usize]);
    for probe in 0..PROBES {
        let place = (first.wrapping_add(probe) % count as u64) as usize;
        let other = places[place];
        if other == FREE || is_copy(graph, nodes, v, other) {
            return Some(place);
        }
    }
    None
}

/// Finds the node that stands for a node: one of which it is a copy, or itself, which is noted then.
fn put_representative(graph: &Graph, nodes: &mut List<u32>, places: &mut List<u32>, v: u32)
    requires { v < length graph.now.nodes }
{
    if let Some(place) = place_of(graph, nodes, places, v) {
        let other = places[place];
        if other == FREE {
            places[place] = v;
        } else if (v as usize) < nodes.len() {
            nodes[v as usize] = other;
        }
    }
}

/// The numbers below one.
fn numbers(alloc: Global, count: u32) -> Result<List<u32>, AllocError> {
    let mut numbers = List::new(alloc);
    for number in 0..count {
        numbers.push(number)?;
    }
    Ok(numbers)
}

/// So many places that are free.
fn free_places(alloc: Global, count: u32) -> Result<List<u32>, AllocError> {
    let mut places = List::new(alloc);
    for _ in 0..count {
        places.push(FREE)?;
    }
    Ok(places)
}

/// For each node one that stands for it: itself, or one below it of which it is a copy.
fn representatives(alloc: Global, graph: &Graph) -> Result<List<u32>, AllocError> {
    let count = if graph.nodes.len() < MOST_NODES {
        graph.nodes.len() as u32
    } else {
        0
    };
    let mut nodes = numbers(alloc, count)?;
    let mut places = free_places(alloc, 2 * count)?;
    for v in 0..count {
        put_representative(graph, &mut nodes, &mut places, v);
    }
    Ok(nodes)
}

/// How many units an image has.
fn count_units(image: &Image) -> usize
    ensures { result ≤ 32 }
{
    let units = image.units.len();
    let most = UNITS as usize;
    if units < most { units } else { most }
}

/// Labels of an image by its graph, as far as they are found.
pub fn recover(alloc: Global, graph: &Graph, image: &Image) -> Result<Certificate, AllocError>
    requires { IsValid image.now }
{
    let turn = image.words.len() as u16;
    let units = count_units(image);
    let issues = usize::from(turn) * UNITS as usize;
    let mut search = Search {
        certificate: Certificate {
            representatives: representatives(alloc, graph)?,
            issues: unknowns(alloc, issues)?,
            registers: unknowns(alloc, units * UNIT_REGISTERS)?,
            cells: unknowns(alloc, units * CELLS)?,
            fresh: zeros(alloc, units * CELLS)?,
            settled: zeros(alloc, units * CELLS)?,
            written: zeros(alloc, usize::from(turn) * CYCLE_READS)?,
        },
        known: List::new(alloc),
        last: zeros(alloc, units * UNIT_REGISTERS)?,
    };
    put_writes(
        image,
        &mut search.certificate.written,
        &mut search.last,
        turn,
    );
    put_addresses(image, &mut search.certificate.issues, turn);
    put_stores(image, &mut search.certificate, turn);
    if !reads_constants_late(graph) {
        put_constants(image, &mut search.certificate.issues, turn);
    }
    want_outputs(&mut search, graph, image, turn)?;
    for next in 0..issues {
        if next < search.known.len() {
            let known = search.known[next];
            want_reads(&mut search, graph, image, known)?;
        }
    }
    Ok(search.certificate)
}
