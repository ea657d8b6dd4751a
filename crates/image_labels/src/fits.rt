//! Whether the issues of a cycle fit their labels.
ghost use Rattle.std.specs.Prelude.{◌≡◌, ◌<◌, ◌≤◌, ◌+◌, ◌*◌, ◌⊎◌, ◌↔◌, length, IsTrue, MatchOption};
ghost use Rattle.signal_graph.specs.GraphRules.{IsGraph, first_output as first_output_in};
ghost use Rattle.signal_graph.specs.GraphSolves.{node_of};
ghost use Rattle.fix_word.specs.declared.operation.Op.TheVariants.{Output};
ghost use Rattle.operations.specs.Ranges.{to_nat};
ghost use Rattle.micro_image.specs.Conflict.{IsMemory};
ghost use Rattle.micro_image.specs.Valid.{IsValid};
ghost use Rattle.image_labels.specs.declared.label.Label.TheVariants.{Signal};
ghost use Rattle.image_labels.specs.Labels.{turn_of, delay_on as delay_of, issue_label as label_of_issue};
ghost use Rattle.image_labels.specs.Rules.{passed as passed_by};
ghost use Rattle.image_labels.specs.Private.Checked.{IsIssuedBefore, DoesAt, DoesFold, DoesBy, DoesOther};
ghost use Rattle.image_labels.specs.Private.Written.{AreRight};
ghost use Rattle.image_labels.specs.Labelled.{sample_at as sample_of, ReadsInOrder, ReadsExchanged, IsFree, IsOfNode, IsFolded, IsDone, IsLoad, IsKept, IsMoved, IsConst, IsAddress, IsLabelOf, IsInRam, IsPut, IsFit};

use crate::copies::{same_format, same_operation};
use crate::folds::{is_fold, passed};
use crate::hardware::{
    cell_in, cells_on, delay_on, gap_on, issued_in, modulus_of, number_of, word_in,
};
use crate::label::{Certificate, Hints, Label};
use crate::labels::{is_signal, issue_label, operand_label, same_label};
use crate::narrow::{is_narrow, is_width};
use crate::operands::reads_operands;
use crate::settled::label_in;
use fix_word::Op;
use micro_image::{Image, Issue};
use signal_graph::{Graph, Node};

/// The number of the sample that a cycle of a turn is in.
pub fn sample_at(image: &Image, cycle: u16) -> u32
    requires { IsValid image.now }
    ensures { result ≡ sample_of image.now cycle }
{
    1024 + u32::from(cycle / image.period)
}

/// Whether the operation, the format and the argument of an issue are those of a node.
fn does_same(issue: &Issue, node: &Node) -> bool
    ensures { IsTrue result
        ↔ ((issue.now.op ≡ node.now.op) × (issue.now.fmt ≡ node.now.fmt) × (issue.now.arg ≡ node.now.arg)) }
{
    same_operation(issue.op, node.op) && same_format(issue.fmt, node.fmt) && issue.arg == node.arg
}

/// Whether an issue has the operation, the format and the argument of the node with this number.
pub fn does_at(graph: &Graph, issue: &Issue, node: u32) -> bool
    ensures { IsTrue result ↔ DoesAt graph.now issue.now node }
{
    let v = node as usize;
    v < graph.nodes.len() && does_same(issue, &graph.nodes[v])
}

/// Whether an issue is a product that gives at once what a node makes of a product.
fn does_fold(graph: &Graph, issue: &Issue, node: u32) -> bool
    ensures { IsTrue result ↔ DoesFold graph.now issue.now node }
{
    same_operation(issue.op, Op::Mul) && is_fold(graph, node, issue.fmt)
}

/// The node whose operands an issue reads that comes to the word of a node: that node, or the product that it passes on.
pub fn done_node(graph: &Graph, issue: &Issue, node: u32) -> Option<u32>
    ensures { MatchOption result (DoesOther graph.now issue.now node) (DoesBy graph.now issue.now node) }
{
    if does_at(graph, issue, node) {
        return Some(node);
    }
    if does_fold(graph, issue, node) {
        return Some(passed(graph, node));
    }
    None
}

/// Whether an issue reads the operands of a node in a sample.
fn reads_node(
    graph: &Graph,
    image: &Image,
    certificate: &Certificate,
    sample: u32,
    cycle: u16,
    issue: &Issue,
    node: u32,
    hints: Hints,
) -> bool
    requires node { node < length graph.now.nodes }
    requires cycle { cycle ≤ length image.now.words }
    requires right { AreRight image.now certificate.now hints }
    ensures { IsTrue result
        ↔ (ReadsInOrder graph.now image.now certificate.now sample cycle issue.now (node_of graph.now node)
        ⊎ ReadsExchanged graph.now image.now certificate.now sample cycle issue.now (node_of graph.now node)) }
{
    let node = &graph.nodes[node as usize];
    reads_operands(graph, image, certificate, sample, cycle, issue, node, hints)
}

/// Whether an issue does what a node does in a sample.
fn is_of_node(
    graph: &Graph,
    image: &Image,
    certificate: &Certificate,
    cycle: u16,
    issue: &Issue,
    node: u32,
    sample: u32,
    hints: Hints,
) -> bool
    requires valid { IsValid image.now }
    requires cycle { cycle ≤ length image.now.words }
    requires right { AreRight image.now certificate.now hints }
    ensures { IsTrue result
        ↔ IsOfNode graph.now image.now certificate.now cycle issue.now node sample }
{
    let now = sample_at(image, cycle);
    if sample != now {
        return false;
    }
    does_at(graph, issue, node)
        && reads_node(graph, image, certificate, now, cycle, issue, node, hints)
}

/// Whether an issue reads in a sample the operands of the node whose word a node reads.
fn reads_passed(
    graph: &Graph,
    image: &Image,
    certificate: &Certificate,
    sample: u32,
    cycle: u16,
    issue: &Issue,
    node: u32,
    hints: Hints,
) -> bool
    requires node { node < length graph.now.nodes }
    requires from { passed_by graph.now node < length graph.now.nodes }
    requires cycle { cycle ≤ length image.now.words }
    requires right { AreRight image.now certificate.now hints }
    ensures { IsTrue result
        ↔ (ReadsInOrder graph.now image.now certificate.now sample cycle issue.now
        (node_of graph.now (passed_by graph.now node))
        ⊎ ReadsExchanged graph.now image.now certificate.now sample cycle issue.now
        (node_of graph.now (passed_by graph.now node))) }
{
    let from = passed(graph, node);
    reads_node(graph, image, certificate, sample, cycle, issue, from, hints)
}

/// Whether an issue is a product that gives at once what a node makes of a product in a sample.
fn is_folded(
    graph: &Graph,
    image: &Image,
    certificate: &Certificate,
    cycle: u16,
    issue: &Issue,
    node: u32,
    sample: u32,
    hints: Hints,
) -> bool
    requires valid { IsValid image.now }
    requires cycle { cycle ≤ length image.now.words }
    requires right { AreRight image.now certificate.now hints }
    ensures { IsTrue result
        ↔ IsFolded graph.now image.now certificate.now cycle issue.now node sample }
{
    let now = sample_at(image, cycle);
    if sample != now {
        return false;
    }
    does_fold(graph, issue, node)
        && reads_passed(graph, image, certificate, now, cycle, issue, node, hints)
}

/// Whether an issue does what a node does in a sample, or gives its word at once.
fn is_done(
    graph: &Graph,
    image: &Image,
    certificate: &Certificate,
    cycle: u16,
    issue: &Issue,
    node: u32,
    sample: u32,
    hints: Hints,
) -> bool
    requires valid { IsValid image.now }
    requires cycle { cycle ≤ length image.now.words }
    requires right { AreRight image.now certificate.now hints }
    ensures { IsTrue result
        ↔ IsDone graph.now image.now certificate.now cycle issue.now node sample }
{
    is_of_node(graph, image, certificate, cycle, issue, node, sample, hints)
        || is_folded(graph, image, certificate, cycle, issue, node, sample, hints)
}

/// Whether an issue loads a cell with this label.
fn is_load(
    image: &Image,
    certificate: &Certificate,
    cycle: u16,
    issue: &Issue,
    label: Label,
    hints: Hints,
) -> bool
    requires cycle { cycle ≤ length image.now.words }
    requires right { AreRight image.now certificate.now hints }
    ensures { IsTrue result ↔ IsLoad image.now certificate.now cycle issue.now label }
{
    match issue.op {
        Op::Load => match operand_label(image, certificate, cycle, issue, 0, hints) {
            Label::Address(_, x) => same_label(
                label_in(image, certificate, u32::from(issue.unit), x, cycle, hints),
                label,
            ),
            _ => false,
        },
        _ => false,
    }
}

/// Whether an issue is a pass that keeps all bits of a word with this label.
fn is_kept(
    graph: &Graph,
    image: &Image,
    certificate: &Certificate,
    cycle: u16,
    issue: &Issue,
    label: Label,
    hints: Hints,
) -> bool
    requires valid { IsValid image.now }
    requires cycle { cycle ≤ length image.now.words }
    requires right { AreRight image.now certificate.now hints }
    ensures { IsTrue result ↔ IsKept graph.now image.now certificate.now cycle issue.now label }
{
    match issue.op {
        Op::Pass => {
            let width = issue.fmt.width;
            issue.fmt.shift == 0
                && is_width(width)
                && same_label(
                    operand_label(image, certificate, cycle, issue, 0, hints),
                    label,
                )
                && is_narrow(graph, sample_at(image, cycle), width, label)
        }
        _ => false,
    }
}

/// Whether an issue loads or keeps a word with this label.
fn is_moved(
    graph: &Graph,
    image: &Image,
    certificate: &Certificate,
    cycle: u16,
    issue: &Issue,
    label: Label,
    hints: Hints,
) -> bool
    requires valid { IsValid image.now }
    requires cycle { cycle ≤ length image.now.words }
    requires right { AreRight image.now certificate.now hints }
    ensures { IsTrue result ↔ IsMoved graph.now image.now certificate.now cycle issue.now label }
{
    is_load(image, certificate, cycle, issue, label, hints)
        || is_kept(graph, image, certificate, cycle, issue, label, hints)
}

/// Whether an issue gives this word.
fn is_const(issue: &Issue, word: i64) -> bool
    ensures { IsTrue result ↔ IsConst issue.now word }
{
    match issue.op {
        Op::Const => issue.arg == word,
        _ => false,
    }
}

/// Whether an issue gives the address of a cell in a ram of so many.
fn is_address(image: &Image, cycle: u16, issue: &Issue, cells: u32, x: u32) -> bool
    requires { IsValid image.now }
    ensures { IsTrue result ↔ IsAddress image.now cycle issue.now cells x }
{
    match issue.op {
        Op::Addr => {
            cells > 0
                && cells as usize == modulus_of(image, u32::from(issue.unit))
                && u64::from(x) == cell_in(cells, number_of(issue.arg), cycle / image.period)
        }
        _ => false,
    }
}

/// Whether a label is one of an issue.
fn is_label_of(
    graph: &Graph,
    image: &Image,
    certificate: &Certificate,
    cycle: u16,
    issue: &Issue,
    label: Label,
    hints: Hints,
) -> bool
    requires valid { IsValid image.now }
    requires cycle { cycle ≤ length image.now.words }
    requires right { AreRight image.now certificate.now hints }
    ensures { IsTrue result ↔ IsLabelOf graph.now image.now certificate.now cycle issue.now label }
{
    match label {
        Label::Unknown => true,
        Label::Signal(node, sample) => {
            is_done(graph, image, certificate, cycle, issue, node, sample, hints)
                || is_moved(graph, image, certificate, cycle, issue, label, hints)
        }
        Label::Address(cells, x) => is_address(image, cycle, issue, cells, x),
        Label::Constant(word) => {
            is_const(issue, word) || is_moved(graph, image, certificate, cycle, issue, label, hints)
        }
    }
}

/// Whether an issue addresses a cell of its ram.
fn is_in_ram(
    image: &Image,
    certificate: &Certificate,
    cycle: u16,
    issue: &Issue,
    hints: Hints,
) -> bool
    requires cycle { cycle ≤ length image.now.words }
    requires right { AreRight image.now certificate.now hints }
    ensures { IsTrue result ↔ IsInRam image.now certificate.now cycle issue.now }
{
    let own = cells_on(image, u32::from(issue.unit));
    match operand_label(image, certificate, cycle, issue, 0, hints) {
        Label::Address(cells, x) => cells as usize == own && (x as usize) < own,
        _ => false,
    }
}

/// Whether an access to memory is to a cell of its ram.
fn is_access(
    image: &Image,
    certificate: &Certificate,
    cycle: u16,
    issue: &Issue,
    hints: Hints,
) -> bool
    requires cycle { cycle ≤ length image.now.words }
    requires right { AreRight image.now certificate.now hints }
    ensures { IsTrue result
        ↔ (IsMemory issue.now.op → IsInRam image.now certificate.now cycle issue.now) }
{
    match issue.op {
        Op::Load | Op::Store => is_in_ram(image, certificate, cycle, issue, hints),
        _ => true,
    }
}

pub fn first_output(graph: &Graph) -> usize
    ensures { result ≡ first_output_in graph.now }
{
    graph.nodes.len().saturating_sub(usize::from(graph.outs))
}

/// Whether a label is the word of an output in a sample.
fn is_output(graph: &Graph, label: Label, arg: i64, sample: u32) -> bool
    requires { IsGraph graph.now }
    ensures { IsTrue result ↔ (label ≡ Signal (first_output_in graph.now + to_nat arg) sample) }
{
    match label {
        Label::Signal(v, s) => {
            u64::from(v) == first_output(graph) as u64 + number_of(arg) && s == sample
        }
        _ => false,
    }
}

/// Whether an output puts its word in its sample.
fn is_put(
    graph: &Graph,
    image: &Image,
    certificate: &Certificate,
    cycle: u16,
    issue: &Issue,
) -> bool
    requires graph { IsGraph graph.now }
    requires valid { IsValid image.now }
    ensures { IsTrue result ↔ IsPut graph.now image.now certificate.now cycle issue.now }
{
    let unit = u32::from(issue.unit);
    let label = issue_label(certificate, cycle, unit);
    let ends = u32::from(cycle % image.period) + u32::from(delay_on(image, unit));
    ends < u32::from(image.period) && is_output(graph, label, issue.arg, sample_at(image, cycle))
}

/// Whether an issue is no output, or puts its word in its sample.
fn is_put_if_output(
    graph: &Graph,
    image: &Image,
    certificate: &Certificate,
    cycle: u16,
    issue: &Issue,
) -> bool
    requires graph { IsGraph graph.now }
    requires valid { IsValid image.now }
    ensures { IsTrue result
        ↔ (issue.now.op ≡ Output → IsPut graph.now image.now certificate.now cycle issue.now) }
{
    match issue.op {
        Op::Output => is_put(graph, image, certificate, cycle, issue),
        _ => true,
    }
}

/// Whether a unit has an issue so many cycles before a cycle of a turn.
fn is_issued_before(image: &Image, cycle: u16, back: u16, unit: u32) -> bool
    requires { cycle < length image.now.words }
    ensures { IsTrue result ↔ IsIssuedBefore image.now cycle back unit }
{
    back <= cycle && issued_in(word_in(image, cycle - back), unit).is_some()
}

/// Whether a unit is not busy with an issue of an earlier cycle of the turn.
fn is_free(image: &Image, cycle: u16, unit: u32) -> bool
    requires { cycle < length image.now.words }
    ensures { IsTrue result ↔ IsFree image.now cycle unit }
{
    for back in 1..u16::from(gap_on(image, unit)) {
        if is_issued_before(image, cycle, back, unit) {
            return false;
        }
    }
    true
}

/// Whether the label of an issue is one of it.
fn has_label(
    graph: &Graph,
    image: &Image,
    certificate: &Certificate,
    cycle: u16,
    issue: &Issue,
    hints: Hints,
) -> bool
    requires valid { IsValid image.now }
    requires cycle { cycle ≤ length image.now.words }
    requires right { AreRight image.now certificate.now hints }
    ensures { IsTrue result
        ↔ IsLabelOf graph.now image.now certificate.now cycle issue.now
        (label_of_issue certificate.now cycle issue.now.unit) }
{
    let label = issue_label(certificate, cycle, u32::from(issue.unit));
    is_label_of(graph, image, certificate, cycle, issue, label, hints)
}

/// Whether an issue ends in its turn.
fn ends_in_turn(image: &Image, cycle: u16, unit: u32) -> bool
    requires { IsValid image.now }
    ensures { IsTrue result ↔ (cycle + delay_of image.now unit < turn_of image.now) }
{
    let ends = u32::from(cycle) + u32::from(delay_on(image, unit));
    ends < u32::from(image.unroll) * u32::from(image.period)
}

/// Whether an issue ends in its turn, and its unit is not busy.
fn is_timely(image: &Image, cycle: u16, unit: u32) -> bool
    requires valid { IsValid image.now }
    requires cycle { cycle < length image.now.words }
    ensures { IsTrue result
        ↔ ((cycle + delay_of image.now unit < turn_of image.now) × IsFree image.now cycle unit) }
{
    ends_in_turn(image, cycle, unit) && is_free(image, cycle, unit)
}

/// Whether an access to memory is to a cell of its ram, and an output puts its word in its sample.
fn is_placed(
    graph: &Graph,
    image: &Image,
    certificate: &Certificate,
    cycle: u16,
    issue: &Issue,
    hints: Hints,
) -> bool
    requires graph { IsGraph graph.now }
    requires valid { IsValid image.now }
    requires cycle { cycle ≤ length image.now.words }
    requires right { AreRight image.now certificate.now hints }
    ensures { IsTrue result
        ↔ ((IsMemory issue.now.op → IsInRam image.now certificate.now cycle issue.now)
        × (issue.now.op ≡ Output → IsPut graph.now image.now certificate.now cycle issue.now)) }
{
    is_access(image, certificate, cycle, issue, hints)
        && is_put_if_output(graph, image, certificate, cycle, issue)
}

/// Whether an issue fits: it has its label, ends in its turn, and its unit is not busy.
pub fn is_fit(
    graph: &Graph,
    image: &Image,
    certificate: &Certificate,
    cycle: u16,
    issue: &Issue,
    hints: Hints,
) -> bool
    requires graph { IsGraph graph.now }
    requires valid { IsValid image.now }
    requires cycle { cycle < length image.now.words }
    requires right { AreRight image.now certificate.now hints }
    ensures yes { IsTrue result → IsFit graph.now image.now certificate.now cycle issue.now }
    ensures no { IsFit graph.now image.now certificate.now cycle issue.now → IsTrue result }
{
    is_timely(image, cycle, u32::from(issue.unit))
        && is_placed(graph, image, certificate, cycle, issue, hints)
        && has_label(graph, image, certificate, cycle, issue, hints)
}
