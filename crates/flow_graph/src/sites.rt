//! The places of elements, with what is made there. Page `docs/GRAPH.md`, "The graph of a flat program".

ghost use Rattle.std.specs.Prelude.{◌≡◌, ◌≤◌, ◌++◌, ◌-◌, [], ◌∷◌, ◌<◌, ◌^◌, length, map, IfOk, OnOk};
ghost use Rattle.fix_word.specs.declared.operation.Op.TheVariants as op;
ghost use Rattle.signal_graph.specs.Rules.{width_of, plain};
ghost use Rattle.signal_graph.specs.Flat as flat_program;
ghost use Rattle.signal_graph.specs.Flat.{view, view_expr, view_body};
ghost use Rattle.signal_graph.specs.Expressions.{view_exprs};
ghost use Rattle.signal_graph.specs.GraphOf as place_of;
ghost use Rattle.signal_graph.specs.GraphOf.{sites};
ghost use Rattle.flow_graph.specs.Private.Delayed.{TellsDelayed};
ghost use Rattle.flow_graph.specs.Private.Sites.{view_operand, view_made, view_site, Extends, AddsSite, AddsPlaces, AddsParts, passes, made_of};

use fix_word::{Format, Mode, Op, SigType};
use lists::List;
use short_lists::ShortList;
use signal_graph::{FlatBody, FlatElem, FlatExpr, FlatProgram};
use std::alloc::{AllocError, AllocFailed, Global};

/// What an operand of a node names.
#[derive(Clone, Copy)]
pub(crate) enum Operand {
    /// The node of a raw word.
    Number(i64),
    /// The node at another place of the same element.
    Place(usize),
    /// The node of an element, with a delay.
    Element { elem: u32, delay: u16 },
}

impl Default for Operand {
    /// What stands in a short list behind its operands.
    fn default() -> Operand {
        Operand::Place(0)
    }
}

/// For how many operands a place has room in itself.
const PORTS: usize = 3;

/// The operands of a node.
pub(crate) type Operands = ShortList<Operand, PORTS>;

/// What is made at a place.
#[derive(Drop)]
pub(crate) enum Made {
    /// Nothing, for a read.
    Nothing,
    /// A constant, unless its word was met before.
    Constant(i64),
    Input(u8),
    Operation {
        op: Op,
        fmt: Format,
        operands: Operands,
    },
}

/// A place, with what is made there.
#[derive(Drop)]
pub(crate) struct Site {
    pub(crate) elem: u32,
    pub(crate) place: usize,
    pub(crate) made: Made,
}

/// Adds a place of an element whose places begin at `start`.
fn add_site(sites: &mut List<Site>, elem: u32, start: usize, made: Made) -> Result<(), AllocError>
    requires { start ≤ length sites.old }
    ensures { OnOk result (AddsSite sites.old elem start (view_made made) sites.new) }
{
    let place = sites.len() - start;
    sites.push(Site { elem, place, made })?;
    Ok(())
}

/// Adds the places of an expression. Returns the operand that it is. Inlined where the parts of an operation are gone
/// through, so that raw words and reads take no call.
#[cycle(places)]
#[inline(always)]
fn add_places(
    alloc: Global,
    sites: &mut List<Site>,
    elem: u32,
    start: usize,
    value: &FlatExpr,
) -> Result<Operand, AllocError>
    requires { start ≤ length sites.old }
    ensures { IfOk result (AddsPlaces sites.old elem start (view_expr value.now) sites.new) }
{
    match value {
        FlatExpr::Raw(word) => {
            add_site(sites, elem, start, Made::Constant(*word))?;
            Ok(Operand::Number(*word))
        }
        FlatExpr::Read { elem: read, delay } => {
            add_site(sites, elem, start, Made::Nothing)?;
            Ok(Operand::Element {
                elem: *read,
                delay: *delay,
            })
        }
        FlatExpr::Node { op, fmt, parts } => {
            let operands = add_parts(alloc, sites, elem, start, parts)?;
            let place = sites.len() - start;
            let made = Made::Operation {
                op: *op,
                fmt: *fmt,
                operands,
            };
            add_site(sites, elem, start, made)?;
            Ok(Operand::Place(place))
        }
    }
}

/// Adds the places of the parts of an operation. Returns the operands that they are.
#[cycle(places)]
#[inline(never)]
fn add_parts(
    alloc: Global,
    sites: &mut List<Site>,
    elem: u32,
    start: usize,
    parts: &[FlatExpr],
) -> Result<Operands, AllocError>
    requires { start ≤ length sites.old }
    ensures { IfOk result (AddsParts sites.old elem start (view_exprs parts.now) sites.new) }
{
    let mut operands = Operands::new(alloc);
    for part in parts {
        let operand = add_places(alloc, sites, elem, start, part)?;
        operands.push(operand)?;
    }
    Ok(operands)
}

/// Whether a Pass follows the value of an element that is read with a delay or not.
fn has_pass(value: &FlatExpr, is_delayed: bool) -> bool
    ensures { result ≡ passes is_delayed (view_expr value.now) }
{
    match value {
        FlatExpr::Raw(_) => is_delayed,
        FlatExpr::Read { delay, .. } => *delay > 0 || is_delayed,
        FlatExpr::Node { .. } => false,
    }
}

/// The bits of a type's words.
pub(crate) fn bits(ty: SigType) -> u8
    ensures { result ≡ width_of ty }
{
    match ty {
        SigType::Fix(ty) => ty.shape.w,
        SigType::Bool => 2,
    }
}

/// Adds the place of a Pass.
fn add_pass(
    alloc: Global,
    sites: &mut List<Site>,
    elem: u32,
    start: usize,
    width: u8,
    operand: Operand,
) -> Result<(), AllocError>
    requires { start ≤ length sites.old }
    ensures { OnOk result (AddsSite sites.old elem start
        (place_of.operation op.Pass (plain width) (view_operand operand ∷ [])) sites.new) }
{
    let mut operands = Operands::new(alloc);
    operands.push(operand)?;
    let made = Made::Operation {
        op: Op::Pass,
        fmt: Format {
            shift: 0,
            mode: Mode::Trunc,
            width,
        },
        operands,
    };
    add_site(sites, elem, start, made)
}

/// Adds the places of an element with this value.
fn add_value(
    alloc: Global,
    sites: &mut List<Site>,
    elem: u32,
    ty: SigType,
    value: &FlatExpr,
    is_delayed: bool,
) -> Result<(), AllocError>
    ensures { OnOk result (Extends sites.old elem (length sites.old)
        (made_of is_delayed (width_of ty) (flat_program.value (view_expr value.now))) sites.new) }
{
    let start = sites.len();
    let operand = add_places(alloc, sites, elem, start, value)?;
    if has_pass(value, is_delayed) {
        add_pass(alloc, sites, elem, start, bits(ty), operand)?;
    }
    Ok(())
}

/// Adds the places of an element.
fn add_element(
    alloc: Global,
    sites: &mut List<Site>,
    elem: u32,
    element: &FlatElem,
    is_delayed: bool,
) -> Result<(), AllocError>
    ensures { OnOk result (Extends sites.old elem (length sites.old)
        (made_of is_delayed (width_of element.now.ty) (view_body element.now.body)) sites.new) }
{
    match &element.body {
        FlatBody::Word(word) => {
            let start = sites.len();
            add_site(sites, elem, start, Made::Input(*word))
        }
        FlatBody::Value(value) => add_value(alloc, sites, elem, element.ty, value, is_delayed),
    }
}

/// The places of all elements. The table says which are read with a delay.
pub(crate) fn sites_of(
    alloc: Global,
    flat: &FlatProgram,
    delayed: &[bool],
) -> Result<List<Site>, AllocError>
    requires few { length (view flat.now).elems < 2 ^ 32 }
    requires delayed { TellsDelayed (view flat.now) delayed.now }
    ensures { IfOk result (λ list. map view_site list ≡ sites (view flat.now)) }
{
    let mut list = List::new(alloc);
    for elem in 0..flat.elems.len() {
        add_element(
            alloc,
            &mut list,
            elem as u32,
            &flat.elems[elem],
            delayed[elem],
        )?;
    }
    Ok(list)
}
