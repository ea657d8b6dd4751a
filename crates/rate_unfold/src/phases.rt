//! The elements of one phase of a frame.

ghost use Rattle.std.specs.Prelude.{◌≡◌, ◌+◌, ◌*◌, ◌<◌, ◌≤◌, length, map, IfOk, OnOk, ◌++◌};
ghost use Rattle.signal_graph.specs.Flat as flat;
ghost use Rattle.signal_graph.specs.Flat.{view_expr, view_body, view_elem, calculation};
ghost use Rattle.signal_graph.specs.Expressions.{view_exprs};
ghost use Rattle.rate_unfold.specs.Unfolded.{word_in_phase, inits_in_phase};
ghost use Rattle.rate_unfold.specs.Private.Unfolding as is;
ghost use Rattle.rate_unfold.specs.Private.Limits.{IsPhase, rates_of, HasShortReads, HaveShortReads, IsShortBody};
ghost use Rattle.rate_unfold.specs.Private.Limits.{IsShort, AreShort};

use crate::frames::place;
use fix_word::{Format, Op};
use lists::List;
use signal_graph::{FlatBody, FlatElem, FlatExpr};
use std::alloc::{AllocError, Global};

/// A phase of a frame, and what it takes to find the elements of the others.
#[derive(Clone, Copy)]
pub struct Phase<'a> {
    pub number: u8,
    /// How many phases a frame has.
    pub phases: u8,
    /// How many elements the program has.
    pub elements: u32,
    /// The input words that arrive once a frame.
    pub up: &'a [u8],
}

/// A read of the element in the phase, and so many frames before, that the sample is in.
fn read_in_phase(phase: &Phase, elem: u32, delay: u16) -> FlatExpr
    requires phase { IsPhase phase.now }
    requires elem { elem < phase.now.elements }
    requires delay { delay ≤ 1023 }
    ensures { view_expr result
        ≡ is.expr_in_phase phase.now.phases phase.now.elements phase.now.number (flat.read elem delay) }
{
    let number = u16::from(phase.number);
    let phases = u16::from(phase.phases);
    let frames = (delay.saturating_sub(number) + (phases - 1)) / phases;
    let before = number + frames * phases - delay;
    FlatExpr::Read {
        elem: u32::from(before) * phase.elements + elem,
        delay: frames,
    }
}

fn calculation(op: Op, fmt: Format, parts: Vec<FlatExpr>) -> FlatExpr
    ensures { view_expr result ≡ calculation op fmt (view_exprs parts.items) }
{
    FlatExpr::Node { op, fmt, parts }
}

/// The expression with its reads in the phase.
#[cycle(copies)]
fn expr_in_phase(alloc: Global, phase: &Phase, value: &FlatExpr) -> Result<FlatExpr, AllocError>
    requires phase { IsPhase phase.now }
    requires reads { HasShortReads phase.now.elements (view_expr value.now) }
    ensures { IfOk result (λ copy. view_expr copy
        ≡ is.expr_in_phase phase.now.phases phase.now.elements phase.now.number (view_expr value.now)) }
{
    match value {
        FlatExpr::Raw(word) => Ok(FlatExpr::Raw(*word)),
        FlatExpr::Read { elem, delay } => Ok(read_in_phase(phase, *elem, *delay)),
        FlatExpr::Node { op, fmt, parts } => {
            Ok(calculation(*op, *fmt, parts_in_phase(alloc, phase, parts)?))
        }
    }
}

#[cycle(copies)]
fn parts_in_phase(
    alloc: Global,
    phase: &Phase,
    parts: &[FlatExpr],
) -> Result<Vec<FlatExpr>, AllocError>
    requires phase { IsPhase phase.now }
    requires reads { HaveShortReads phase.now.elements (view_exprs parts.now) }
    ensures { IfOk result (λ copies. view_exprs copies.items
        ≡ is.parts_in_phase phase.now.phases phase.now.elements phase.now.number (view_exprs parts.now)) }
{
    let mut copies = Vec::with_capacity(alloc, parts.len())?;
    for part in parts {
        copies.push(expr_in_phase(alloc, phase, part)?)?;
    }
    Ok(copies)
}

/// What stands for an input word: its place in the frame row, or 0 for a slow word after phase 0.
fn word_in_phase(phase: &Phase, word: u8) -> FlatBody
    requires phase { IsPhase phase.now }
    requires word { word < 16 }
    ensures { view_body result ≡ word_in_phase (rates_of phase.now) phase.now.number word }
{
    if phase.number > 0 && phase.up.contains(&word) {
        FlatBody::Value(FlatExpr::Raw(0))
    } else {
        FlatBody::Word(place(phase.phases, phase.up, word) + phase.number)
    }
}

fn body_in_phase(alloc: Global, phase: &Phase, body: &FlatBody) -> Result<FlatBody, AllocError>
    requires phase { IsPhase phase.now }
    requires body { IsShortBody phase.now.elements (view_body body.now) }
    ensures { IfOk result (λ copy. view_body copy
        ≡ is.body_in_phase (rates_of phase.now) phase.now.elements phase.now.number (view_body body.now)) }
{
    match body {
        FlatBody::Word(word) => Ok(word_in_phase(phase, *word)),
        FlatBody::Value(value) => Ok(FlatBody::Value(expr_in_phase(alloc, phase, value)?)),
    }
}

/// The initial values of the phase's samples, by frames.
fn inits_in_phase(
    alloc: Global,
    phase: &Phase,
    inits: &[(u16, i64)],
) -> Result<List<(u16, i64)>, AllocError>
    requires { IsPhase phase.now }
    ensures { IfOk result (λ own. own ≡ inits_in_phase phase.now.phases phase.now.number inits.now) }
{
    let mut own = List::new(alloc);
    for (sample, word) in inits {
        let before = u32::from(phase.number) + u32::from(*sample);
        let phases = u32::from(phase.phases);
        if before % phases == 0 {
            own.push(((before / phases) as u16, *word))?;
        }
    }
    Ok(own)
}

/// The element that has the words of another at the samples of the phase.
fn element_in_phase(
    alloc: Global,
    phase: &Phase,
    element: &FlatElem,
) -> Result<FlatElem, AllocError>
    requires phase { IsPhase phase.now }
    requires element { IsShort phase.now.elements (view_elem element.now) }
    ensures { IfOk result (λ own. view_elem own
        ≡ is.element_in_phase (rates_of phase.now) phase.now.elements phase.now.number (view_elem element.now)) }
{
    Ok(FlatElem {
        ty: element.ty,
        body: body_in_phase(alloc, phase, &element.body)?,
        inits: inits_in_phase(alloc, phase, &element.inits)?,
    })
}

/// Adds the elements of a phase.
pub fn put_elements(
    alloc: Global,
    phase: &Phase,
    elems: &[FlatElem],
    unfolded: &mut List<FlatElem>,
) -> Result<(), AllocError>
    requires phase { IsPhase phase.now }
    requires count { phase.now.elements ≡ length elems.now }
    requires elements { AreShort phase.now.elements (map view_elem elems.now) }
    ensures { OnOk result (map view_elem unfolded.new
        ≡ map view_elem unfolded.old
        ++ is.elements_in_phase (rates_of phase.now) (map view_elem elems.now) phase.now.number) }
{
    for element in elems {
        unfolded.push(element_in_phase(alloc, phase, element)?)?;
    }
    Ok(())
}
