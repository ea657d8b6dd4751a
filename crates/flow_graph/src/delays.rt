//! Which elements are read with a delay.

ghost use Rattle.std.specs.Prelude.{◌==◌, IfOk};
ghost use Rattle.signal_graph.specs.Flat.{view, view_expr, view_body};
ghost use Rattle.signal_graph.specs.Expressions.{view_exprs};
ghost use Rattle.signal_graph.specs.GraphOf.{delays, parts_delay, body_delays};
ghost use Rattle.flow_graph.specs.Private.Delayed.{Marks, TellsDelayed};

use signal_graph::{FlatBody, FlatExpr, FlatProgram};
use std::alloc::{AllocError, Global};

/// Marks the element, if it is there.
fn mark(delayed: &mut [bool], elem: u32)
    ensures { Marks delayed.old (λ e. elem == e) delayed.new }
{
    if (elem as usize) < delayed.len() {
        delayed[elem as usize] = true;
    }
}

/// Marks the elements that an expression reads with a delay. Inlined where the parts of an operation are gone through,
/// so that raw words and reads take no call.
#[cycle(delays)]
#[inline(always)]
fn mark_reads(delayed: &mut [bool], value: &FlatExpr)
    ensures { Marks delayed.old (λ e. delays e (view_expr value.now)) delayed.new }
{
    match value {
        FlatExpr::Raw(_) => {}
        FlatExpr::Read { elem, delay } => {
            if *delay > 0 {
                mark(delayed, *elem);
            }
        }
        FlatExpr::Node { parts, .. } => mark_part_reads(delayed, parts),
    }
}

/// Marks the elements that the parts of an operation read with a delay.
#[cycle(delays)]
#[inline(never)]
fn mark_part_reads(delayed: &mut [bool], parts: &[FlatExpr])
    ensures { Marks delayed.old (λ e. parts_delay e (view_exprs parts.now)) delayed.new }
{
    for part in parts {
        mark_reads(delayed, part);
    }
}

/// Marks the elements that a body reads with a delay.
fn mark_body_reads(delayed: &mut [bool], body: &FlatBody)
    ensures { Marks delayed.old (λ e. body_delays e (view_body body.now)) delayed.new }
{
    if let FlatBody::Value(value) = body {
        mark_reads(delayed, value);
    }
}

/// For each element whether one reads it with a delay.
pub(crate) fn delayed_elements(alloc: Global, flat: &FlatProgram) -> Result<Vec<bool>, AllocError>
    ensures { IfOk result (λ delayed. TellsDelayed (view flat.now) delayed.items) }
{
    let mut delayed = vec![in alloc; false; flat.elems.len()]?;
    for element in flat.elems.as_slice() {
        mark_body_reads(&mut delayed, &element.body);
    }
    Ok(delayed)
}
