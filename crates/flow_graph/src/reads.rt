//! What each element reads without a delay.

ghost use Rattle.std.specs.Prelude.{◌≡◌, ◌++◌, IfOk, OnOk};
ghost use Rattle.signal_graph.specs.Flat.{view, view_expr, view_body};
ghost use Rattle.signal_graph.specs.Expressions.{view_exprs};
ghost use Rattle.flow_graph.specs.Private.ReadsNow.{reads_now, parts_read_now, body_reads_now, read_lists};

use lists::List;
use signal_graph::{FlatBody, FlatExpr, FlatProgram};
use std::alloc::{AllocError, AllocFailed, Global};

/// Adds the elements that an expression reads without a delay. Inlined where the parts of an operation are gone
/// through, so that raw words and reads take no call.
#[cycle(expressions)]
#[inline(always)]
fn add_reads(reads: &mut List<u32>, value: &FlatExpr) -> Result<(), AllocError>
    ensures { OnOk result (reads.new ≡ reads.old ++ reads_now (view_expr value.now)) }
{
    match value {
        FlatExpr::Raw(_) => Ok(()),
        FlatExpr::Read { elem, delay } => {
            if *delay == 0 {
                reads.push(*elem)?;
            }
            Ok(())
        }
        FlatExpr::Node { parts, .. } => add_part_reads(reads, parts),
    }
}

/// Adds the elements that the parts of an operation read without a delay.
#[cycle(expressions)]
#[inline(never)]
fn add_part_reads(reads: &mut List<u32>, parts: &[FlatExpr]) -> Result<(), AllocError>
    ensures { OnOk result (reads.new ≡ reads.old ++ parts_read_now (view_exprs parts.now)) }
{
    for part in parts {
        add_reads(reads, part)?;
    }
    Ok(())
}

/// The elements that a body reads without a delay.
fn reads_of_body(alloc: Global, body: &FlatBody) -> Result<List<u32>, AllocError>
    ensures { IfOk result (λ reads. reads ≡ body_reads_now (view_body body.now)) }
{
    let mut reads = List::new(alloc);
    if let FlatBody::Value(value) = body {
        add_reads(&mut reads, value)?;
    }
    Ok(reads)
}

/// For each element the elements that it reads without a delay.
pub(crate) fn reads_of_all(alloc: Global, flat: &FlatProgram) -> Result<List<List<u32>>, AllocError>
    ensures { IfOk result (λ lists. lists ≡ read_lists (view flat.now)) }
{
    let mut lists = List::with_capacity(alloc, flat.elems.len())?;
    for element in flat.elems.as_slice() {
        let reads = reads_of_body(alloc, &element.body)?;
        lists.push(reads)?;
    }
    Ok(lists)
}
