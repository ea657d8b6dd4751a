//! Why a program is not unfolded.

ghost use Rattle.std.specs.Prelude.{◌≡◌, ℕ, ◌≤◌, ◌<◌, ◌^◌, ◌⊎◌, length, All, sum_by, IfErr, OnOk};
ghost use Rattle.signal_graph.specs.Flat as flat;
ghost use Rattle.signal_graph.specs.Flat.{view, view_elem, view_body, size_of_body, Element};
ghost use Rattle.signal_graph.specs.Expressions.{operation_count_of_body};
ghost use Rattle.signal_graph.specs.FlatRules.{IsFlat};
ghost use Rattle.rate_unfold.specs.Frames.{AreRates, rates};
ghost use Rattle.rate_unfold.specs.Faults.{unknown, operations_of, IsFrameFault, HasNoFrameFault};

use crate::frames::place;
use rate_faults::FrameFault;
use signal_graph::{FlatBody, FlatProgram, operation_count};

/// The most elements and operations that an unfolded program has.
const MAX_WEIGHT: u32 = 8192;

/// The most words of a row.
const MAX_WORDS: u8 = 16;

/// The first of the numbers that is none of so many words.
fn unknown(count: u8, words: &[u8]) -> Option<u8>
    ensures { result ≡ unknown count words.now }
{
    for word in words {
        if *word >= count {
            return Some(*word);
        }
    }
    None
}

fn operations_of_body(body: &FlatBody) -> u32
    requires { operation_count_of_body (view_body body.now) < 2 ^ 32 }
    ensures { result ≡ operation_count_of_body (view_body body.now) }
{
    match body {
        FlatBody::Word(_) => 0,
        FlatBody::Value(value) => operation_count(value),
    }
}

/// How many operations a program has.
fn operations_of(program: &FlatProgram) -> u32
    requires { operations_of (view program.now) ≤ 2 ^ 17 }
    ensures { result ≡ operations_of (view program.now) }
{
    let mut operations = 0;
    for element in program.elems.iter() {
        operations += operations_of_body(&element.body);
    }
    operations
}

/// The first fault, if there is one.
pub fn check(program: &FlatProgram, phases: u8, down: &[u8], up: &[u8]) -> Result<(), FrameFault>
    requires rates { AreRates (rates phases down.now up.now) }
    requires sound { IsFlat (view program.now) }
    ensures clear { OnOk result (HasNoFrameFault (rates phases down.now up.now)
        (view program.now)) }
    ensures fault { IfErr result (IsFrameFault (rates phases down.now up.now)
        (view program.now)) }
{
    let inputs = program.inputs.len() as u8;
    let outs = program.outs.len() as u8;
    if let Some(word) = unknown(outs, down) {
        return Err(FrameFault::Word(word));
    }
    if let Some(word) = unknown(inputs, up) {
        return Err(FrameFault::Word(word));
    }
    if place(phases, up, inputs) > MAX_WORDS || place(phases, down, outs) > MAX_WORDS {
        return Err(FrameFault::Ports);
    }
    let weight = program.elems.len() as u32 + operations_of(program);
    if u32::from(phases) * weight > MAX_WEIGHT {
        return Err(FrameFault::Weight);
    }
    Ok(())
}
