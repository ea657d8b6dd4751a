//! The unfolded program.

ghost use Rattle.std.specs.Prelude.{◌≡◌, ℕ, ◌≤◌, ◌⊎◌, [], map, IfOk, IfErr, OnOk};
ghost use Rattle.std.specs.List.Sorted.{IsStrictlyIncreasing};
ghost use Rattle.signal_graph.specs.Rules.{IsWithin};
ghost use Rattle.signal_graph.specs.Flat.{view, view_elem};
ghost use Rattle.signal_graph.specs.FlatRules.{IsFlat};
ghost use Rattle.signal_graph.specs.FlatSolves.{IsFlatLoopless};
ghost use Rattle.rate_faults.specs.declared.FrameFault.{FrameFault as Fault};
ghost use Rattle.rate_faults.specs.declared.FrameFault.TheVariants.{Memory};
ghost use Rattle.rate_unfold.specs.Frames.{AreRates, rates};
ghost use Rattle.rate_unfold.specs.Unfolded.{IsUnfolded};
ghost use Rattle.rate_unfold.specs.Solutions.{KeepsFrames};
ghost use Rattle.rate_unfold.specs.Faults.{IsFrameFault, HasNoFrameFault};
ghost use Rattle.rate_unfold.specs.Private.Unfolding.{unfolded};

use crate::faults::check;
use crate::frames::{frame_outs, frame_types};
use crate::phases::{Phase, put_elements};
use lists::List;
use rate_faults::FrameFault;
use signal_graph::{FlatElem, FlatProgram};
use std::alloc::{AllocError, Global};

/// The elements of all phases.
fn elements_of_phases(
    alloc: Global,
    f: &FlatProgram,
    m: u8,
    up: &[u8],
) -> Result<List<FlatElem>, AllocError>
    requires phases { IsWithin 1 8 m }
    requires sound { IsFlat (view f.now) }
    ensures { IfOk result (λ elems. map view_elem elems
        ≡ (unfolded (rates m [] up.now) (view f.now)).elems) }
{
    let mut elems = List::new(alloc);
    for number in 0..m {
        let phase = Phase {
            number,
            phases: m,
            elements: f.elems.len() as u32,
            up,
        };
        put_elements(alloc, &phase, &f.elems, &mut elems)?;
    }
    Ok(elems)
}

/// The program, by its elements in all phases.
fn unfolded(
    alloc: Global,
    f: &FlatProgram,
    m: u8,
    down: &[u8],
    up: &[u8],
) -> Result<FlatProgram, AllocError>
    requires phases { IsWithin 1 8 m }
    requires sound { IsFlat (view f.now) }
    ensures { IfOk result (λ g. view g
        ≡ unfolded (rates m down.now up.now) (view f.now)) }
{
    let elements = f.elems.len() as u32;
    Ok(FlatProgram {
        elems: elements_of_phases(alloc, f, m, up)?,
        inputs: frame_types(alloc, m, up, &f.inputs)?,
        outs: frame_outs(alloc, m, down, elements, &f.outs)?,
    })
}

/// The program that does `m` samples of `f` in one, over frame rows: the input words in order, each with its `m` phases
/// in turn, and the output words likewise. Output words in `down` are kept at phase 0 alone. Input words in `up` arrive
/// once a frame and are 0 after phase 0. `m` is 1 to 8, and the numbers of `down` and `up` rise. Takes time in
/// proportion to `m` times the size of `f`. Page `docs/RATES.md`.
///
/// # Errors
///
/// `Word` with the first number of `down` that is no output word, or else the first of `up` that is no input word; else
/// `Ports` where a frame row has more than 16 input words or more than 16 output words; else `Weight` where `m` times
/// the elements and operations of `f` are more than 8,192. `Memory` where no memory is left.
pub fn unfold(
    alloc: Global,
    f: &FlatProgram,
    m: u8,
    down: &[u8],
    up: &[u8],
) -> Result<FlatProgram, FrameFault>
    requires rates { AreRates (rates m down.now up.now) }
    requires sound { IsFlat (view f.now) }
    ensures unfolded { IfOk result (λ g. IsUnfolded (rates m down.now up.now) (view f.now) (view g)) }
    ensures sound { IfOk result (λ g. IsFlat (view g)) }
    ensures loops { IfOk result (λ g. IsFlatLoopless (view f.now) → IsFlatLoopless (view g)) }
    ensures keeps { IfOk result (λ g. KeepsFrames (rates m down.now up.now) (view f.now) (view g)) }
    // One sample in a frame is the sample itself.
    ensures same { m ≡ 1 → down.now ≡ [] → up.now ≡ [] → IfOk result (λ g. view g ≡ view f.now) }
    ensures clear { OnOk result (HasNoFrameFault (rates m down.now up.now) (view f.now)) }
    ensures fault { IfErr result (λ fault. (fault ≡ Memory)
        ⊎ IsFrameFault (rates m down.now up.now) (view f.now) fault) }
    // The first fault is always told, unless memory runs out.
    ensures refused { (fault : Fault) → IsFrameFault (rates m down.now up.now) (view f.now) fault
        → (result ≡ Err fault) ⊎ (result ≡ Err Memory) }
{
    check(f, m, down, up)?;
    Ok(unfolded(alloc, f, m, down, up)?)
}
