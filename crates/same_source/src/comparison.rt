//! Whether microcode runs a source.
ghost use Rattle.std.specs.Prelude.{ℕ, List as Bytes, OnOk, IfOk, IfErr, IsTrue};
ghost use Rattle.signal_graph.specs.GraphRules.{IsGraph};
ghost use Rattle.micro_image.specs.Valid.{IsValid};
ghost use Rattle.silage_syntax.specs.Tree.{view};
ghost use Rattle.loop_expand.specs.GraphFor.{IsGraphFor};
ghost use Rattle.source_faults.specs.Faults.{HasProgram};
ghost use Rattle.silc_files.specs.Sources.{IsAcceptedSource};
ghost use Rattle.same_source.specs.Same.{IsOnlyImage, RunsSource, IsRefusal};
ghost use Rattle.same_source.specs.Private.Image.{HasWordsOf, RunsGraph, IsGraphRefusal};

use crate::refusal::Refusal;
use front_end::{Accepted, accept};
use image_labels::{recover, validate};
use micro_file::{FormFault, decode};
use micro_image::Image;
use microcode_asm::widths_of;
use signal_graph::Graph;
use source_faults::FrontError;
use std::alloc::{AllocError, Global};

/// The most bytes of microcode.
pub(crate) const MICROCODE_LIMIT: usize = 1 << 26;

/// The program of a source, with its graph.
fn program_of(alloc: Global, source: &[u8]) -> Result<Accepted, Refusal>
    ensures ok { IfOk result (λ accepted. HasProgram source.now (view accepted.program)) }
    ensures graph { IfOk result (λ accepted. IsGraphFor (view accepted.program) accepted.graph) }
    ensures err { IfErr result (λ refusal. (microcode : Bytes ℕ) → IsRefusal source.now microcode refusal) }
{
    match accept(alloc, source) {
        Ok(accepted) => Ok(accepted),
        Err(rejection) => match rejection.error {
            FrontError::Fault(fault) => Err(Refusal::Source {
                line: rejection.line,
                fault,
            }),
            FrontError::Memory => Err(Refusal::Memory),
        },
    }
}

/// The image that the bytes spell.
fn image_of(alloc: Global, microcode: &[u8]) -> Result<Image, Refusal>
    ensures only { IfOk result (IsOnlyImage microcode.now) }
    ensures valid { IfOk result IsValid }
    ensures err { IfErr result (λ refusal.
        (source : Bytes ℕ) → IsAcceptedSource source → IsRefusal source microcode.now refusal) }
{
    if microcode.len() > MICROCODE_LIMIT {
        return Err(Refusal::TooLong);
    }
    match decode(alloc, microcode) {
        Ok(image) => Ok(image),
        Err(FormFault::Memory) => Err(Refusal::Memory),
        Err(fault) => Err(Refusal::Microcode(fault)),
    }
}

/// Whether an image takes and puts words as a graph does.
fn has_words_of(alloc: Global, graph: &Graph, image: &Image) -> Result<bool, AllocError>
    ensures yes { IfOk result (λ has. IsTrue has → HasWordsOf graph.now image.now) }
    ensures no { IfOk result (λ has. HasWordsOf graph.now image.now → IsTrue has) }
{
    let widths = widths_of(alloc, &graph.inputs)?;
    Ok(widths.as_slice() == image.inputs.as_slice() && image.outs == graph.outs)
}

/// Checks an image against a graph, by labels that are found.
fn check_image(alloc: Global, graph: &Graph, image: &Image) -> Result<(), Refusal>
    requires graph { IsGraph graph.now }
    requires image { IsValid image.now }
    ensures runs { OnOk result (RunsGraph graph.now image.now) }
    ensures err { IfErr result (IsGraphRefusal graph.now image.now) }
{
    if !has_words_of(alloc, graph, image)? {
        return Err(Refusal::OtherWords);
    }
    let certificate = recover(alloc, graph, image)?;
    match validate(graph, image, &certificate) {
        Ok(()) => Ok(()),
        Err(mismatch) => Err(Refusal::NotShown(mismatch)),
    }
}

/// Whether the image that the bytes spell runs the one solution of the source's program over each stream of valid rows.
/// `Ok` where it is shown; where it is not, it may run it for all that.
pub fn runs_source(alloc: Global, source: &[u8], microcode: &[u8]) -> Result<(), Refusal>
    ensures runs { OnOk result (RunsSource source.now microcode.now) }
    ensures refused { IfErr result (IsRefusal source.now microcode.now) }
{
    let accepted = program_of(alloc, source)?;
    let image = image_of(alloc, microcode)?;
    check_image(alloc, &accepted.graph, &image)
}
