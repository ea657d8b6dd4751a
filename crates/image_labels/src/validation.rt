//! Whether an image is a graph's.
ghost use Rattle.std.specs.Prelude.{◌≡◌, length, OnOk, OnErr};
ghost use Rattle.signal_graph.specs.GraphRules.{IsGraph};
ghost use Rattle.micro_image.specs.Valid.{IsValid};
ghost use Rattle.plan_soundness.specs.Run.{RunsSolution};
ghost use Rattle.image_labels.specs.Labelled.{IsLabelled};
ghost use Rattle.image_labels.specs.Private.Written.{AreUnwritten, AreRight};

use crate::copies::check_copies;
use crate::cycles::check_cycles;
use crate::label::{Certificate, Hints};
use crate::mismatch::Mismatch;
use crate::rows::check_rows;
use crate::settled::are_all_quiet;
use crate::starts::{check_cells, check_registers};
use crate::written::{REGISTERS, are_all_read_since};
use micro_image::Image;
use signal_graph::Graph;

/// Which hints of a certificate are right, and for each register since when it is not written at the end of a turn.
fn right_hints(image: &Image, certificate: &Certificate, last: &mut [u16], turn: u16) -> Hints
    requires { turn ≡ length image.now.words }
    ensures right { AreRight image.now certificate.now result }
    ensures last { AreUnwritten image.now last.new turn }
{
    let reads = are_all_read_since(image, certificate, last, turn);
    let stores = are_all_quiet(
        image,
        certificate,
        turn,
        Hints {
            reads,
            stores: false,
        },
    );
    Hints { reads, stores }
}

/// Checks an image against a graph by labels. Nothing is asked of the certificate.
pub fn validate(graph: &Graph, image: &Image, certificate: &Certificate) -> Result<(), Mismatch>
    requires graph { IsGraph graph.now }
    requires image { IsValid image.now }
    ensures runs { OnOk result (RunsSolution graph.now image.now) }
    ensures labelled { OnOk result (IsLabelled graph.now image.now certificate.now) }
    ensures refused { OnErr result (IsLabelled graph.now image.now certificate.now → ⊥) }
{
    if image.outs != graph.outs {
        return Err(Mismatch::Outs);
    }
    check_copies(graph, certificate)?;
    let turn = image.words.len() as u16;
    let mut last = [0; REGISTERS];
    let hints = right_hints(image, certificate, &mut last, turn);
    check_cycles(graph, image, certificate, turn, hints)?;
    check_registers(graph, image, certificate, &last, turn)?;
    check_cells(graph, image, certificate, turn, hints)?;
    check_rows(image, turn)?;
    Ok(())
}
