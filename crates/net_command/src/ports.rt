//! The types of a program's words.
ghost use Rattle.std.specs.Prelude.{◌≡◌, IfOk, IfErr};
ghost use Rattle.fault_order.specs.Ranked.{AnswersFault};
ghost use Rattle.loop_expand.specs.InTypes.{flat_output_types};
ghost use Rattle.net_command.specs.Ports.{ArePortsOf, IsNoPorts, AnswersPorts};
ghost use Rattle.signal_graph.specs.Flat as flat_program;
ghost use Rattle.signal_graph.specs.FlatRules.{IsFlat};
ghost use Rattle.silage_syntax.specs.Tree.{Program as Tree};
ghost use Rattle.source_faults.specs.Faults.{HasProgram, IsFrontFault};
ghost use Rattle.source_faults.specs.declared.fault.FrontFault.{FrontFault as FaultType};
ghost use Rattle.statuses.specs.declared.status.Status.TheVariants.{FrontEnd, Memory};

use front_end::accept_flat;
use lists::List;
use net_fit::Ports;
use signal_graph::FlatProgram;
use statuses::Status;
use std::alloc::{AllocError, Global};

/// The types of the words of a flat program.
pub(crate) fn ports_in(alloc: Global, flat: &FlatProgram) -> Result<Ports, AllocError>
    requires { IsFlat (flat_program.view flat.now) }
    ensures inputs { IfOk result (λ ports. ports.inputs ≡ (flat_program.view flat.now).inputs) }
    ensures outs { IfOk result (λ ports. ports.outs ≡ flat_output_types (flat_program.view flat.now)) }
{
    let inputs = List::from_slice(alloc, flat.inputs.as_slice())?;
    let mut outs = List::new(alloc);
    for number in flat.outs.iter() {
        outs.push(flat.elems[*number as usize].ty)?;
    }
    Ok(Ports { inputs, outs })
}

/// The types of main's words, in order.
///
/// # Errors
///
/// `FrontEnd` where the source has no program. `Memory` where no memory is left.
pub fn ports_of(alloc: Global, src: &[u8]) -> Result<Ports, Status>
    ensures ok { IfOk result (ArePortsOf src.now) }
    ensures err { IfErr result (IsNoPorts src.now) }

    // What the source has is what the call answers, unless memory runs out.
    ensures each_program { (program : Tree) → HasProgram src.now program → AnswersPorts program result }
    ensures each_fault { (fault : FaultType) → IsFrontFault src.now fault
        → AnswersFault Memory (FrontEnd fault) result }
{
    let accepted = accept_flat(alloc, src)?;
    Ok(ports_in(alloc, &accepted.flat)?)
}
