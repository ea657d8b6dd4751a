//! The types of the words that wires bring.
ghost use Rattle.std.specs.Prelude.{◌≡◌, ◌≤◌, length, position};
ghost use Rattle.net_fit.specs.Joints as joint;

use crate::ports::Ports;
use fix_word::SigType;
use net_core::{NetProc, Wire};

/// Whether the wire brings this word of the net's row.
pub(crate) fn is_input(word: u8, wire: Wire) -> bool
    ensures { result ≡ joint.is_input word wire }
{
    match wire {
        Wire::Input(other) => other == word,
        Wire::From { .. } => false,
    }
}

/// The first of these wires that brings the word of the net's row.
fn first_wire(word: u8, wires: &[Wire]) -> Option<usize>
    ensures { result ≡ position (joint.is_input word) wires.now }
{
    wires.iter().position(|wire| is_input(word, *wire))
}

/// The type of the first of these input words that the word of the net's row feeds.
fn first_fed(word: u8, wires: &[Wire], types: &[SigType]) -> Option<SigType>
    ensures { result ≡ joint.first_fed word wires.now types.now }
{
    match first_wire(word, wires) {
        Some(place) => types.get(place).copied(),
        None => None,
    }
}

/// The type of the first processor word that the word of the net's row feeds.
pub(crate) fn net_type(word: u8, procs: &[NetProc], ports: &[Ports]) -> Option<SigType>
    requires { length procs.now ≤ length ports.now }
    ensures { result ≡ joint.net_type word procs.now ports.now }
{
    for (p, proc) in procs.iter().enumerate() {
        let fed = first_fed(word, proc.feed.as_slice(), ports[p].inputs.as_slice());
        if fed.is_some() {
            return fed;
        }
    }
    None
}

/// The type of an output word of a processor.
fn out_type(ports: &[Ports], proc: u8, word: u8) -> Option<SigType>
    ensures { result ≡ joint.out_type ports.now proc word }
{
    match ports.get(usize::from(proc)) {
        Some(own) => own.outs.as_slice().get(usize::from(word)).copied(),
        None => None,
    }
}

/// The type of the word that the wire brings.
pub(crate) fn source_type(procs: &[NetProc], ports: &[Ports], wire: Wire) -> Option<SigType>
    requires { length procs.now ≤ length ports.now }
    ensures { result ≡ joint.source_type procs.now ports.now wire }
{
    match wire {
        Wire::Input(word) => net_type(word, procs, ports),
        Wire::From { proc, word } => out_type(ports, proc, word),
    }
}
