//! Whether each wire joins words of one shape.
ghost use Rattle.std.specs.Prelude.{◌≡◌, ◌<◌, ◌≤◌, length, slice_get, IfErr, OnOk};
ghost use Rattle.std.specs.List.{All};
ghost use Rattle.fault_order.specs.Ranked.{IsClear, IsFirst};
ghost use Rattle.fault_order.specs.Rules.{faults, each_from};
ghost use Rattle.fault_order.specs.Private.FirstMet.{first, first_in};
ghost use Rattle.net_fit.specs.Joints as joint;
ghost use Rattle.net_fit.specs.Joints.{joint_rules};

use crate::ports::Ports;
use crate::wires::source_type;
use fix_word::SigType;
use net_core::{NetFault, NetProc, Wire};

/// Whether two types have one shape, whatever their modes, or both are `bool`.
fn are_alike(a: SigType, b: SigType) -> bool
    ensures { result ≡ joint.are_alike a b }
{
    match (a, b) {
        (SigType::Fix(a), SigType::Fix(b)) => a.shape.w == b.shape.w && a.shape.f == b.shape.f,
        (SigType::Bool, SigType::Bool) => true,
        _ => false,
    }
}

/// Whether the word of a wire fits an input word of this type.
fn fits(source: Option<SigType>, ty: Option<SigType>) -> bool
    ensures { result ≡ joint.fits source ty }
{
    match (source, ty) {
        (Some(source), Some(ty)) => are_alike(source, ty),
        _ => false,
    }
}

/// The type of an input word of processor `p`.
fn input_type(ports: &[Ports], p: usize, word: usize) -> Option<SigType>
    requires { p < length ports.now }
    ensures { result ≡ slice_get (joint.inputs_at ports.now p) word }
{
    ports[p].inputs.as_slice().get(word).copied()
}

/// Whether the word of wire `w` to processor `p` exists and fits.
fn wire_fits(procs: &[NetProc], ports: &[Ports], p: usize, w: usize, wire: Wire) -> bool
    requires processor { p < length ports.now }
    requires ports { length procs.now ≤ length ports.now }
    ensures { result ≡ joint.fits (joint.source_type procs.now ports.now wire)
        (slice_get (joint.inputs_at ports.now p) w) }
{
    fits(source_type(procs, ports, wire), input_type(ports, p, w))
}

/// `Feed` where a wire to processor `p` does not fit.
fn check_wires(procs: &[NetProc], ports: &[Ports], p: usize, wires: &[Wire]) -> Result<(), NetFault>
    requires processor { p < length ports.now }
    requires number { p < 8 }
    requires ports { length procs.now ≤ length ports.now }
    requires few { length wires.now ≤ 16 }
    ensures { result ≡ first_in (each_from (joint.wire_rule procs.now ports.now p) 0 wires.now) }
{
    for (w, wire) in wires.iter().enumerate() {
        if !wire_fits(procs, ports, p, w, *wire) {
            return Err(NetFault::Feed {
                proc: p as u8,
                word: w as u8,
            });
        }
    }
    Ok(())
}

/// `Count` where processor `p` has not one wire for each input word, else `Feed` where one does not fit.
fn check_processor(
    procs: &[NetProc],
    ports: &[Ports],
    p: usize,
    proc: &NetProc,
) -> Result<(), NetFault>
    requires processor { p < length ports.now }
    requires number { p < 8 }
    requires ports { length procs.now ≤ length ports.now }
    requires few { length proc.now.feed ≤ 16 }
    ensures { result ≡ first (joint.proc_rules procs.now ports.now p proc.now) }
{
    if proc.feed.len() != ports[p].inputs.len() {
        return Err(NetFault::Count(p as u8));
    }
    check_wires(procs, ports, p, proc.feed.as_slice())
}

/// Each processor in order.
fn check_in_order(procs: &[NetProc], ports: &[Ports]) -> Result<(), NetFault>
    requires few { length procs.now ≤ 8 }
    requires ports { length procs.now ≤ length ports.now }
    requires wires { All (λ proc. length proc.feed ≤ 16) procs.now }
    ensures { result ≡ first (joint_rules procs.now ports.now) }
{
    for (p, proc) in procs.iter().enumerate() {
        check_processor(procs, ports, p, proc)?;
    }
    Ok(())
}

/// Checks that each processor has a wire for each input word, from a word that is there and has the same shape, or is
/// `bool` where the other is. A word of the net's row has the type of the first processor word that it feeds. The ports
/// are those of the processors' programs, in the same order.
///
/// # Errors
///
/// At the first processor that has one of the two, `Count` where its wires are not as many as its input words, else
/// `Feed` with its least word that does not fit.
pub fn check_joints(procs: &[NetProc], ports: &[Ports]) -> Result<(), NetFault>
    requires few { length procs.now ≤ 8 }
    requires ports { length procs.now ≤ length ports.now }
    requires wires { All (λ proc. length proc.feed ≤ 16) procs.now }
    ensures ok { OnOk result (IsClear (faults (joint_rules procs.now ports.now))) }
    ensures err { IfErr result (IsFirst (faults (joint_rules procs.now ports.now))) }
{
    check_in_order(procs, ports)
}
