//! Whether copies can have the registers that are given for them.

ghost use Rattle.std.specs.Prelude.{◌≡◌, ◌⊎◌, ◌<◌, ◌≤◌, ◌↔◌, ℕ, false, length, IsTrue, IfOk, IfErr, MatchOption};
ghost use Rattle.datapath.specs.Allowed.{IsPort, IsDatapath};
ghost use Rattle.plan_core.specs.Hardware.{file_size as size_of_file};
ghost use Rattle.plan_core.specs.Arcs.{arc_of, IsUnroll};
ghost use Rattle.reg_alloc.specs.Allottable.{AreAllottable};
ghost use Rattle.given_registers.specs.Around.{given_at, IsForCopy, IsFor, IsGiven, AreBeside, CanHave, CanBeHad};
ghost use Rattle.given_registers.specs.Faults.{IsCause, IsRegisterFault};
ghost use Rattle.given_registers.specs.Private.Allotting.{AreOnCircle, AreCopies, IsForOne, IsGivenRegister};
ghost use Rattle.given_registers.specs.Private.Allotting.{Leaves, IsClear, IsMet, AreOfGiven};
ghost use Rattle.given_registers.specs.declared.fault.RegisterFault.TheVariants.{Memory};

use crate::circle::{Allotted, Circle};
use crate::fault::{GivenCause, RegisterFault};
use crate::given::GivenRegister;
use datapath::{Datapath, PortRef};
use plan_core::Arc;
use std::alloc::Global;

/// How many registers the file of the port has.
pub(crate) fn file_size(datapath: &Datapath, port: PortRef) -> u16
    requires datapath { IsDatapath datapath.now }
    requires port { IsPort datapath.now.units port }
    ensures size { result ≡ size_of_file datapath.now port }
    ensures most { result ≤ 256 }
{
    datapath.units[usize::from(port.unit)].files[usize::from(port.port)]
}

/// Whether the register is given for this copy of the lifetime.
fn is_for(given: GivenRegister, arc: Arc, copy: u8) -> bool
    ensures { IsTrue result ↔ IsForCopy given arc copy }
{
    given.node == arc.node && given.port == arc.port && given.copy == copy
}

/// Whether it is given for one of the copies of the lifetime.
fn is_for_one(given: GivenRegister, arc: Arc) -> bool
    ensures { IsTrue result ↔ IsForOne given arc }
{
    given.copy < arc.copies && is_for(given, arc, given.copy)
}

/// The lifetime for a copy of which the register is given.
fn home_of(arcs: &[Arc], given: GivenRegister) -> Option<usize>
    ensures { MatchOption result ((k i : ℕ) → IsFor arcs.now given k i → ⊥)
        (λ k. IsFor arcs.now given k given.copy) }
{
    for k in 0..arcs.len() {
        if is_for_one(given, arcs[k]) {
            return Some(k);
        }
    }
    None
}

/// The register that is given for the copy of arc k, and the first where there are more.
pub(crate) fn given_for(given: &[GivenRegister], arcs: &[Arc], k: usize, copy: u8) -> Option<u8>
    requires there { k < length arcs.now }
    requires copy { copy < (arc_of arcs.now k).copies }
    ensures { MatchOption result (IsGiven given.now arcs.now k copy → ⊥) (IsGivenRegister given.now arcs.now k copy) }
{
    for n in 0..given.len() {
        if is_for(given[n], arcs[k], copy) {
            return Some(given[n].register);
        }
    }
    None
}

/// Whether two copies share no cycle, or are in different files.
fn are_beside(circle: Circle, arcs: &[Arc], k: usize, i: u8, l: usize, j: u8) -> bool
    requires allottable { AreOnCircle circle.period arcs.now }
    requires first { k < length arcs.now }
    requires second { l < length arcs.now }
    ensures { IsTrue result ↔ AreBeside circle.period circle.samples arcs.now k i l j }
{
    if arcs[k].port != arcs[l].port {
        return true;
    }
    circle.are_apart(arcs[k], i, arcs[l], j)
}

/// Whether the other copy leaves the register to the copy of arc k.
fn leaves(circle: Circle, arcs: &[Arc], other: Allotted, k: usize, copy: u8, register: u16) -> bool
    requires allottable { AreOnCircle circle.period arcs.now }
    requires first { other.arc < length arcs.now }
    requires second { k < length arcs.now }
    ensures { IsTrue result ↔ Leaves circle.period circle.samples arcs.now other k copy register }
{
    if u16::from(other.register) != register {
        return true;
    }
    are_beside(circle, arcs, other.arc, other.copy, k, copy)
}

/// Whether none of these copies that has the register in the file of arc k shares a cycle with its copy.
pub(crate) fn is_clear(
    circle: Circle,
    arcs: &[Arc],
    allotted: &[Allotted],
    k: usize,
    copy: u8,
    register: u16,
) -> bool
    requires allottable { AreOnCircle circle.period arcs.now }
    requires there { k < length arcs.now }
    requires copies { AreCopies arcs.now allotted.now }
    ensures clear { IsTrue result → IsClear circle.period circle.samples arcs.now allotted.now k copy register }
    ensures met { result ≡ false → IsMet circle.period circle.samples arcs.now allotted.now k copy register }
{
    for t in 0..allotted.len() {
        if !leaves(circle, arcs, allotted[t], k, copy, register) {
            return false;
        }
    }
    true
}

/// The copy for which number n is given, or why it can't have it beside those before.
fn allotted_for(
    circle: Circle,
    arcs: &[Arc],
    given: &[GivenRegister],
    n: usize,
    allotted: &[Allotted],
    datapath: &Datapath,
) -> Result<Allotted, GivenCause>
    requires datapath { IsDatapath datapath.now }
    requires allottable { AreAllottable datapath.now arcs.now }
    requires period { circle.period ≡ datapath.now.period }
    requires there { n < length given.now }
    requires count { length allotted.now ≡ n }
    requires before { AreOfGiven given.now arcs.now allotted.now }
    ensures register { IfOk result (λ allotted. allotted.register ≡ (given_at given.now n).register) }
    ensures can { IfOk result (λ allotted. CanHave datapath.now circle.samples given.now arcs.now n allotted.arc
        allotted.copy) }
    ensures cause { IfErr result (IsCause datapath.now circle.samples given.now arcs.now n) }
{
    let entry = given[n];
    let Some(k) = home_of(arcs, entry) else {
        return Err(GivenCause::NoCopy);
    };
    let arc = arcs[k];
    if u16::from(entry.register) >= file_size(datapath, arc.port) {
        return Err(GivenCause::NoRegister);
    }
    if let Some(_) = given_for(given.split_at(n).0, arcs, k, entry.copy) {
        return Err(GivenCause::Twice);
    }
    if !is_clear(
        circle,
        arcs,
        allotted,
        k,
        entry.copy,
        u16::from(entry.register),
    ) {
        return Err(GivenCause::Taken);
    }
    Ok(Allotted {
        arc: k,
        copy: entry.copy,
        register: entry.register,
    })
}

/// The copies for which registers are given, in the order of these.
pub(crate) fn allotted_of(
    alloc: Global,
    circle: Circle,
    arcs: &[Arc],
    given: &[GivenRegister],
    datapath: &Datapath,
) -> Result<Vec<Allotted>, RegisterFault>
    requires datapath { IsDatapath datapath.now }
    requires allottable { AreAllottable datapath.now arcs.now }
    requires period { circle.period ≡ datapath.now.period }
    requires samples { IsUnroll arcs.now circle.samples }
    ensures count { IfOk result (λ allotted. length allotted.items ≡ length given.now) }
    ensures allotted { IfOk result (λ allotted. AreOfGiven given.now arcs.now allotted.items) }
    ensures can { IfOk result (λ allotted. CanBeHad datapath.now circle.samples given.now arcs.now
        (length given.now)) }
    ensures fault { IfErr result (λ fault. (fault ≡ Memory) ⊎ IsRegisterFault datapath.now given.now arcs.now fault) }
{
    let mut allotted = Vec::with_capacity(alloc, given.len())?;
    for n in 0..given.len() {
        match allotted_for(circle, arcs, given, n, allotted.as_slice(), datapath) {
            Ok(copy) => allotted.push(copy)?,
            Err(cause) => return Err(RegisterFault::Given { index: n, cause }),
        }
    }
    Ok(allotted)
}
