//! The delay lines.

ghost use Rattle.std.specs.Prelude.{◌≡◌, ◌+◌, ◌<◌, ◌↔◌, ◌⊎◌, ℕ, [], length, IsTrue, IfOk, IfErr, OnOk, IfSome, IfNone};
ghost use Rattle.std.specs.List.Sorted.{IsStrictlyIncreasing};
ghost use Rattle.operations.specs.declared.units.Kind.TheVariants as kind;
ghost use Rattle.datapath.specs.Allowed.{IsDatapath};
ghost use Rattle.plan_core.specs.Hardware.{IsOfKind, IsAcuOf};
ghost use Rattle.plan_core.specs.Lowered.{stored, HasRoom, AreLines};
ghost use Rattle.delay_memory.specs.declared.fault.LineFault.TheVariants.{Memory};
ghost use Rattle.delay_memory.specs.Private.Delays.{delays_at, AreFew};
ghost use Rattle.delay_memory.specs.Private.Numbers.{AreNumbers};
ghost use Rattle.delay_memory.specs.Private.Lines.{AreUsed, IsLongest, IsFirstRam, IsPlacedLine, IsNoRoom, IsPlaceFault, Places, AreLinesBefore, IsStop};

use crate::fault::LineFault;
use crate::target::Target;
use datapath::{Datapath, Kind, Unit};
use lists::List;
use plan_core::Line;
use std::alloc::{AllocError, Global};

/// The delay lines so far.
#[derive(Drop)]
pub(crate) struct LineMemory {
    pub lines: List<Line>,
    /// For each unit how many of its cells the lines take.
    pub used: List<u32>,
}

fn has_ram(datapath: &Datapath) -> bool
    ensures { IsTrue result ↔ ((ram : ℕ) × IsOfKind datapath.now kind.Ram ram) }
{
    for unit in datapath.units.iter() {
        if unit.kind == Kind::Ram {
            return true;
        }
    }
    false
}

fn is_acu_of(unit: &Unit, ram: u8) -> bool
    ensures { IsTrue result ↔ ((unit.now.kind ≡ kind.Acu) × (unit.now.ram ≡ ram)) }
{
    unit.kind == Kind::Acu && unit.ram == ram
}

/// Whether an acu addresses the ram.
fn has_acu(datapath: &Datapath, ram: u8) -> bool
    ensures { IsTrue result ↔ ((u : ℕ) × IsAcuOf datapath.now ram u) }
{
    for unit in datapath.units.iter() {
        if is_acu_of(unit, ram) {
            return true;
        }
    }
    false
}

/// Whether the ram with this number has so many cells left.
fn has_room(target: &Target, memory: &LineMemory, cells: u32, ram: usize) -> bool
    requires used { AreUsed target.now.spare target.now.datapath.now memory.now.lines memory.now.used }
    requires unit { ram < length target.now.datapath.now.units }
    ensures { IsTrue result ↔ HasRoom target.now.spare target.now.datapath.now memory.now.lines cells ram }
{
    let unit = &target.datapath.units[ram];
    let wanted = u64::from(memory.used[ram]) + u64::from(cells);
    unit.kind == Kind::Ram && wanted <= u64::from(unit.cells)
}

/// The first ram with so many cells left.
fn ram_for(target: &Target, memory: &LineMemory, cells: u32) -> Option<u8>
    requires datapath { IsDatapath target.now.datapath.now }
    requires used { AreUsed target.now.spare target.now.datapath.now memory.now.lines memory.now.used }
    ensures { IsFirstRam target.now.spare target.now.datapath.now memory.now.lines cells result }
{
    for ram in 0..target.datapath.units.len() {
        if has_room(target, memory, cells, ram) {
            return Some(ram as u8);
        }
    }
    None
}

/// The longest of rising delays.
fn longest(delays: &List<u16>) -> Option<u16>
    requires { IsStrictlyIncreasing delays.now }
    ensures some { IfSome result (IsLongest delays.now) }
    ensures none { IfNone result (length delays.now ≡ 0) }
{
    if delays.is_empty() {
        None
    } else {
        Some(delays[delays.len() - 1])
    }
}

/// Why node v has no line, where no ram has room for it.
fn no_room(datapath: &Datapath, v: u32) -> LineFault
    ensures { IsNoRoom datapath.now v result }
{
    if has_ram(datapath) {
        LineFault::LinesFull(v)
    } else {
        LineFault::NoRam(v)
    }
}

/// The line of node v of the graph, which has this number in the lowered list and this longest delay.
fn line_for(
    target: &Target,
    memory: &LineMemory,
    v: u32,
    number: u32,
    depth: u16,
) -> Result<Line, LineFault>
    requires datapath { IsDatapath target.now.datapath.now }
    requires used { AreUsed target.now.spare target.now.datapath.now memory.now.lines memory.now.used }
    ensures line { IfOk result (IsPlacedLine target.now.spare target.now.datapath.now memory.now.lines number depth) }
    ensures fault { IfErr result (IsPlaceFault target.now.spare target.now.datapath.now memory.now.lines v depth) }
{
    let ram = match ram_for(target, memory, target.cells(depth)) {
        Some(ram) => ram,
        None => return Err(no_room(target.datapath, v)),
    };
    if !has_acu(target.datapath, ram) {
        return Err(LineFault::NoAcu { ram, node: v });
    }
    Ok(Line {
        node: number,
        ram,
        offset: memory.used[usize::from(ram)],
        depth,
    })
}

/// Adds the line of node v of the graph.
fn place(
    target: &Target,
    memory: &mut LineMemory,
    v: u32,
    number: u32,
    depth: u16,
) -> Result<(), LineFault>
    requires datapath { IsDatapath target.now.datapath.now }
    requires used { AreUsed target.now.spare target.now.datapath.now memory.old.lines memory.old.used }
    ensures placed { OnOk result (Places target.now.spare target.now.datapath.now number depth memory.old memory.new) }
    ensures fault { IfErr result (λ fault. (fault ≡ Memory)
        ⊎ IsPlaceFault target.now.spare target.now.datapath.now memory.old.lines v depth fault) }
{
    let line = line_for(target, memory, v, number, depth)?;
    memory.lines.push(line)?;
    memory.used[usize::from(line.ram)] = line.offset + target.cells(line.depth);
    Ok(())
}

fn no_lines(alloc: Global, target: &Target) -> Result<LineMemory, AllocError>
    requires { IsDatapath target.now.datapath.now }
    ensures lines { IfOk result (λ memory. memory.lines ≡ []) }
    ensures used { IfOk result (λ memory. AreUsed target.now.spare target.now.datapath.now [] memory.used) }
{
    let mut used = List::with_capacity(alloc, target.datapath.units.len())?;
    for _ in 0..target.datapath.units.len() {
        used.push(0)?;
    }
    Ok(LineMemory {
        lines: List::new(alloc),
        used,
    })
}

/// Adds the line of node v, if it has one.
fn place_next(
    target: &Target,
    delays: &List<List<u16>>,
    numbers: &List<u32>,
    v: usize,
    memory: &mut LineMemory,
) -> Result<(), LineFault>
    requires datapath { IsDatapath target.now.datapath.now }
    requires few { AreFew delays.now }
    requires rise { (v : ℕ) → IsStrictlyIncreasing (delays_at delays.now v) }
    requires numbers { AreNumbers delays.now (length delays.now) numbers.now }
    requires node { v < length delays.now }
    requires before { AreLinesBefore target.now.spare target.now.datapath.now delays.now v memory.old }
    ensures lines { OnOk result
        (AreLinesBefore target.now.spare target.now.datapath.now delays.now (v + 1) memory.new) }
    ensures fault { IfErr result (λ fault. (fault ≡ Memory)
        ⊎ IsStop target.now.spare target.now.datapath.now delays.now fault) }
{
    match longest(&delays[v]) {
        None => Ok(()),
        Some(depth) => place(target, memory, v as u32, numbers[v], depth),
    }
}

/// The lines of all nodes that have long delays.
fn place_all(
    target: &Target,
    delays: &List<List<u16>>,
    numbers: &List<u32>,
    memory: &mut LineMemory,
) -> Result<(), LineFault>
    requires datapath { IsDatapath target.now.datapath.now }
    requires few { AreFew delays.now }
    requires rise { (v : ℕ) → IsStrictlyIncreasing (delays_at delays.now v) }
    requires numbers { AreNumbers delays.now (length delays.now) numbers.now }
    requires none { AreLinesBefore target.now.spare target.now.datapath.now delays.now 0 memory.old }
    ensures lines { OnOk result
        (AreLinesBefore target.now.spare target.now.datapath.now delays.now (length delays.now) memory.new) }
    ensures fault { IfErr result (λ fault. (fault ≡ Memory)
        ⊎ IsStop target.now.spare target.now.datapath.now delays.now fault) }
{
    for v in 0..delays.len() {
        place_next(target, delays, numbers, v, memory)?;
    }
    Ok(())
}

/// The lines of all nodes that have long delays, in order.
pub(crate) fn lines_of(
    alloc: Global,
    target: &Target,
    delays: &List<List<u16>>,
    numbers: &List<u32>,
) -> Result<List<Line>, LineFault>
    requires datapath { IsDatapath target.now.datapath.now }
    requires few { AreFew delays.now }
    requires rise { (v : ℕ) → IsStrictlyIncreasing (delays_at delays.now v) }
    requires numbers { AreNumbers delays.now (length delays.now) numbers.now }
    ensures count { IfOk result (λ lines. length lines ≡ length (stored delays.now)) }
    ensures lines { IfOk result (AreLines target.now.spare target.now.datapath.now delays.now) }
    ensures fault { IfErr result (λ fault. (fault ≡ Memory)
        ⊎ IsStop target.now.spare target.now.datapath.now delays.now fault) }
{
    let mut memory = no_lines(alloc, target)?;
    place_all(target, delays, numbers, &mut memory)?;
    Ok(memory.lines)
}
