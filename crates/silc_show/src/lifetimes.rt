//! Registers for lifetimes, repeated for the scripts under `bench/` to measure: for those of a plan, and for short ones
//! in more registers than they need, which no plan has.

ghost use Rattle.std.specs.Prelude.{◌≡◌, ◌/◌, ◌+◌, IfOk, IfSome};
ghost use Rattle.datapath.specs.Allowed.{IsDatapath, IsPort};
ghost use Rattle.reg_alloc.specs.Allottable.{AreAllottable};

use crate::page::{Page, Refused};
use crate::path::datapath_of;
use datapath::{Datapath, PortRef};
use lists::List;
use plan_core::{Arc, Arcs};
use reg_alloc::{FileFault, allot};
use std::alloc::{AllocError, Global};

/// In how many registers the words of a short lifetime stand in turn.
const COPIES: u8 = 4;

/// How many short lifetimes begin in a cycle.
const A_CYCLE: u16 = 2;

/// The first port of the first bus.
fn first_port(path: &Datapath) -> Option<PortRef>
    requires { IsDatapath path.now }
    ensures { IfSome result (IsPort path.now.units) }
{
    let bus = path.buses.first()?;
    bus.to.first().copied()
}

/// The lifetime of a node that is read in the cycle after that of its write.
fn short_lifetime(node: u16, port: PortRef) -> Arc
    ensures node { result.node ≡ node }
    ensures port { result.port ≡ port }
    ensures write { result.w ≡ node / 2 }
    ensures read { result.r ≡ node / 2 + 1 }
    ensures copies { result.copies ≡ 4 }
{
    let cycle = node / A_CYCLE;
    Arc {
        node: u32::from(node),
        port,
        w: cycle,
        r: cycle + 1,
        copies: COPIES,
    }
}

/// Short lifetimes at a port, over all cycles of the period.
#[tactic(auto, using(crate::proofs::ShortLifetimes::none_short, crate::proofs::ShortLifetimes::short_pushed))]
fn short_lifetimes(alloc: Global, path: &Datapath, port: PortRef) -> Result<Arcs, AllocError>
    requires path { IsDatapath path.now }
    requires port { IsPort path.now.units port }
    ensures { IfOk result (AreAllottable path.now) }
{
    let mut arcs = List::new(alloc);
    for node in 0..A_CYCLE * path.period {
        arcs.push(short_lifetime(node, port))?;
    }
    Ok(arcs)
}

/// How many lifetimes get registers.
pub fn registers(page: &mut Page, arcs: &Arcs, path: &Datapath) -> Result<usize, Refused>
    requires path { IsDatapath path.now }
    requires arcs { AreAllottable path.now arcs.now }
{
    match allot(page.alloc, arcs, path) {
        Ok(allotted) => Ok(allotted.regs.len()),
        Err(FileFault::Memory) => Err(page.cut()),
        Err(fault) => Err(page.refuse_in_words(&fault)),
    }
}

fn allot_again(page: &mut Page, turns: u32, arcs: &Arcs, path: &Datapath) -> Result<u64, Refused>
    requires path { IsDatapath path.now }
    requires arcs { AreAllottable path.now arcs.now }
{
    let mut count = 0u64;
    for _ in 0..turns {
        count = count.wrapping_add(registers(page, arcs, path)? as u64);
    }
    Ok(count)
}

fn allot_short(page: &mut Page, turns: u32, path: &Datapath) -> Result<u64, Refused>
    requires { IsDatapath path.now }
{
    let Some(port) = first_port(path) else {
        return Ok(0);
    };
    match short_lifetimes(page.alloc, path, port) {
        Ok(arcs) => allot_again(page, turns, &arcs, path),
        Err(_) => Err(page.cut()),
    }
}

/// What the turns of `allot` over short lifetimes at the first port of a datapath file's first bus add up to.
pub fn allot_path(page: &mut Page, turns: u32, path: &[u8]) -> Result<u64, Refused> {
    let path = datapath_of(page, path)?;
    allot_short(page, turns, &path)
}
