//! The register-file writes of a cycle.

ghost use Rattle.std.specs.Prelude.{◌≡◌, ◌%◌, ◌<◌, ℕ, length, IfOk};
ghost use Rattle.plan_core.specs.declared.schedule.Transfer.{Transfer};
ghost use Rattle.microcode_asm.specs.Private.Ready.{IsReady};
ghost use Rattle.microcode_asm.specs.Buses.{IsBusTo};
ghost use Rattle.microcode_asm.specs.Private.Words.{HasTakes, IsTakeFor, IsIssuer};

use crate::fault::AsmFault;
use crate::issues::Issuer;
use crate::lifetimes::is_same_port;
use datapath::{Datapath, PortRef};
use micro_image::{Take, Takes};
use plan_core::{Plan, Transfer};
use std::alloc::Global;

/// The bus of the transfer to the port, which there is.
pub fn bus_to(transfers: &[Transfer], port: PortRef) -> u8
    requires { (bus : ℕ) × IsBusTo transfers.now port bus }
    ensures { IsBusTo transfers.now port result }
{
    for transfer in transfers {
        if is_same_port(transfer.port, port) {
            return transfer.bus;
        }
    }
    unreachable!()
}

/// The copy with the word of sample n, where the words of successive samples stand in so many copies in turn.
pub fn copy_in(copies: u8, n: usize) -> usize
    requires { 0 < copies }
    ensures { result ≡ n % copies }
{
    if copies == 1 {
        return 0;
    }
    n % usize::from(copies)
}

/// The take of lifetime k in sample n.
fn take(plan: &Plan, datapath: &Datapath, k: usize, n: usize) -> Take
    requires ready { IsReady datapath.now plan.now }
    requires there { k < length plan.now.arcs }
    ensures { IsTakeFor plan.now k n result }
{
    let arc = plan.arcs[k];
    let slot = &plan.schedule.slots[arc.node as usize];
    Take {
        port: arc.port,
        bus: bus_to(slot.transfers.as_slice(), arc.port),
        reg: plan.registers.regs[k][copy_in(arc.copies, n)],
    }
}

/// The register-file writes of cycle c of sample n.
pub(crate) fn takes(alloc: Global, issuer: &Issuer, n: usize, c: usize) -> Result<Takes, AsmFault>
    requires issuer { IsIssuer issuer.now }
    requires sample { n < issuer.now.plan.now.unroll }
    requires cycle { c < issuer.now.datapath.now.period }
    ensures { IfOk result (HasTakes issuer.now.plan.now n c) }
{
    let mut takes = Takes::new(alloc);
    let mut k = issuer.written.first[c];
    while k < issuer.plan.arcs.len() {
        takes.push(take(issuer.plan, issuer.datapath, k, n))?;
        k = issuer.written.next[k];
    }
    Ok(takes)
}
