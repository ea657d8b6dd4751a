//! What a command keeps for its caller.
ghost use Rattle.std.specs.Prelude.{◌≡◌, IfOk, IfErr};
ghost use Rattle.silc.specs.declared.kept.Kept.TheVariants.{Nothing, One, Staged, Joined};

use cycle_sim::Machine;
use overlap_sim::GuardedMachine;
use proc_net::Net;
use statuses::{Ending, Status};

/// What a command keeps for its caller.
#[derive(Drop)]
pub enum Kept {
    Nothing,
    /// The machine after the last sample.
    One(Machine),
    /// The machine of samples that overlap, after the last one.
    Staged(GuardedMachine),
    /// The net of processors that have run all samples.
    Joined(Net),
}

/// Keeps the machine of a command that is done, and gives how the command ended.
pub(crate) fn keep(ran: Result<Machine, Ending>, kept: &mut Kept) -> Ending
    requires { kept.old ≡ Nothing }
    ensures done { IfOk ran (λ machine. (result.status ≡ Status.Done) × (kept.new ≡ One machine)) }
    ensures error { IfErr ran (λ ending. (result ≡ ending) × (kept.new ≡ Nothing)) }
{
    match ran {
        Ok(machine) => {
            *kept = Kept::One(machine);
            Ending::from(Status::Done)
        }
        Err(ending) => ending,
    }
}

/// Keeps the machine of samples that overlap, as `keep` does.
pub(crate) fn keep_staged(ran: Result<GuardedMachine, Ending>, kept: &mut Kept) -> Ending
    requires { kept.old ≡ Nothing }
    ensures done { IfOk ran (λ machine. (result.status ≡ Status.Done) × (kept.new ≡ Staged machine)) }
    ensures error { IfErr ran (λ ending. (result ≡ ending) × (kept.new ≡ Nothing)) }
{
    match ran {
        Ok(machine) => {
            *kept = Kept::Staged(machine);
            Ending::from(Status::Done)
        }
        Err(ending) => ending,
    }
}

/// Keeps the net of processors, as `keep` does a machine.
pub(crate) fn keep_joined(ran: Result<Net, Ending>, kept: &mut Kept) -> Ending
    requires { kept.old ≡ Nothing }
    ensures done { IfOk ran (λ net. (result.status ≡ Status.Done) × (kept.new ≡ Joined net)) }
    ensures error { IfErr ran (λ ending. (result ≡ ending) × (kept.new ≡ Nothing)) }
{
    match ran {
        Ok(net) => {
            *kept = Kept::Joined(net);
            Ending::from(Status::Done)
        }
        Err(ending) => ending,
    }
}
