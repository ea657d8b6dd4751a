//! Sets of ports.

ghost use Rattle.std.specs.Prelude.{◌≡◌, ◌<◌, ◌↔◌, ◌⊎◌, ℕ, OnOk, OnErr};
ghost use Rattle.std.specs.List.{All};
ghost use Rattle.bit_sets.specs.Bits.{Has};
ghost use Rattle.schedule_priority.specs.Private.Ports.{most_ports, place, IsPortOf, ArePortsOf};

use bit_sets::Set128;
use datapath::PortRef;
use std::alloc::AllocError;

/// The most ports that a unit has.
const PORTS: u8 = 3;

/// The set of ports with one more. A datapath has at most 32 units, and a port has its number by unit, then port.
pub(crate) fn with_port(set: Set128, unit: u8, port: u8) -> Set128
    requires unit { unit < 32 }
    requires port { port < most_ports }
    ensures { (k : ℕ) → Has result.bits k ↔ (Has set.bits k ⊎ (k ≡ place unit port)) }
{
    set.with(unit * PORTS + port)
}

/// Puts the ports of the set, in order, in the place of what the list has. Where no memory is left, some of them.
pub(crate) fn list_ports(set: Set128, ports: &mut Vec<PortRef>) -> Result<(), AllocError>
    ensures ok { OnOk result (ArePortsOf set.bits ports.new.items) }
    ensures err { OnErr result (All (IsPortOf set.bits) ports.new.items) }
{
    let mut left = set;
    ports.clear();
    while let Some(first) = left.pop_first() {
        ports.push(PortRef {
            unit: first / PORTS,
            port: first % PORTS,
        })?;
    }
    Ok(())
}
