//! The whole file.

ghost use Rattle.std.specs.Prelude.{◌≡◌, ◌⊎◌, IfOk, IfErr, OnOk};
ghost use Rattle.std.specs.List.{All};
ghost use Rattle.toml.specs.View.{table_view};
ghost use Rattle.toml_rows.specs.Reading.{Gives};
ghost use Rattle.net_core.specs.Allowed.{IsNetFile};
ghost use Rattle.net_core.specs.declared.fault.NetFault.TheVariants.{Memory};
ghost use Rattle.net_file.specs.Described.{IsNetOf, HasTexts};
ghost use Rattle.net_file.specs.NetRules.{IsNetFileFault, HasNoFault};
ghost use Rattle.net_file.specs.Private.Reading.{net_in, net_of};

use crate::keys::{only_keys, whole_key};
use crate::procs::{all_procs, tables_key};
use net_core::{NetFault, NetFile, NetSection};
use std::alloc::Global;
use toml::Table;

/// The most bytes of a net file.
const MOST_BYTES: usize = 1 << 20;

#[tactic(auto, unfolding(crate::specs::Private::Reading::net_in))]
fn net_in(alloc: Global, table: &Table) -> Result<NetFile, NetFault>
    ensures net { Gives Memory result (net_in (table_view table.now)) }
    ensures texts { IfOk result (λ net. All HasTexts net.procs) }
{
    only_keys(NetSection::Top, table, &["inputs", "capacity", "proc"])?;
    let inputs = whole_key(table, "inputs", None, 16)?;
    let capacity = whole_key(table, "capacity", Some(1), 64)?;
    let tables = tables_key(alloc, table)?;
    let procs = all_procs(alloc, inputs as u8, tables.as_slice())?;
    Ok(NetFile {
        inputs: inputs as u8,
        capacity: capacity as u8,
        procs,
    })
}

/// The net, or the first fault that is met on the way through the file.
#[tactic(auto, unfolding(crate::specs::Private::Reading::net_of))]
fn read_in_order(alloc: Global, text: &[u8]) -> Result<NetFile, NetFault>
    ensures net { Gives Memory result (net_of text.now) }
    ensures texts { IfOk result (λ net. All HasTexts net.procs) }
{
    if text.len() > MOST_BYTES {
        return Err(NetFault::TooLong);
    }
    match toml::table_from_slice(alloc, text) {
        Ok(table) => net_in(alloc, &table),
        Err(error) => {
            if error.is_memory() {
                Err(NetFault::Memory)
            } else {
                Err(NetFault::NotToml)
            }
        }
    }
}

/// The net that the file describes, or its first fault, in the order of `docs/NETS.md`: too many bytes, no TOML, the
/// top table, each processor's table.
///
/// # Errors
///
/// The first fault, of those up to `Range`, with the table that has it. `Memory` where no memory is left.
pub fn read_net(alloc: Global, text: &[u8]) -> Result<NetFile, NetFault>
    ensures described { IfOk result (IsNetOf text.now) }
    ensures allowed { IfOk result IsNetFile }
    ensures texts { IfOk result (λ net. All HasTexts net.procs) }
    ensures clear { OnOk result (HasNoFault text.now) }
    ensures fault { IfErr result (λ fault. (fault ≡ Memory) ⊎ IsNetFileFault text.now fault) }
{
    read_in_order(alloc, text)
}
