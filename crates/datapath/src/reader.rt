ghost use Rattle.std.specs.Prelude.{◌≡◌, ◌⊎◌, IfOk, IfErr, Ok, Err, map};
ghost use Rattle.toml.specs.View.{table_view};
ghost use Rattle.datapath.specs.Reading.{Gives};
ghost use Rattle.datapath.specs.PathOf.{path_at, path_of};
ghost use Rattle.datapath.specs.Allowed.{IsDatapath};
ghost use Rattle.datapath.specs.Described.{IsPathOf};
ghost use Rattle.datapath.specs.PathRules.{IsPathFault};
ghost use Rattle.datapath.specs.declared.types.Datapath as of_path;
ghost use Rattle.datapath.specs.declared.fault.PathFault as of_fault;
ghost use Rattle.datapath.specs.declared.fault.PathFault.TheVariants.{Memory};

use crate::arrays::tables_key;
use crate::buses::all_buses;
use crate::fault::{PathFault, Section};
use crate::keys::{only_keys, whole_key};
use crate::types::Datapath;
use crate::units::units_of;
use fix_word::MOST_BITS;
use std::alloc::Global;
use toml::Table;

/// The most bytes of a datapath file.
const MOST_BYTES: usize = 1 << 20;

/// The most bits that a datapath may say its widest word has.
const MOST_WORD: u32 = MOST_BITS as u32;

#[tactic(auto, unfolding(crate::specs::PathOf::path_at))]
fn path_at(alloc: Global, table: &Table) -> Result<Datapath, PathFault>
    ensures { Gives result (path_at (table_view table.now)) }
{
    let keys = &["period", "word", "hold", "unit", "bus"];
    only_keys(Section::Top, table, keys)?;
    let period = whole_key(Section::Top, table, "period", None, 1, 4096)?;
    let word = whole_key(Section::Top, table, "word", None, 8, MOST_WORD)?;
    let hold = whole_key(Section::Top, table, "hold", Some(0), 0, 3)?;
    let unit = tables_key(alloc, table, "unit")?;
    let bus = tables_key(alloc, table, "bus")?;
    let units = units_of(alloc, unit.as_slice())?;
    let buses = all_buses(alloc, units.as_slice(), bus.as_slice())?;
    Ok(Datapath {
        period: period as u16,
        word: word as u8,
        hold: hold as u8,
        units,
        buses,
    })
}

/// The datapath, or the first fault that is met on the way through the file.
#[tactic(auto, unfolding(crate::specs::PathOf::path_of))]
fn read_in_order(alloc: Global, text: &[u8]) -> Result<Datapath, PathFault>
    ensures path { Gives result (path_of text.now) }
    ensures allowed { IfOk result IsDatapath }
{
    if text.len() > MOST_BYTES {
        return Err(PathFault::TooLong);
    }
    match toml::table_from_slice(alloc, text) {
        Ok(table) => path_at(alloc, &table),
        Err(error) => {
            if error.is_memory() {
                Err(PathFault::Memory)
            } else {
                Err(PathFault::NotToml)
            }
        }
    }
}

/// The datapath that the file describes, or its first fault, in the order of `docs/DATAPATH.md`: too many bytes, no
/// TOML, the top table, each unit's table, the units' names, the rams of the acus, each bus.
///
/// # Errors
///
/// The first fault, with the table that has it. `Memory` where no memory is left.
pub fn read(alloc: Global, text: &[u8]) -> Result<Datapath, PathFault>
    ensures path { Gives result (path_of text.now) }
    ensures described { IfOk result (IsPathOf text.now) }
    ensures allowed { IfOk result IsDatapath }
    ensures fault { IfErr result (λ fault. (fault ≡ Memory) ⊎ IsPathFault text.now fault) }
    // The one datapath that a file describes is always found, unless memory runs out.
    ensures found { (d : of_path.Datapath) → IsPathOf text.now d → (result ≡ Ok d) ⊎ (result ≡ Err Memory) }
    // So is the first fault of a file.
    ensures refused { (fault : of_fault.PathFault) → IsPathFault text.now fault
        → (result ≡ Err fault) ⊎ (result ≡ Err Memory) }
{
    read_in_order(alloc, text)
}
