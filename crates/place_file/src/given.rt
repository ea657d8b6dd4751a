//! The places that a text gives.

ghost use Rattle.std.specs.Prelude.{◌≡◌, ◌<◌, ◌⊎◌, ◌^◌, length, IfOk, IfErr, Ok, Err};
ghost use Rattle.datapath.specs.Allowed.{IsDatapath};
ghost use Rattle.place_file.specs.Lines.{lines_of};
ghost use Rattle.place_file.specs.Given.{IsGivenBy};
ghost use Rattle.place_file.specs.Faults.{IsGivenFault};
ghost use Rattle.place_file.specs.Private.Entries.{AreEntries, AreKeys, AreGiven, IsFirstBad, IsMiscounted};
ghost use Rattle.place_file.specs.declared.given.Given as of_given;
ghost use Rattle.place_file.specs.declared.fault.GivenFault as of_fault;
ghost use Rattle.place_file.specs.declared.fault.GivenFault.TheVariants.{Memory};

use crate::entry::{Entry, entry_of};
use crate::fault::{GivenFault, LineCause};
use crate::line::{LINE_FEED, split_part};
use datapath::Datapath;
use lists::List;
use placed_plan::Place;
use std::alloc::Global;

/// The places of nodes, and the line that gives each, from 1.
#[derive(Drop)]
pub struct Given {
    pub places: List<Place>,
    pub lines: List<u32>,
}

/// There are fewer entries.
const KEY_LIMIT: u64 = 1 << 32;

/// What the lines say, in their order.
fn entries_of(alloc: Global, text: &[u8], datapath: &Datapath) -> Result<List<Entry>, GivenFault>
    requires datapath { IsDatapath datapath.now }
    requires short { length text.now < 2 ^ 31 }
    ensures entries { IfOk result (AreEntries datapath.now text.now (length (lines_of text.now))) }
    ensures fault { IfErr result (λ fault. (fault ≡ Memory) ⊎ IsFirstBad datapath.now text.now fault) }
{
    let mut entries = List::new(alloc);
    let mut left = Some(text);
    let mut line: u32 = 0;
    while let Some(rest) = left {
        let (bytes, behind) = split_part(rest, LINE_FEED);
        line += 1;
        if let Some(entry) = entry_of(bytes, datapath, line)? {
            entries.push(entry)?;
        }
        left = behind;
    }
    Ok(entries)
}

/// The keys of the entries in order: of each its node, and then its place among the entries.
fn keys_of(alloc: Global, entries: &List<Entry>) -> Result<Vec<u64>, GivenFault>
    requires { length entries.now < 2 ^ 32 }
    ensures keys { IfOk result (λ keys. AreKeys entries.now keys.items) }
    ensures fault { IfErr result (λ fault. fault ≡ Memory) }
{
    let mut keys = Vec::with_capacity(alloc, entries.len())?;
    for k in 0..entries.len() {
        keys.push(u64::from(entries[k].node) * KEY_LIMIT + k as u64)?;
    }
    keys.sort_unstable();
    Ok(keys)
}

/// The places of the nodes from 0 on, of which each has one entry. The keys are those of the entries in order.
fn given_of(alloc: Global, entries: &List<Entry>, keys: &[u64]) -> Result<Given, GivenFault>
    requires keys { AreKeys entries.now keys.now }
    ensures given { IfOk result (AreGiven entries.now keys.now) }
    ensures fault { IfErr result (λ fault. (fault ≡ Memory) ⊎ IsMiscounted entries.now keys.now fault) }
{
    let mut places = List::with_capacity(alloc, keys.len())?;
    let mut lines = List::with_capacity(alloc, keys.len())?;
    for v in 0..keys.len() {
        let entry = entries[(keys[v] % KEY_LIMIT) as usize];
        if (entry.node as usize) < v {
            return Err(GivenFault::Line {
                line: entry.line,
                cause: LineCause::Twice,
            });
        }
        if entry.node as usize > v {
            return Err(GivenFault::Missing(v as u32));
        }
        places.push(entry.place)?;
        lines.push(entry.line)?;
    }
    Ok(Given { places, lines })
}

/// The places that the lines of a text give to the nodes from 0 on. Lines that do not begin with `node` give none.
///
/// # Errors
///
/// `Line` at the first line that begins with `node` and is no line as `node 3 cycle 5 unit alu`. Else the first node,
/// by number, that has not one line: `Missing` where it has none, and one behind it has; `Line` with `Twice` at the
/// second of its lines where it has more. `Memory` where no memory is left.
pub fn places_in(alloc: Global, text: &[u8], datapath: &Datapath) -> Result<Given, GivenFault>
    requires datapath { IsDatapath datapath.now }
    requires short { length text.now < 2 ^ 31 }
    ensures given { IfOk result (IsGivenBy datapath.now text.now) }
    ensures fault { IfErr result (λ fault. (fault ≡ Memory) ⊎ IsGivenFault datapath.now text.now fault) }
    // The places are always found, unless memory runs out.
    ensures found { (given : of_given.Given) → IsGivenBy datapath.now text.now given
        → (result ≡ Ok given) ⊎ (result ≡ Err Memory) }
    // So is the first fault.
    ensures refused { (fault : of_fault.GivenFault) → IsGivenFault datapath.now text.now fault
        → (result ≡ Err fault) ⊎ (result ≡ Err Memory) }
{
    let entries = entries_of(alloc, text, datapath)?;
    let keys = keys_of(alloc, &entries)?;
    given_of(alloc, &entries, keys.as_slice())
}
