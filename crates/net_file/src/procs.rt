//! The tables of the processors.

ghost use Rattle.std.specs.Prelude.{◌≡◌, ◌<◌, ◌≤◌, length, map, IfOk, [], None};
ghost use Rattle.std.specs.List.{All};
ghost use Rattle.toml.specs.View.{view, table_view, array_view};
ghost use Rattle.toml_rows.specs.Reading.{Gives, GivesAs, key, in_turn};
ghost use Rattle.toml_rows.specs.Values.{a_table, entries, array_within};
ghost use Rattle.net_core.specs.declared.fault.NetFault.TheVariants.{Memory};
ghost use Rattle.net_core.specs.declared.fault.NetSection.TheVariants as section;
ghost use Rattle.net_file.specs.Table as row;
ghost use Rattle.net_file.specs.Described.{HasTexts};
ghost use Rattle.net_file.specs.NetRules.{in_table};
ghost use Rattle.net_file.specs.Private.Lent.{seen};
ghost use Rattle.net_file.specs.Private.Reading.{proc_in, proc_at};

use crate::keys::{name_key, only_keys, settle};
use crate::wires::feed_key;
use lists::List;
use net_core::{NetFault, NetProc, NetSection};
use std::alloc::{AllocError, Global};
use toml::value::Array;
use toml::{Table, Value};
use toml_rows::{Misfit, member};

/// How many processors a net has at most.
const MOST_PROCS: usize = 8;

/// A list of tables, or why a value is no such list.
type Judged<'a> = Result<Result<List<&'a Table>, Misfit>, AllocError>;

fn table_entries(alloc: Global, array: &Array) -> Judged<'_>
    ensures { IfOk result (λ r. seen (map (λ t. table_view t.now)) r ≡ entries a_table (array_view array.now)) }
{
    let mut tables = List::with_capacity(alloc, array.len())?;
    for value in array.iter() {
        match value.as_table() {
            Some(table) => tables.push(table)?,
            None => return Ok(Err(Misfit::WrongKind)),
        }
    }
    Ok(Ok(tables))
}

fn tables_of(alloc: Global, value: &Value) -> Judged<'_>
    ensures value { IfOk result (λ r. seen (map (λ t. table_view t.now)) r
        ≡ array_within 1 8 a_table (view value.now)) }
    ensures bound { IfOk result (λ r. IfOk r (λ tables. length tables ≤ 8)) }
{
    let Some(array) = value.as_array() else {
        return Ok(Err(Misfit::WrongKind));
    };
    match table_entries(alloc, array)? {
        Ok(tables) if 1 <= tables.len() && tables.len() <= MOST_PROCS => Ok(Ok(tables)),
        Ok(_) => Ok(Err(Misfit::Range)),
        Err(misfit) => Ok(Err(misfit)),
    }
}

/// The tables of all processors.
#[tactic(auto, unfolding(toml_rows::specs::Reading::key))]
pub(crate) fn tables_key(alloc: Global, table: &Table) -> Result<List<&Table>, NetFault>
    ensures value { GivesAs Memory (map (λ t. table_view t.now)) result (key (in_table section.Top) (table_view table.now) row.proc) }
    ensures bound { IfOk result (λ tables. length tables ≤ 8) }
{
    match member(table, "proc") {
        Some(value) => settle(NetSection::Top, tables_of(alloc, value)?),
        None => Err(NetFault::Missing(NetSection::Top)),
    }
}

#[tactic(auto, unfolding(crate::specs::Private::Reading::proc_in))]
fn proc_in(alloc: Global, inputs: u8, own: u8, table: &Table) -> Result<NetProc, NetFault>
    requires inputs { inputs ≤ 16 }
    requires own { own < 8 }
    ensures proc { Gives Memory result (proc_in inputs own (table_view table.now)) }
    ensures texts { IfOk result HasTexts }
{
    let section = NetSection::Proc(own);
    only_keys(section, table, &["src", "dp", "feed"])?;
    let src = name_key(alloc, section, table, "src")?;
    let dp = name_key(alloc, section, table, "dp")?;
    let feed = feed_key(alloc, inputs, own, table)?;
    Ok(NetProc { src, dp, feed })
}

/// All processors.
pub(crate) fn all_procs(
    alloc: Global,
    inputs: u8,
    tables: &[&Table],
) -> Result<List<NetProc>, NetFault>
    requires inputs { inputs ≤ 16 }
    requires count { length tables.now ≤ 8 }
    ensures procs { Gives Memory result (in_turn (proc_at inputs) [] (map (λ t. table_view t.now) tables.now)) }
    ensures texts { IfOk result (All HasTexts) }
{
    let mut procs = List::with_capacity(alloc, tables.len())?;
    for table in tables {
        let own = procs.len() as u8;
        let proc = proc_in(alloc, inputs, own, table)?;
        procs.push(proc)?;
    }
    Ok(procs)
}
