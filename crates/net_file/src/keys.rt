//! What stands at a key, or the fault of its table.

ghost use Rattle.std.specs.Prelude.{◌≡◌, ◌≤◌, IfOk, IfSome, None, IsUtf8};
ghost use Rattle.toml.specs.View.{view, table_view};
ghost use Rattle.toml_rows.specs.Reading.{Gives, judged, key, misfit_at, only};
ghost use Rattle.toml_rows.specs.Rows.{row};
ghost use Rattle.toml_rows.specs.Texts.{texts};
ghost use Rattle.toml_rows.specs.Values.{whole};
ghost use Rattle.net_core.specs.declared.fault.NetFault.TheVariants.{Memory};
ghost use Rattle.net_core.specs.declared.fault.NetSection.TheVariants as section;
ghost use Rattle.net_file.specs.NetRules.{in_table};
ghost use Rattle.net_file.specs.Table.{file_name};

use lists::Name;
use net_core::{NetFault, NetSection};
use std::alloc::Global;
use toml::{Table, Value};
use toml_rows::{Misfit, as_whole, has_only, member};

/// What a value comes to that was judged.
pub(crate) fn settle<T: Drop>(section: NetSection, value: Result<T, Misfit>) -> Result<T, NetFault>
    ensures { result ≡ judged (in_table section) value }
{
    match value {
        Ok(value) => Ok(value),
        Err(Misfit::WrongKind) => Err(NetFault::WrongKind(section)),
        Err(Misfit::Range) => Err(NetFault::Range(section)),
    }
}

#[tactic(auto, unfolding(toml_rows::specs::Reading::only))]
pub(crate) fn only_keys(section: NetSection, table: &Table, names: &[&str]) -> Result<(), NetFault>
    ensures { result ≡ only (in_table section) (table_view table.now) (texts names.now) }
{
    if has_only(table, names) {
        Ok(())
    } else {
        Err(NetFault::UnknownKey(section))
    }
}

/// A number from 1 on in the top table.
#[tactic(auto, unfolding(toml_rows::specs::Reading::key))]
pub(crate) fn whole_key(
    table: &Table,
    name: &str,
    default: Option<u32>,
    most: u32,
) -> Result<u32, NetFault>
    requires { IfSome default (λ n. (1 ≤ n) × (n ≤ most)) }
    ensures value { result ≡ key (in_table section.Top) (table_view table.now) (row name.now (whole 1 most) default) }
    ensures bound { IfOk result (λ n. (1 ≤ n) × (n ≤ most)) }
{
    match member(table, name) {
        Some(value) => settle(NetSection::Top, as_whole(value, 1, most)),
        None => default.ok_or(NetFault::Missing(NetSection::Top)),
    }
}

fn name_of(alloc: Global, section: NetSection, value: &Value) -> Result<Name, NetFault>
    ensures name { Gives Memory result (judged (in_table section) (file_name (view value.now))) }
    ensures text { IfOk result IsUtf8 }
{
    match value.as_str() {
        None => Err(NetFault::WrongKind(section)),
        Some(text) => {
            if text.is_empty() {
                Err(NetFault::Range(section))
            } else {
                Ok(Name::from_slice(alloc, text.as_bytes())?)
            }
        }
    }
}

/// The name of a file.
#[tactic(auto, unfolding(toml_rows::specs::Reading::key))]
pub(crate) fn name_key(
    alloc: Global,
    section: NetSection,
    table: &Table,
    name: &str,
) -> Result<Name, NetFault>
    ensures name { Gives Memory result (key (in_table section) (table_view table.now) (row name.now file_name None)) }
    ensures text { IfOk result IsUtf8 }
{
    match member(table, name) {
        Some(value) => name_of(alloc, section, value),
        None => Err(NetFault::Missing(section)),
    }
}
