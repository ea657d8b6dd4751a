//! A key of a table: whether it is there, and which keys a table has.

ghost use Rattle.std.specs.Prelude.{◌≡◌, ◌≤◌, option_map, IfOk, IfSome};
ghost use Rattle.std.specs.List.{list_any};
ghost use Rattle.std.specs.Str.{bytes_eq};
ghost use Rattle.toml.specs.Data.{get_member};
ghost use Rattle.toml.specs.View.{view, table_view};
ghost use Rattle.datapath.specs.Table.{row};
ghost use Rattle.datapath.specs.Values.{whole};
ghost use Rattle.datapath.specs.Reading.{found, key, only, keys_among};
ghost use Rattle.datapath.specs.Private.Answers.{texts};

use crate::fault::{Misfit, PathFault, Section};
use crate::values::as_whole;
use toml::{Table, Value};

pub(crate) fn member<'a>(table: &'a Table, name: &str) -> Option<&'a Value>
    ensures { option_map (λ x. view x.now) result ≡ get_member name.now (table_view table.now) }
{
    table.get(name)
}

/// What a value comes to that was judged, or its default where the key is missing.
pub(crate) fn settle<T: Drop>(
    section: Section,
    default: Option<T>,
    value: Option<Result<T, Misfit>>,
) -> Result<T, PathFault>
    ensures { result ≡ found section default value }
{
    match value {
        Some(Ok(value)) => Ok(value),
        Some(Err(Misfit::WrongKind)) => Err(PathFault::WrongKind(section)),
        Some(Err(Misfit::Range)) => Err(PathFault::Range(section)),
        None => default.ok_or(PathFault::Missing(section)),
    }
}

#[tactic(auto, unfolding(crate::specs::Reading::key))]
pub(crate) fn whole_key(
    section: Section,
    table: &Table,
    name: &str,
    default: Option<u32>,
    least: u32,
    most: u32,
) -> Result<u32, PathFault>
    requires { IfSome default (λ n. (least ≤ n) × (n ≤ most)) }
    ensures value { result ≡ key section (table_view table.now) (row name.now (whole least most) default) }
    ensures bound { IfOk result (λ n. (least ≤ n) × (n ≤ most)) }
{
    match member(table, name) {
        Some(value) => settle(section, default, Some(as_whole(value, least, most))),
        None => settle(section, default, None),
    }
}

fn is_among(names: &[&str], key: &str) -> bool
    ensures { result ≡ list_any (λ k. bytes_eq key.now k.now) names.now }
{
    names.iter().any(|name| key == *name)
}

fn has_only(table: &Table, names: &[&str]) -> bool
    ensures { result ≡ keys_among (texts names.now) (table_view table.now) }
{
    for (key, _) in table.iter() {
        if !is_among(names, key.as_str()) {
            return false;
        }
    }
    true
}

#[tactic(auto, unfolding(crate::specs::Reading::only))]
pub(crate) fn only_keys(section: Section, table: &Table, names: &[&str]) -> Result<(), PathFault>
    ensures { result ≡ only section (table_view table.now) (texts names.now) }
{
    if has_only(table, names) {
        Ok(())
    } else {
        Err(PathFault::UnknownKey(section))
    }
}
