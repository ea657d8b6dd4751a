//! The members of a table, and whole numbers among them.

ghost use Rattle.std.specs.Prelude.{◌≡◌, ◌≤◌, map, option_map, IfOk};
ghost use Rattle.std.specs.List.{list_any};
ghost use Rattle.std.specs.Str.{bytes_eq};
ghost use Rattle.toml.specs.Data.{get_member};
ghost use Rattle.toml.specs.View.{view, table_view};
ghost use Rattle.toml_rows.specs.Rows.{keys_among};
ghost use Rattle.toml_rows.specs.Texts.{texts};
ghost use Rattle.toml_rows.specs.Values.{whole};

use crate::misfit::Misfit;
use toml::{Table, Value};

/// What stands at the key.
pub fn member<'a>(table: &'a Table, name: &str) -> Option<&'a Value>
    ensures { option_map (λ x. view x.now) result ≡ get_member name.now (table_view table.now) }
{
    table.get(name)
}

fn is_among(names: &[&str], key: &str) -> bool
    ensures { result ≡ list_any (λ k. bytes_eq key.now k.now) names.now }
{
    names.iter().any(|name| key == *name)
}

/// Whether each key of the table is one of these.
pub fn has_only(table: &Table, names: &[&str]) -> bool
    ensures { result ≡ keys_among (texts names.now) (table_view table.now) }
{
    for (key, _) in table.iter() {
        if !is_among(names, key.as_str()) {
            return false;
        }
    }
    true
}

/// A whole number of the range.
pub fn as_whole(value: &Value, least: u32, most: u32) -> Result<u32, Misfit>
    ensures value { result ≡ whole least most (view value.now) }
    ensures bound { IfOk result (λ n. (least ≤ n) × (n ≤ most)) }
{
    match value.as_integer() {
        Some(n) if i64::from(least) <= n && n <= i64::from(most) => Ok(n as u32),
        Some(_) => Err(Misfit::Range),
        None => Err(Misfit::WrongKind),
    }
}
