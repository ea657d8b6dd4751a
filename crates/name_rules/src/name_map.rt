//! The names of the tables and functions of a program.

ghost use Rattle.std.specs.Prelude.{◌≡◌, ◌≢◌, ◌<◌, ◌^◌, ◌↔◌, ℕ, length, IfOk, OnOk, IfErr, Contains};
ghost use Rattle.silage_syntax.specs.Tree.{view, view_top};
ghost use Rattle.name_rules.specs.TopNames as name;
ghost use Rattle.name_rules.specs.TopNames.{top_names, IsFirstPlace};
ghost use Rattle.name_rules.specs.FirstTops.{IsDistinct, IsFirstDuplicate};

use crate::NameFault;
use crate::name_set::NameSet;
use lists::Name;
use silage_syntax::{Program, Top};
use std::alloc::Global;
use std::marker::Model;

/// The names of the tables and functions of a program in order, none of them twice.
#[derive(Drop)]
pub struct NameMap {
    names: NameSet,
}

impl Model for NameMap {
    ghost use Rattle.std.specs.Prelude.{ℕ, ◌<◌, ◌^◌, List as Listed, length};

    ghost Value = { Listed (Listed ℕ) };

    ghost view = { λ map. map.names };

    ghost invariant = { λ map. length map.names < 2 ^ 32 };
}

/// What the names of a program without a fault mean: the position of its function `main` among its tables and
/// functions, and the names of these.
#[derive(Drop)]
pub struct Names {
    pub main: u32,
    pub tops: NameMap,
}

/// The name of a table or function.
fn top_name(top: &Top) -> &Name
    ensures { result.now ≡ name.top_name (view_top top.now) }
{
    match top {
        Top::Const(table) => &table.name,
        Top::Func(function) => &function.name,
    }
}

/// The source position of a table or function, its name's.
pub fn top_at(top: &Top) -> u32
    ensures { result ≡ name.top_at (view_top top.now) }
{
    match top {
        Top::Const(table) => table.at,
        Top::Func(function) => function.at,
    }
}

impl NameMap {
    /// The names of a program. The first table or function with a duplicate name is `Twice`.
    pub fn of(alloc: Global, program: &Program) -> Result<NameMap, NameFault>
        requires { length (view program.now).tops < 2 ^ 32 }
        ensures names { IfOk result (λ names. names ≡ top_names (view program.now)) }
        ensures distinct { OnOk result (IsDistinct (top_names (view program.now))) }
        ensures twice { IfErr result (λ fault. fault ≢ NameFault.Memory → IsFirstDuplicate (view program.now) fault) }
    {
        let mut names = NameSet::new(alloc);
        for top in program.tops.as_slice() {
            if !names.insert(alloc, top_name(top))? {
                return Err(NameFault::Twice(top_at(top)));
            }
        }
        Ok(NameMap { names })
    }

    /// The position of the table or function with this name.
    pub fn position(&self, name: &Name) -> Option<u32>
        ensures some { (k : ℕ) → (result ≡ Some k) ↔ IsFirstPlace self.now name.now k }
        ensures none { (result ≡ None) ↔ ¬ Contains self.now name.now }
    {
        let position = self.names.position(name)?;
        Some(position as u32)
    }
}
