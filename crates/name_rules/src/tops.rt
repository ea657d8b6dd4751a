//! The tables and functions of a program by their names.

ghost use Rattle.std.specs.Prelude.{◌≡◌, find, bytes_eq, option_map, option_copied, Some, IsSome};
ghost use Rattle.silage_syntax.specs.Tree.{view, view_top, view_func};
ghost use Rattle.silage_syntax.specs.Names.{table_named, function_named};
ghost use Rattle.name_rules.specs.TopNames.{top_name, top_names, position_of};
ghost use Rattle.name_rules.specs.FirstTops.{IsDistinct};

use crate::NameMap;
use lists::Name;
use silage_syntax::{ConstDef, Func, Program, Top};

/// A program whose tables and functions have different names, and these names in order.
#[derive(Clone, Copy)]
pub struct Tops<'a> {
    pub program: &'a Program,
    pub names: &'a NameMap,
    ghost named: { names.now ≡ top_names (view program.now) },
    ghost apart: { IsDistinct (top_names (view program.now)) },
}

impl<'a> Tops<'a> {
    /// The table or function with the name.
    fn top(&self, name: &Name) -> Option<&'a Top>
        ensures { option_map view_top (option_copied result)
            ≡ find (λ t. bytes_eq (top_name t) name.now) (view self.now.program.now).tops }
    {
        let position = self.names.position(name)?;
        self.program.tops.get(position as usize)
    }

    /// The table with the name.
    pub fn table(&self, name: &Name) -> Option<&'a ConstDef>
        ensures { option_copied result ≡ table_named (view self.now.program.now) name.now }
    {
        match self.top(name)? {
            Top::Const(table) => Some(table),
            Top::Func(_) => None,
        }
    }

    /// The function with the name.
    pub fn function(&self, name: &Name) -> Option<&'a Func>
        ensures { option_map view_func (option_copied result)
            ≡ function_named (view self.now.program.now) name.now }
    {
        match self.top(name)? {
            Top::Const(_) => None,
            Top::Func(function) => Some(function),
        }
    }

    /// The function with a name that is one's, and its position among the tables and functions.
    pub fn callee(&self, name: &Name) -> (u32, &'a Func)
        requires { IsSome (function_named (view self.now.program.now) name.now) }
        ensures position { result.0 ≡ position_of (view self.now.program.now) name.now }
        ensures function { Some (view_func result.1.now) ≡ function_named (view self.now.program.now) name.now }
    {
        let Some(position) = self.names.position(name) else {
            unreachable!()
        };
        let Some(function) = self.function(name) else {
            unreachable!()
        };
        (position, function)
    }
}
