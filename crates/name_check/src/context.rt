//! Where names are used.

ghost use Rattle.std.specs.Prelude.{◌≡◌};
ghost use Rattle.silage_syntax.specs.Tree.{view_func};
ghost use Rattle.silage_syntax.specs.Names.{decls};
ghost use Rattle.name_rules.specs.Meanings.{names_of};

use lists::Name;
use name_rules::{NameSet, Tops};
use silage_syntax::Func;

/// The indices of the loops around a place, innermost first.
#[derive(Clone, Copy)]
pub(crate) enum Indices<'a> {
    Outermost,
    Inside {
        index: &'a Name,
        outer: &'a Indices<'a>,
    },
}

/// A function of a program, and the loops around a place in it.
#[derive(Clone, Copy)]
pub(crate) struct Context<'a> {
    pub tops: Tops<'a>,
    pub func: &'a Func,
    /// The names of the function's parameters, results and locals.
    pub signals: &'a NameSet,
    pub indices: &'a Indices<'a>,
    ghost declared: { signals.now ≡ names_of (decls (view_func func.now)) },
}
