//! Where names are looked up.

ghost use Rattle.std.specs.Prelude.{◌≡◌, map};
ghost use Rattle.silage_syntax.specs.Tree.{view_func};
ghost use Rattle.silage_syntax.specs.Names.{decls as decls_of};
ghost use Rattle.element_rules.specs.Sizes.{AreSized};
ghost use Rattle.elaboration_code.specs.ItemActions.{signals_from};

use elaboration_code::Signal;
use name_rules::Tops;
use silage_syntax::{Decl, Func};
use std::alloc::Global;

/// A function of a program, with its declarations in order.
#[derive(Clone, Copy)]
pub(crate) struct Scope<'a> {
    pub alloc: Global,
    pub tops: Tops<'a>,
    pub func: &'a Func,
    pub decls: &'a [&'a Decl],
    pub signals: &'a [Signal],
    ghost declared: { map (λ d. d.now) decls.now ≡ decls_of (view_func func.now) },
    ghost counted: { signals.now ≡ signals_from 0 (decls_of (view_func func.now)) },
    ghost sized: { AreSized (decls_of (view_func func.now)) },
}
