//! What is known of a function.

ghost use Rattle.std.specs.Prelude.{◌≡◌, ◌≤◌, IsTrue};
ghost use Rattle.type_rules.specs.TypedTree.{view_func};
ghost use Rattle.name_rules.specs.Meanings.{are_dims};
ghost use Rattle.element_rules.specs.ElementRules.{elements_of};
ghost use Rattle.element_rules.specs.Sizes.{AreSized};
ghost use Rattle.loop_expand.specs.Private.Keys.{key_of};
ghost use Rattle.loop_expand.specs.Private.Sizes.{decls_of};

use crate::groups::Group;
use silage_syntax::Decl;
use type_rules::TypedFunc;

/// A parameter, a result or a local.
#[derive(Clone, Copy)]
pub(crate) struct Signal<'a> {
    pub decl: &'a Decl,
    /// The number of its first element among those of an instance.
    pub first: u32,
    /// The number of its name.
    pub key: u64,
    ghost sized: { IsTrue (are_dims decl.now.dims) },
    ghost keyed: { key ≡ key_of decl.now.name },
}

/// A function that has an instance.
#[derive(Drop)]
pub(crate) struct Body<'a> {
    pub func: &'a TypedFunc,
    /// Its parameters, results and locals.
    pub signals: Vec<Signal<'a>>,
    pub results: Vec<Signal<'a>>,
    /// How many elements an instance of it has.
    pub size: u32,
    /// The groups of its items, which are the same in all its instances.
    pub groups: Vec<Group<'a>>,
    ghost sized: { AreSized (decls_of (view_func func.now)) },
    ghost few: { elements_of (decls_of (view_func func.now)) ≤ 8192 },
}
