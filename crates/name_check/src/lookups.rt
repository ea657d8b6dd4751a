//! What a name means where it is used.

ghost use Rattle.std.specs.Prelude.{◌≡◌, option_map, option_copied, slice_get, is_some};
ghost use Rattle.silage_syntax.specs.Tree.{view_func};
ghost use Rattle.silage_syntax.specs.Names.{decls, declared};
ghost use Rattle.name_rules.specs.Meanings as meaning;
ghost use Rattle.name_rules.specs.Meanings.{is_among};
ghost use Rattle.name_check.specs.Private.Views.{context_of};

use crate::context::Context;
use lists::Name;
use name_rules::NameMap;
use silage_syntax::{Decl, Func};

/// The declaration at a position among a function's parameters, results and locals.
fn signal_at(func: &Func, position: usize) -> Option<&Decl>
    ensures { option_copied result ≡ slice_get (decls (view_func func.now)) position }
{
    let params = func.params.len();
    if position < params {
        return func.params.get(position);
    }
    let position = position - params;
    let results = func.results.len();
    if position < results {
        return func.results.get(position);
    }
    func.locals.get(position - results)
}

/// The signal of the function that has the name.
fn signal<'a>(context: &Context<'a>, name: &Name) -> Option<&'a Decl>
    ensures { option_copied result ≡ option_map (λ d. d.1) (declared (context_of context.now).func name.now) }
{
    let position = context.signals.position(name)?;
    signal_at(context.func, position)
}

/// Whether a signal of the function has the name.
pub(crate) fn is_signal(context: &Context, name: &Name) -> bool
    ensures { result ≡ is_some (declared (context_of context.now).func name.now) }
{
    signal(context, name).is_some()
}

/// Whether a table or function has the name.
pub(crate) fn is_top(tops: &NameMap, name: &Name) -> bool
    ensures { result ≡ is_among tops.now name.now }
{
    tops.position(name).is_some()
}

/// The dims of the signal that has the name.
pub(crate) fn signal_dims<'a>(context: &Context<'a>, name: &Name) -> Option<&'a [u32]>
    ensures { option_copied result ≡ meaning.signal_dims (context_of context.now) name.now }
{
    Some(&signal(context, name)?.dims)
}

/// The dims of the signal or table that has the name.
pub(crate) fn read_dims<'a>(context: &Context<'a>, name: &Name) -> Option<&'a [u32]>
    ensures { option_copied result ≡ meaning.read_dims (context_of context.now) name.now }
{
    match signal_dims(context, name) {
        Some(dims) => Some(dims),
        None => Some(&context.tops.table(name)?.dims),
    }
}
