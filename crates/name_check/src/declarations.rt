//! Declarations of signals.

ghost use Rattle.std.specs.Prelude.{◌≡◌, ◌∷◌, ◌++◌, [], IfOk, OnOk};
ghost use Rattle.fault_order.specs.Private.FirstMet.{first, first_in, MeetsOr};
ghost use Rattle.silage_syntax.specs.Tree.{view_func};
ghost use Rattle.silage_syntax.specs.Names.{decls};
ghost use Rattle.name_rules.specs.Meanings.{names_of};
ghost use Rattle.name_rules.specs.NameRules.{decl_rules, signal_rules};

use crate::lookups::is_top;
use crate::sizes::{are_dims, is_signal_type};
use name_rules::{NameFault, NameMap, NameSet};
use silage_syntax::{Decl, Func};
use std::alloc::Global;

/// Adds the name of a declaration to those of the signals before it.
fn declare(alloc: Global, tops: &NameMap, signals: &mut NameSet, d: &Decl) -> Result<(), NameFault>
    ensures met { MeetsOr NameFault.Memory (first (decl_rules tops.now signals.old d.now)) result }
    ensures names { OnOk result (signals.new ≡ signals.old ++ d.now.name ∷ []) }
{
    if !are_dims(&d.dims) || !is_signal_type(&d.ty) {
        return Err(NameFault::Size(d.at));
    }
    if is_top(tops, &d.name) || !signals.insert(alloc, &d.name)? {
        return Err(NameFault::Twice(d.at));
    }
    Ok(())
}

/// Adds the names of declarations to those of the signals before them.
fn declare_all(
    alloc: Global,
    tops: &NameMap,
    signals: &mut NameSet,
    decls: &[Decl],
) -> Result<(), NameFault>
    ensures met { MeetsOr NameFault.Memory (first_in (signal_rules tops.now signals.old decls.now)) result }
    ensures names { OnOk result (signals.new ≡ signals.old ++ names_of decls.now) }
{
    for d in decls {
        declare(alloc, tops, signals, d)?;
    }
    Ok(())
}

/// The names of a function's parameters, results and locals.
pub(crate) fn signals_of(alloc: Global, tops: &NameMap, func: &Func) -> Result<NameSet, NameFault>
    ensures met { MeetsOr NameFault.Memory (first_in (signal_rules tops.now [] (decls (view_func func.now)))) result }
    ensures names { IfOk result (λ signals. signals ≡ names_of (decls (view_func func.now))) }
{
    let mut signals = NameSet::new(alloc);
    declare_all(alloc, tops, &mut signals, &func.params)?;
    declare_all(alloc, tops, &mut signals, &func.results)?;
    declare_all(alloc, tops, &mut signals, &func.locals)?;
    Ok(signals)
}
