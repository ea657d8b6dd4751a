//! The functions of a program with the places of their signals.

ghost use Rattle.std.specs.Prelude.{◌≡◌, ◌≤◌, ◌+◌, ◌++◌, map, IsTrue, IfOk, OnOk};
ghost use Rattle.element_rules.specs.ElementRules.{elements_of};
ghost use Rattle.element_rules.specs.Sizes.{AreSized};
ghost use Rattle.type_rules.specs.TypedTree.{view_func};
ghost use Rattle.loop_expand.specs.Private.Scopes as is;
ghost use Rattle.loop_expand.specs.Private.Scopes.{signals_from, view_signals, view_body, view_bodies, IsBounded};

use crate::body::{Body, Signal};
use crate::groups::groups_of;
use crate::keys::key;
use element_rules::Instance;
use name_rules::element_count;
use silage_syntax::Decl;
use std::alloc::{AllocError, AllocFailed, Global};
use type_rules::TypedFunc;

/// Appends signals, of which the first begins at this number. Returns the number behind their elements.
fn put_signals<'a>(
    signals: &mut Vec<Signal<'a>>,
    first: u32,
    decls: &'a [Decl],
) -> Result<u32, AllocError>
    requires sized { AreSized decls.now }
    requires few { first + elements_of decls.now ≤ 8192 }
    ensures signals { OnOk result (view_signals signals.new.items
        ≡ view_signals signals.old.items ++ signals_from first decls.now) }
    ensures next { IfOk result (λ next. next ≡ first + elements_of decls.now) }
{
    let mut next = first;
    for decl in decls {
        signals.push(Signal {
            decl,
            first: next,
            key: key(&decl.name),
        })?;
        next += element_count(&decl.dims);
    }
    Ok(next)
}

/// Whether the function at this position among the tables and functions has an instance.
fn has_instance(instances: &[Instance], func: u32) -> bool
    ensures { result ≡ is.has_instance instances.now func }
{
    instances.iter().any(|instance| instance.func == func)
}

fn body_for<'a>(alloc: Global, func: &'a TypedFunc) -> Result<Body<'a>, AllocError>
    requires { IsBounded (view_func func.now) }
    ensures { IfOk result (λ body. view_body body ≡ is.body_for (view_func func.now)) }
{
    let mut signals = Vec::new(alloc);
    let mut results = Vec::new(alloc);
    let first = put_signals(&mut signals, 0, &func.params)?;
    put_signals(&mut results, first, &func.results)?;
    let next = put_signals(&mut signals, first, &func.results)?;
    let size = put_signals(&mut signals, next, &func.locals)?;
    let groups = groups_of(alloc, &func.items)?;
    Ok(Body {
        func,
        signals,
        results,
        size,
        groups,
    })
}

/// Appends a function that has an instance.
fn put_body<'a>(
    alloc: Global,
    bodies: &mut Vec<Body<'a>>,
    func: &'a TypedFunc,
    instances: &[Instance],
) -> Result<(), AllocError>
    requires { IsTrue (is.has_instance instances.now (view_func func.now).func) → IsBounded (view_func func.now) }
    ensures { OnOk result (view_bodies bodies.new.items
        ≡ view_bodies bodies.old.items ++ is.body_in instances.now (view_func func.now)) }
{
    if has_instance(instances, func.func) {
        bodies.push(body_for(alloc, func)?)?;
    }
    Ok(())
}

/// The functions that have instances. Another one may have very many elements, and loops with very many turns.
pub(crate) fn bodies<'a>(
    alloc: Global,
    funcs: &'a [TypedFunc],
    instances: &[Instance],
) -> Result<Vec<Body<'a>>, AllocError>
    requires { is.AreBounded instances.now (map view_func funcs.now) }
    ensures { IfOk result (λ bodies. view_bodies bodies.items ≡ is.bodies_for instances.now (map view_func funcs.now)) }
{
    let mut bodies = Vec::new(alloc);
    for func in funcs {
        put_body(alloc, &mut bodies, func, instances)?;
    }
    Ok(bodies)
}
