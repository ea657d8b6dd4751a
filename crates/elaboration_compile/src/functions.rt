//! The functions of a program, each as what its instances do.

ghost use Rattle.std.specs.Prelude.{◌≡◌, ◌+◌, ◌++◌, ◌≤◌, [], All, map, length, option_map, IfOk, OnOk};
ghost use Rattle.silage_syntax.specs.Tree.{view, view_func, view_top};
ghost use Rattle.silage_syntax.specs.Names as meaning;
ghost use Rattle.fault_order.specs.Ranked.{IsClear};
ghost use Rattle.name_rules.specs.NameFaults.{name_faults};
ghost use Rattle.element_rules.specs.ElementRules.{elements_of};
ghost use Rattle.elaboration_code.specs.Bodies.{view_body};
ghost use Rattle.elaboration_code.specs.ItemActions as spec;
ghost use Rattle.element_rules.specs.Signatures.{HaveResults};
ghost use Rattle.element_rules.specs.Sizes.{AreSized, IsTopSized, HasResult};
ghost use Rattle.elaboration_compile.specs.Private.Names.{HaveNames, HasTopNames};
ghost use Rattle.elaboration_code.specs.ItemActions.{capped, signals_from, body_of, bodies_of};

use crate::items::put_items;
use crate::scope::Scope;
use crate::weights::sum;
use elaboration_code::{Body, Signal};
use lists::List;
use name_rules::{Tops, element_count};
use silage_syntax::{Decl, Func, Top};
use std::alloc::{AllocError, Global};

/// The most elements that an instance may have.
const MOST: u32 = 8192;

fn push_decls<'a>(all: &mut Vec<&'a Decl>, decls: &'a [Decl]) -> Result<(), AllocError>
    ensures { OnOk result (map (λ d. d.now) all.new.items ≡ map (λ d. d.now) all.old.items ++ decls.now) }
{
    for decl in decls {
        all.push(decl)?;
    }
    Ok(())
}

/// The parameters, results and locals of a function.
fn all_decls<'a>(alloc: Global, func: &'a Func) -> Result<Vec<&'a Decl>, AllocError>
    ensures { IfOk result (λ all. map (λ d. d.now) all.items ≡ meaning.decls (view_func func.now)) }
{
    let mut all = Vec::new(alloc);
    push_decls(&mut all, &func.params)?;
    push_decls(&mut all, &func.results)?;
    push_decls(&mut all, &func.locals)?;
    Ok(all)
}

/// How many elements declarations have, or 8,193 if that is less.
pub fn capped_elements(decls: &[Decl]) -> u32
    requires { AreSized decls.now }
    ensures { result ≡ capped (elements_of decls.now) }
{
    let mut all = 0;
    for decl in decls {
        all = sum(all, element_count(&decl.dims));
    }
    all
}

/// Appends declarations with the numbers of their elements, of which the first has this number, and gives the next one.
fn push_signals(signals: &mut List<Signal>, first: u32, decls: &[Decl]) -> Result<u32, AllocError>
    requires sized { AreSized decls.now }
    requires few { first + elements_of decls.now ≤ 8192 }
    ensures signals { OnOk result (signals.new ≡ signals.old ++ signals_from first decls.now) }
    ensures next { IfOk result (λ next. next ≡ first + elements_of decls.now) }
{
    let mut next = first;
    for decl in decls {
        let count = element_count(&decl.dims);
        signals.push(Signal {
            at: decl.at,
            first: next,
            count,
        })?;
        next += count;
    }
    Ok(next)
}

fn signals(alloc: Global, func: &Func) -> Result<List<Signal>, AllocError>
    requires sized { AreSized (meaning.decls (view_func func.now)) }
    requires few { elements_of (meaning.decls (view_func func.now)) ≤ 8192 }
    ensures { IfOk result (λ signals. signals ≡ signals_from 0 (meaning.decls (view_func func.now))) }
{
    let mut signals = List::new(alloc);
    let results = push_signals(&mut signals, 0, &func.params)?;
    let locals = push_signals(&mut signals, results, &func.results)?;
    push_signals(&mut signals, locals, &func.locals)?;
    Ok(signals)
}

/// What instances of a function do that has no more than 8,192 elements, and one or more.
fn small_body(
    alloc: Global,
    tops: &Tops,
    func: &Func,
    count: u32,
    given: u32,
) -> Result<Body, AllocError>
    requires sized { AreSized (meaning.decls (view_func func.now)) }
    requires few { elements_of (meaning.decls (view_func func.now)) ≤ 8192 }
    requires some { 1 ≤ count }
    requires names { HaveNames (view tops.now.program.now) (view_func func.now) [] (view_func func.now).items }
    ensures { IfOk result (λ body. view_body body
        ≡ spec.small_body (view tops.now.program.now) (view_func func.now) count given) }
{
    let decls = all_decls(alloc, func)?;
    let signals = signals(alloc, func)?;
    let mut actions = Vec::new(alloc);
    let scope = Scope {
        alloc,
        tops: *tops,
        func,
        decls: &decls,
        signals: &signals,
    };
    put_items(&scope, &[], &func.items, &mut actions)?;
    Ok(Body {
        at: func.at,
        count,
        given,
        signals,
        actions,
    })
}

fn body(alloc: Global, tops: &Tops, func: &Func) -> Result<Body, AllocError>
    requires sized { AreSized (meaning.decls (view_func func.now)) }
    requires results { 1 ≤ length (view_func func.now).results }
    requires names { HaveNames (view tops.now.program.now) (view_func func.now) [] (view_func func.now).items }
    ensures { IfOk result (λ body. view_body body ≡ body_of (view tops.now.program.now) (view_func func.now)) }
{
    let given = capped_elements(&func.params);
    let count = sum(
        sum(given, capped_elements(&func.results)),
        capped_elements(&func.locals),
    );
    if count <= MOST {
        return small_body(alloc, tops, func, count, given);
    }
    Ok(Body {
        at: func.at,
        count,
        given: 0,
        signals: List::new(alloc),
        actions: Vec::new(alloc),
    })
}

fn top_body(alloc: Global, tops: &Tops, top: &Top) -> Result<Option<Body>, AllocError>
    requires sized { IsTopSized (view_top top.now) }
    requires result { HasResult (view_top top.now) }
    requires names { HasTopNames (view tops.now.program.now) (view_top top.now) }
    ensures { IfOk result (λ body. option_map view_body body
        ≡ spec.top_body (view tops.now.program.now) (view_top top.now)) }
{
    match top {
        Top::Const(_) => Ok(None),
        Top::Func(func) => Ok(Some(body(alloc, tops, func)?)),
    }
}

/// The bodies of the functions of a program, by their positions among the tables and functions. A table has none.
pub fn bodies(alloc: Global, tops: &Tops) -> Result<Vec<Option<Body>>, AllocError>
    requires clear { IsClear (name_faults (view tops.now.program.now)) }
    requires results { HaveResults (view tops.now.program.now) }
    ensures { IfOk result (λ bodies. map (option_map view_body) bodies.items ≡ bodies_of (view tops.now.program.now)) }
{
    let mut bodies = Vec::with_capacity(alloc, tops.program.tops.len())?;
    for top in tops.program.tops.as_slice() {
        bodies.push(top_body(alloc, tops, top)?)?;
    }
    Ok(bodies)
}
