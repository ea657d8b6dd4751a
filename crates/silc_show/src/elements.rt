//! The instances of a source and their elements, in the order in which the instances are entered.

ghost use Rattle.std.specs.Prelude.{◌≡◌, IfOk};
ghost use Rattle.fault_order.specs.Ranked.{IsClear};
ghost use Rattle.silage_syntax.specs.Tree.{view};
ghost use Rattle.name_rules.specs.NameFaults.{name_faults, IsMain};
ghost use Rattle.name_rules.specs.TopNames.{top_names};
ghost use Rattle.element_rules.specs.Expansion.{IsExpansion};
ghost use Rattle.element_rules.specs.Signatures.{HaveResults};

use crate::definitions::declaration;
use crate::names::names_of;
use crate::page::{Page, Refused};
use crate::source::{program_of, refuse_elements};
use element_rules::{Element, Elements, Instance, Subscripts, subscripts_at};
use name_rules::Names;
use silage_tree::{Func, Program};
use single_def::check_elements;

fn put_instance(page: &mut Page, number: usize, instance: &Instance) {
    page.number("instance ", number);
    page.number(" func ", instance.func);
    page.number(" parent ", instance.parent);
    page.number(" site ", instance.site);
    if !instance.turns.is_empty() {
        page.numbers(" turns", &instance.turns);
    }
    page.end();
}

fn put_element(page: &mut Page, number: usize, element: &Element) {
    page.number("element ", number);
    page.number(" instance ", element.inst);
    page.number(" declaration ", element.decl);
    page.number(" place ", element.place);
    page.end();
}

fn put_subscripts(page: &mut Page, subscripts: Option<Subscripts>) {
    match subscripts {
        Some(Subscripts::One(first)) => {
            page.number("[", first);
            page.text("]");
        }
        Some(Subscripts::Two(first, second)) => {
            page.number("[", first);
            page.number("][", second);
            page.text("]");
        }
        Some(Subscripts::Bare) | None => {}
    }
}

/// The name that an element has in its function, and its subscripts in an array.
pub fn put_signal(page: &mut Page, func: &Func, element: &Element) {
    if let Some(decl) = declaration(func, element.decl) {
        page.name("", &decl.name);
        put_subscripts(page, subscripts_at(&decl.dims, element.place));
    }
}

/// The instances and elements of a program with its names.
pub fn expanded(
    page: &mut Page,
    source: &[u8],
    program: &Program,
    names: &Names,
) -> Result<Elements, Refused>
    requires clear { IsClear (name_faults (view program.now)) }
    requires tops { names.now.tops ≡ top_names (view program.now) }
    requires main { IsMain (view program.now) names.now.main }
    requires results { HaveResults (view program.now) }
    ensures { IfOk result (IsExpansion (view program.now)) }
{
    match check_elements(page.alloc, program, names) {
        Ok(elements) => Ok(elements),
        Err(fault) => Err(refuse_elements(page, source, fault)),
    }
}

pub fn elements_of(page: &mut Page, source: &[u8]) -> Result<Elements, Refused> {
    let program = program_of(page, source)?;
    let names = names_of(page, source, &program)?;
    expanded(page, source, &program, &names)
}

pub fn put(page: &mut Page, source: &[u8]) -> Result<(), Refused> {
    let found = elements_of(page, source)?;
    for (number, instance) in found.instances.iter().enumerate() {
        put_instance(page, number, instance);
    }
    for (number, element) in found.elements.iter().enumerate() {
        put_element(page, number, element);
    }
    Ok(())
}
