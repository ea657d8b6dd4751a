//! Elements by their names.

use crate::text::{put, put_number};
use element_rules::{Element, Elements, Instance, Subscripts, subscripts_at};
use silage_syntax::{Decl, Func, Program, Top};
use std::alloc::AllocError;

/// The declaration at a position, in the order of the function's elements.
fn declaration(func: &Func, position: u32) -> Option<&Decl> {
    let mut position = position as usize;
    for decls in [&func.params, &func.results, &func.locals] {
        if let Some(decl) = decls.get(position) {
            return Some(decl);
        }
        position = position.saturating_sub(decls.len());
    }
    None
}

/// Which of its function's instances, from 1, the instance with this number is.
fn count_of(instances: &[Instance], number: u32, func: u32) -> u32 {
    let mut count = 0u32;
    let mut at = 0u32;
    for instance in instances {
        if at <= number && instance.func == func {
            count = count.saturating_add(1);
        }
        at = at.saturating_add(1);
    }
    count
}

fn put_subscripts(text: &mut Vec<u8>, subscripts: Option<Subscripts>) -> Result<(), AllocError> {
    match subscripts {
        Some(Subscripts::One(first)) => {
            put_number(text, "[", first)?;
            put(text, "]")
        }
        Some(Subscripts::Two(first, second)) => {
            put_number(text, "[", first)?;
            put_number(text, "][", second)?;
            put(text, "]")
        }
        Some(Subscripts::Bare) | None => Ok(()),
    }
}

/// Puts the name of an element in its function, and its subscripts in an array.
fn put_signal(text: &mut Vec<u8>, func: &Func, element: &Element) -> Result<(), AllocError> {
    let Some(decl) = declaration(func, element.decl) else {
        return Ok(());
    };
    text.extend_from_slice(decl.name.as_slice())?;
    put_subscripts(text, subscripts_at(&decl.dims, element.place))
}

/// Puts the name of the element with this number, after its function and the count of its instance where that is not
/// main's: `biquad#2.y`.
pub fn put_element(
    text: &mut Vec<u8>,
    program: &Program,
    elements: &Elements,
    number: u32,
) -> Result<(), AllocError> {
    let Some(element) = elements.elements.get(number as usize) else {
        return Ok(());
    };
    let Some(instance) = elements.instances.get(element.inst as usize) else {
        return Ok(());
    };
    let Some(Top::Func(func)) = program.tops.get(instance.func as usize) else {
        return Ok(());
    };
    if element.inst > 0 {
        text.extend_from_slice(func.name.as_slice())?;
        put_number(
            text,
            "#",
            count_of(elements.instances.as_slice(), element.inst, instance.func),
        )?;
        put(text, ".")?;
    }
    put_signal(text, func, element)
}
