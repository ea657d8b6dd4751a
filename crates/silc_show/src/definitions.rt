//! Where the elements of a program are defined.

use element_rules::{Element, Elements, Instance};
use lists::{List, Name};
use name_rules::{Env, manifest};
use silage_tree::{Decl, Func, Item, Place, Program, Top};
use std::alloc::{AllocError, Global};

/// What defines an element of a function, or all elements of an array where it names no place in it.
#[derive(Clone, Copy, Drop)]
pub struct Definition {
    func: u32,
    decl: u32,
    place: Option<u32>,
    /// The byte at which the target stands.
    at: u32,
}

/// The declaration at a position, in the order of the function's elements.
pub fn declaration(func: &Func, position: u32) -> Option<&Decl> {
    let mut position = position as usize;
    for decls in [&func.params, &func.results, &func.locals] {
        if let Some(decl) = decls.get(position) {
            return Some(decl);
        }
        position = position.saturating_sub(decls.len());
    }
    None
}

/// The position of the declaration of a name.
fn position_of(func: &Func, name: &Name) -> Option<u32> {
    let mut position = 0u32;
    for decls in [&func.params, &func.results, &func.locals] {
        for decl in decls {
            if decl.name == *name {
                return Some(position);
            }
            position = position.saturating_add(1);
        }
    }
    None
}

/// The row-major place that the subscripts of a target name, where it is no bare array.
fn place_in(decl: &Decl, target: &Place, env: &Env) -> Option<u32> {
    if target.subs.len() != decl.dims.len() {
        return None;
    }
    let mut place = 0u32;
    for (dim, sub) in decl.dims.iter().zip(target.subs.iter()) {
        let Ok(sub) = manifest(sub, env) else {
            return None;
        };
        place = place
            .wrapping_mul(*dim)
            .wrapping_add(u32::try_from(sub).ok()?);
    }
    Some(place)
}

fn add_target(
    found: &mut Vec<Definition>,
    number: u32,
    func: &Func,
    target: &Place,
    env: &Env,
) -> Result<(), AllocError> {
    let Some(position) = position_of(func, &target.name) else {
        return Ok(());
    };
    let Some(decl) = declaration(func, position) else {
        return Ok(());
    };
    found.push(Definition {
        func: number,
        decl: position,
        place: place_in(decl, target, env),
        at: target.at,
    })?;
    Ok(())
}

/// The indices with one more, that of an inner loop.
fn env_with(alloc: Global, env: &Env, index: &Name, value: i32) -> Result<Env, AllocError> {
    let mut inner = List::new(alloc);
    for (name, outer) in env {
        inner.push((Name::from_slice(alloc, name.as_slice())?, *outer))?;
    }
    inner.push((Name::from_slice(alloc, index.as_slice())?, value))?;
    Ok(inner)
}

/// Adds what an item defines, in all turns of its loops.
fn add_item(
    alloc: Global,
    found: &mut Vec<Definition>,
    number: u32,
    func: &Func,
    item: &Item,
    env: &Env,
) -> Result<(), AllocError> {
    match item {
        Item::Equation { place, .. } => add_target(found, number, func, place, env),
        Item::Call { places, .. } => {
            for place in places {
                add_target(found, number, func, place, env)?;
            }
            Ok(())
        }
        Item::Loop {
            index,
            lo,
            hi,
            items,
            ..
        } => {
            let (Ok(lo), Ok(hi)) = (manifest(lo, env), manifest(hi, env)) else {
                return Ok(());
            };
            for value in lo..=hi {
                let inner = env_with(alloc, env, index, value)?;
                for item in items {
                    add_item(alloc, found, number, func, item, &inner)?;
                }
            }
            Ok(())
        }
        Item::Initial { .. } => Ok(()),
    }
}

fn is_met(found: &[Instance], func: u32) -> bool {
    for instance in found {
        if instance.func == func {
            return true;
        }
    }
    false
}

/// What defines the elements of the functions that have an instance.
pub fn definitions(
    alloc: Global,
    program: &Program,
    elements: &Elements,
) -> Result<Vec<Definition>, AllocError> {
    let mut found = Vec::new(alloc);
    let mut number = 0u32;
    for top in &program.tops {
        if let Top::Func(func) = top
            && is_met(&elements.instances, number)
        {
            let env = List::new(alloc);
            for item in &func.items {
                add_item(alloc, &mut found, number, func, item, &env)?;
            }
        }
        number = number.saturating_add(1);
    }
    Ok(found)
}

/// The byte at which an element is defined: at its target; a parameter of `main` where it is declared, and one of
/// another function where that is called.
pub fn defined_at(
    program: &Program,
    definitions: &[Definition],
    instance: &Instance,
    element: &Element,
) -> Option<u32> {
    let Some(Top::Func(func)) = program.tops.get(instance.func as usize) else {
        return None;
    };
    if (element.decl as usize) < func.params.len() {
        if element.inst > 0 {
            return Some(instance.site);
        }
        return Some(declaration(func, element.decl)?.at);
    }
    for definition in definitions {
        let is_here = match definition.place {
            Some(place) => place == element.place,
            None => true,
        };
        if definition.func == instance.func && definition.decl == element.decl && is_here {
            return Some(definition.at);
        }
    }
    None
}
