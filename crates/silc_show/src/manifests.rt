//! A table of manifest constants, one a line, each with its value: `2 * i + 1 with i=3 k=-2`.

use crate::page::{Page, Refused};
use crate::source::{program_of, text_of};
use lists::{List, Name};
use name_rules::{Env, manifest};
use silage_tree::{Item, Manifest, Program, Top};
use std::alloc::{AllocError, Global};

const REFUSED: &str = " refused: row";

/// The amount of the initial value that is all of a program.
fn only_amount(program: &Program) -> Option<&Manifest> {
    match program.tops.as_slice() {
        [Top::Func(func)] => match func.items.as_slice() {
            [Item::Initial { k, .. }] => Some(k),
            _ => None,
        },
        _ => None,
    }
}

/// Adds the index that an entry `NAME=VALUE` is. `false`: the entry is none.
fn add_index(env: &mut Env, alloc: Global, entry: &str) -> Result<bool, AllocError> {
    let Some((name, value)) = entry.split_once('=') else {
        return Ok(false);
    };
    let Ok(value) = value.parse::<i32>() else {
        return Ok(false);
    };
    env.push((Name::from_slice(alloc, name.as_bytes())?, value))?;
    Ok(true)
}

/// The loop indices, each with its value.
fn indices(alloc: Global, text: &str) -> Result<Option<Env>, AllocError> {
    let mut env = List::new(alloc);
    for entry in text.split(' ') {
        if !add_index(&mut env, alloc, entry)? {
            return Ok(None);
        }
    }
    Ok(Some(env))
}

fn put_amount(page: &mut Page, program: &Program, env: &Env) {
    match only_amount(program) {
        Some(amount) => match manifest(amount, env) {
            Ok(value) => page.number(" = ", value),
            Err(fault) => page.debug(" fault ", &fault),
        },
        None => page.text(REFUSED),
    }
}

/// Puts the value of a manifest constant, which is read as an amount in a source made round it.
fn put_value(page: &mut Page, text: &str, env: &Env) -> Result<(), AllocError> {
    let alloc = page.alloc;
    let source = format!(in alloc; "func f(x : bool) y : bool = begin y@@({text}) = false; end;")?;
    let mut unread = Page::new(alloc);
    match program_of(&mut unread, source.as_bytes()) {
        Ok(program) => put_amount(page, &program, env),
        Err(_) => page.text(REFUSED),
    }
    Ok(())
}

fn put_row(page: &mut Page, row: &str) -> Result<(), AllocError> {
    let alloc = page.alloc;
    let Some((text, values)) = row.split_once(" with ") else {
        return put_value(page, row, &List::new(alloc));
    };
    match indices(alloc, values)? {
        Some(env) => put_value(page, text, &env),
        None => {
            page.text(REFUSED);
            Ok(())
        }
    }
}

pub fn put(page: &mut Page, table: &[u8]) -> Result<(), Refused> {
    let table = text_of(page, table)?;
    for row in table.lines() {
        page.text(row);
        if put_row(page, row).is_err() {
            return Err(page.cut());
        }
        page.end();
    }
    Ok(())
}
