//! The tree of a source: a line for each node, below the node that it belongs to, with all its fields.

use crate::expressions::{put_expr, put_lit, put_manifest, put_place};
use crate::page::{Lead, Page, Refused};
use crate::source::program_of;
use silage_tree::{ConstDef, Decl, Func, Item, Top};

fn put_table(page: &mut Page, lead: Lead, table: &ConstDef) {
    page.lead(lead);
    page.name("const ", &table.name);
    page.dims(&table.dims);
    page.number(" at ", table.at);
    page.fix_type(" : ", table.ty);
    page.end();
    for word in &table.words {
        put_lit(page, lead.below("word"), *word);
    }
}

pub fn put_decls(page: &mut Page, lead: Lead, decls: &[Decl]) {
    for decl in decls {
        page.lead(lead);
        page.name("", &decl.name);
        page.dims(&decl.dims);
        page.number(" at ", decl.at);
        page.sig_type(" : ", decl.ty);
        page.end();
    }
}

fn put_func(page: &mut Page, lead: Lead, func: &Func) {
    page.named(lead, "func", &func.name, func.at);
    put_decls(page, lead.below("parameter"), &func.params);
    put_decls(page, lead.below("result"), &func.results);
    put_decls(page, lead.below("local"), &func.locals);
    for item in &func.items {
        put_item(page, lead.below(""), item);
    }
}

fn put_item(page: &mut Page, lead: Lead, item: &Item) {
    match item {
        Item::Equation { place, value } => {
            page.line(lead, "equation");
            put_place(page, lead.below(""), "place", place);
            put_expr(page, lead.below("value"), value);
        }
        Item::Call {
            places,
            func,
            args,
            at,
        } => {
            page.named(lead, "call", func, *at);
            for place in places {
                put_place(page, lead.below(""), "place", place);
            }
            for arg in args {
                put_expr(page, lead.below("argument"), arg);
            }
        }
        Item::Loop {
            index,
            lo,
            hi,
            items,
            at,
        } => {
            page.named(lead, "loop", index, *at);
            put_manifest(page, lead.below("from"), lo);
            put_manifest(page, lead.below("to"), hi);
            for item in items {
                put_item(page, lead.below(""), item);
            }
        }
        Item::Initial { place, k, value } => {
            page.line(lead, "initial");
            put_place(page, lead.below(""), "place", place);
            put_manifest(page, lead.below("delay"), k);
            put_lit(page, lead.below("value"), *value);
        }
    }
}

pub fn put(page: &mut Page, source: &[u8]) -> Result<(), Refused> {
    let program = program_of(page, source)?;
    for top in &program.tops {
        match top {
            Top::Const(table) => put_table(page, Lead::top(), table),
            Top::Func(func) => put_func(page, Lead::top(), func),
        }
    }
    Ok(())
}
