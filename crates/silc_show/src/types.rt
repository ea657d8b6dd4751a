//! The types of a source: a line for each table, declaration and item of its typed program. An operation stands before
//! its parts with its format: the shift, which the amount of a source's shift multiplies, the mode and the width.

ghost use Rattle.std.specs.Prelude.{◌≡◌, ◌<◌, ◌^◌, length, IfOk};
ghost use Rattle.fault_order.specs.Ranked.{IsClear};
ghost use Rattle.silage_syntax.specs.Tree.{view};
ghost use Rattle.name_rules.specs.NameFaults.{name_faults};
ghost use Rattle.name_rules.specs.TopNames.{top_names};
ghost use Rattle.type_rules.specs.Numbers.{AreNumbersShort};
ghost use Rattle.type_rules.specs.Translation.{typed_program};
ghost use Rattle.type_rules.specs.TypedTree.{view_typed};

use crate::names::names_of;
use crate::page::{Lead, Page, Refused, mode_text};
use crate::source::{program_of, refuse_types};
use crate::tree::put_decls;
use fix_types::check_types;
use name_rules::Names;
use operations::operation_name;
use silage_tree::{MOp, Manifest, Place, Program};
use type_rules::{Typed, TypedConst, TypedExpr, TypedFunc, TypedItem};

fn sign_text(op: MOp) -> &'static str {
    match op {
        MOp::Add => "+",
        MOp::Sub => "-",
        MOp::Mul => "*",
    }
}

fn put_manifest(page: &mut Page, manifest: &Manifest) {
    match manifest {
        Manifest::Whole(value, _) => page.number("", *value),
        Manifest::Index(name, _) => page.name("", name),
        Manifest::Negate(_, operand) => {
            page.text("-");
            put_manifest(page, operand);
        }
        Manifest::Binary(_, op, left, right) => {
            page.text("(");
            put_manifest(page, left);
            page.text(sign_text(*op));
            put_manifest(page, right);
            page.text(")");
        }
    }
}

fn put_optional(page: &mut Page, before: &str, manifest: &Option<Manifest>) {
    if let Some(manifest) = manifest {
        page.text(before);
        put_manifest(page, manifest);
    }
}

fn put_place(page: &mut Page, place: &Place) {
    page.name("", &place.name);
    for sub in &place.subs {
        page.text("[");
        put_manifest(page, sub);
        page.text("]");
    }
}

/// What stands before one of several parts.
fn put_before(page: &mut Page, is_first: bool) {
    page.text(if is_first { "(" } else { ", " });
}

fn put_expr(page: &mut Page, expr: &TypedExpr) {
    match expr {
        TypedExpr::Raw(word) => page.number("", *word),
        TypedExpr::Read { place, delay } => {
            put_place(page, place);
            put_optional(page, "@", delay);
        }
        TypedExpr::Node {
            op,
            fmt,
            parts,
            amount,
        } => {
            page.text(operation_name(*op));
            page.number("<", fmt.shift);
            put_optional(page, "*", amount);
            page.text(",");
            page.text(mode_text(fmt.mode));
            page.number(",", fmt.width);
            page.text(">");
            let mut is_first = true;
            for part in parts {
                put_before(page, is_first);
                put_expr(page, part);
                is_first = false;
            }
            page.text(")");
        }
    }
}

fn put_call(page: &mut Page, places: &[Place], func: u32, args: &[TypedExpr]) {
    let mut is_first = true;
    for place in places {
        put_before(page, is_first);
        put_place(page, place);
        is_first = false;
    }
    page.number(") = func ", func);
    is_first = true;
    for arg in args {
        put_before(page, is_first);
        put_expr(page, arg);
        is_first = false;
    }
    page.text(")");
}

fn put_item(page: &mut Page, lead: Lead, item: &TypedItem) {
    page.lead(lead);
    match item {
        TypedItem::Equation { place, value } => {
            put_place(page, place);
            page.text(" = ");
            put_expr(page, value);
            page.end();
        }
        TypedItem::Call {
            places,
            func,
            args,
            at: _,
        } => {
            put_call(page, places, *func, args);
            page.end();
        }
        TypedItem::Loop {
            index,
            lo,
            hi,
            items,
        } => {
            page.name("loop ", index);
            page.text(" ");
            put_manifest(page, lo);
            page.text(" .. ");
            put_manifest(page, hi);
            page.end();
            for item in items {
                put_item(page, lead.below(""), item);
            }
        }
        TypedItem::Initial { place, k, raw } => {
            put_place(page, place);
            page.text("@@");
            put_manifest(page, k);
            page.number(" = ", *raw);
            page.end();
        }
    }
}

fn put_table(page: &mut Page, table: &TypedConst) {
    page.name("const ", &table.name);
    page.dims(&table.dims);
    page.fix_type(" : ", table.ty);
    page.numbers(" =", &table.words);
    page.end();
}

fn put_func(page: &mut Page, func: &TypedFunc) {
    let below = Lead::top().below("");
    page.number("func ", func.func);
    page.end();
    put_decls(page, Lead::top().below("parameter"), &func.params);
    put_decls(page, Lead::top().below("result"), &func.results);
    put_decls(page, Lead::top().below("local"), &func.locals);
    for item in &func.items {
        put_item(page, below, item);
    }
}

/// The typed form of a program with its names.
pub fn typed(
    page: &mut Page,
    source: &[u8],
    program: &Program,
    names: &Names,
) -> Result<Typed, Refused>
    requires clear { IsClear (name_faults (view program.now)) }
    requires tops { names.now.tops ≡ top_names (view program.now) }
    requires few { length (view program.now).tops < 2 ^ 32 }
    requires numbers { AreNumbersShort (view program.now) }
    ensures { IfOk result (λ typed. view_typed typed ≡ typed_program (view program.now)) }
{
    match check_types(page.alloc, program, names) {
        Ok(typed) => Ok(typed),
        Err(fault) => Err(refuse_types(page, source, fault)),
    }
}

pub fn put(page: &mut Page, source: &[u8]) -> Result<(), Refused> {
    let program = program_of(page, source)?;
    let names = names_of(page, source, &program)?;
    let typed = typed(page, source, &program, &names)?;
    for table in &typed.consts {
        put_table(page, table);
    }
    for func in &typed.funcs {
        put_func(page, func);
    }
    Ok(())
}
