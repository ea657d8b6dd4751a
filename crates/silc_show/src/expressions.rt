//! Literals, manifest numbers, places and expressions as lines of a tree.

use crate::page::{Lead, Page};
use fix_word::FixType;
use silage_tree::{BinOp, Expr, Lit, MOp, Manifest, Place};

pub fn put_lit(page: &mut Page, lead: Lead, lit: Lit) {
    match lit {
        Lit::Number {
            neg,
            digits,
            places,
            at,
        } => {
            page.lead(lead);
            page.number(if neg { "number -" } else { "number " }, digits);
            page.number(" places ", places);
            page.end_at(at);
        }
        Lit::Truth { value, at } => page.node(lead, if value { "true" } else { "false" }, at),
    }
}

fn term_text(op: MOp) -> &'static str {
    match op {
        MOp::Add => "binary +",
        MOp::Sub => "binary -",
        MOp::Mul => "binary *",
    }
}

pub fn put_manifest(page: &mut Page, lead: Lead, manifest: &Manifest) {
    match manifest {
        Manifest::Whole(value, at) => {
            page.lead(lead);
            page.number("whole ", *value);
            page.end_at(*at);
        }
        Manifest::Index(name, at) => page.named(lead, "index", name, *at),
        Manifest::Negate(at, operand) => {
            page.node(lead, "negate", *at);
            put_manifest(page, lead.below("operand"), operand);
        }
        Manifest::Binary(at, op, left, right) => {
            page.node(lead, term_text(*op), *at);
            put_manifest(page, lead.below("left"), left);
            put_manifest(page, lead.below("right"), right);
        }
    }
}

/// A place under the name of what it is: a place that is defined, or one that is read.
pub fn put_place(page: &mut Page, lead: Lead, what: &str, place: &Place) {
    page.named(lead, what, &place.name, place.at);
    for sub in &place.subs {
        put_manifest(page, lead.below("subscript"), sub);
    }
}

fn operator_text(op: BinOp) -> &'static str {
    match op {
        BinOp::Add => "binary +",
        BinOp::Sub => "binary -",
        BinOp::Mul => "binary *",
        BinOp::Lt => "binary <",
        BinOp::Le => "binary <=",
        BinOp::Eq => "binary ==",
        BinOp::Ne => "binary !=",
        BinOp::Gt => "binary >",
        BinOp::Ge => "binary >=",
        BinOp::And => "binary &",
        BinOp::Or => "binary |",
    }
}

fn put_cast(page: &mut Page, lead: Lead, ty: FixType, at: u32) {
    page.lead(lead);
    page.fix_type("cast ", ty);
    page.end_at(at);
}

pub fn put_expr(page: &mut Page, lead: Lead, expr: &Expr) {
    match expr {
        Expr::Lit(lit) => put_lit(page, lead, *lit),
        Expr::Read { place, delay } => {
            put_place(page, lead, "read", place);
            if let Some(amount) = delay {
                put_manifest(page, lead.below("delay"), amount);
            }
        }
        Expr::Negate(at, operand) => {
            page.node(lead, "negate", *at);
            put_expr(page, lead.below("operand"), operand);
        }
        Expr::Not(at, operand) => {
            page.node(lead, "not", *at);
            put_expr(page, lead.below("operand"), operand);
        }
        Expr::Binary(at, op, left, right) => {
            page.node(lead, operator_text(*op), *at);
            put_expr(page, lead.below("left"), left);
            put_expr(page, lead.below("right"), right);
        }
        Expr::Shift(at, is_left, operand, amount) => {
            page.node(lead, if *is_left { "shift <<" } else { "shift >>" }, *at);
            put_expr(page, lead.below("operand"), operand);
            put_manifest(page, lead.below("amount"), amount);
        }
        Expr::Cast(at, ty, operand) => {
            put_cast(page, lead, *ty, *at);
            put_expr(page, lead.below("operand"), operand);
        }
        Expr::Choose(at, arms, otherwise) => {
            page.node(lead, "choose", *at);
            for (condition, value) in arms {
                put_expr(page, lead.below("condition"), condition);
                put_expr(page, lead.below("value"), value);
            }
            put_expr(page, lead.below("otherwise"), otherwise);
        }
    }
}
