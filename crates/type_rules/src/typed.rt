//! The tree of a typed program: raw words, formats and operations in the place of types.

use fix_word::{FixType, Format, Op};
use lists::{List, Name};
use silage_syntax::{Decl, Manifest, Place};

/// The tables and functions of a program, each in the order of the source.
#[derive(Drop)]
pub struct Typed {
    pub consts: List<TypedConst>,
    pub funcs: List<TypedFunc>,
}

/// A table with its raw words, row by row. No dims mean a single word.
#[derive(Drop)]
pub struct TypedConst {
    pub name: Name,
    pub dims: List<u32>,
    pub ty: FixType,
    pub words: List<i64>,
}

#[derive(Drop)]
pub struct TypedFunc {
    /// The position of the function among the tables and functions of the program.
    pub func: u32,
    pub params: List<Decl>,
    pub results: List<Decl>,
    pub locals: List<Decl>,
    pub items: List<TypedItem>,
}

#[derive(Drop)]
pub enum TypedItem {
    Equation {
        place: Place,
        value: TypedExpr,
    },
    /// A call of the function at position `func`. The argument for an array is the read of its name.
    Call {
        places: Vec<Place>,
        func: u32,
        args: Vec<TypedExpr>,
        at: u32,
    },
    Loop {
        index: Name,
        lo: Manifest,
        hi: Manifest,
        items: Vec<TypedItem>,
    },
    /// The raw word of a place at sample -k.
    Initial {
        place: Place,
        k: Manifest,
        raw: i64,
    },
}

#[derive(Drop)]
pub enum TypedExpr {
    /// A raw word, or 1 or 0 for a truth value.
    Raw(i64),
    /// A signal or a number of a table, `delay` samples ago.
    Read {
        place: Place,
        delay: Option<Manifest>,
    },
    /// An operation with a part for each of its operands. The amount is that of a shift, in bits, for which the format
    /// has the shift of one bit.
    Node {
        op: Op,
        fmt: Format,
        parts: Vec<TypedExpr>,
        amount: Option<Manifest>,
    },
}
