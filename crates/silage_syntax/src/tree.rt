//! The tree of a source. `at` is always a position in the source, a byte offset.

use fix_word::{FixType, SigType};
use lists::{List, Name};

/// A source: its tables and functions, in order.
#[derive(Drop)]
pub struct Program {
    pub tops: List<Top>,
}

#[derive(Drop)]
pub enum Top {
    Const(ConstDef),
    Func(Func),
}

/// A table of numbers, row by row. No dims mean a single number.
#[derive(Drop)]
pub struct ConstDef {
    pub name: Name,
    pub at: u32,
    pub dims: List<u32>,
    pub ty: FixType,
    pub words: List<Lit>,
}

#[derive(Drop)]
pub struct Func {
    pub name: Name,
    pub at: u32,
    pub params: List<Decl>,
    pub results: List<Decl>,
    pub locals: List<Decl>,
    pub items: List<Item>,
}

/// A parameter, a result or a local.
#[derive(Drop)]
pub struct Decl {
    pub name: Name,
    pub at: u32,
    pub dims: List<u32>,
    pub ty: SigType,
}

#[derive(Drop)]
pub enum Item {
    /// `place = value;` defines one element.
    Equation {
        place: Place,
        value: Expr,
    },
    /// `places = func(args);` makes an instance of a function.
    Call {
        places: Vec<Place>,
        func: Name,
        args: Vec<Expr>,
        at: u32,
    },
    /// The items, once for each number from `lo` to `hi`, both included.
    Loop {
        index: Name,
        lo: Manifest,
        hi: Manifest,
        items: Vec<Item>,
        at: u32,
    },
    /// `place@@k = value;` gives the value at sample -k.
    Initial {
        place: Place,
        k: Manifest,
        value: Lit,
    },
}

/// A name, with a subscript for each of its dims.
#[derive(Drop)]
pub struct Place {
    pub name: Name,
    pub at: u32,
    pub subs: List<Manifest>,
}

#[derive(Drop)]
pub enum Expr {
    Lit(Lit),
    /// A signal or a number of a table, `delay` samples ago.
    Read {
        place: Place,
        delay: Option<Manifest>,
    },
    Negate(u32, Box<Expr>),
    Not(u32, Box<Expr>),
    Binary(u32, BinOp, Box<Expr>, Box<Expr>),
    /// A shift by an amount of bits: `true` is `<<`.
    Shift(u32, bool, Box<Expr>, Manifest),
    Cast(u32, FixType, Box<Expr>),
    /// The value after the first true condition, else the last.
    Choose(u32, Vec<(Expr, Expr)>, Box<Expr>),
}

#[derive(Debug, Clone, Copy, PartialEq, Eq, Drop)]
pub enum BinOp {
    Add,
    Sub,
    Mul,
    Lt,
    Le,
    Eq,
    Ne,
    Gt,
    Ge,
    And,
    Or,
}

/// A manifest constant: a compile-time integer.
#[derive(Drop)]
pub enum Manifest {
    Whole(u64, u32),
    Index(Name, u32),
    Negate(u32, Box<Manifest>),
    Binary(u32, MOp, Box<Manifest>, Box<Manifest>),
}

#[derive(Debug, Clone, Copy, PartialEq, Eq, Drop)]
pub enum MOp {
    Add,
    Sub,
    Mul,
}

/// A literal: the number `digits / 10^places`, with its sign, or a truth value.
#[derive(Debug, Clone, Copy, PartialEq, Eq, Drop)]
pub enum Lit {
    Number {
        neg: bool,
        digits: u64,
        places: u8,
        at: u32,
    },
    Truth {
        value: bool,
        at: u32,
    },
}
