//! Flat programs: the elements of a program with one equation each, calls and loops expanded. Page `docs/GRAPH.md`,
//! "Flat programs".

use fix_word::{Format, Op, SigType};
use lists::List;

/// An expression over elements.
#[derive(Drop)]
pub enum FlatExpr {
    /// A raw word of at most 40 bits.
    Raw(i64),
    /// The word of the element with this number, `delay` samples ago.
    Read {
        elem: u32,
        delay: u16,
    },
    /// An operation from `Add` to `Sel` on the values of its parts, one part for each operand.
    Node {
        op: Op,
        /// How the exact result is quantised by `Add`, `Sub`, `Neg`, `Pass` and `Mul`. At `Sel` shift 0, `Trunc` and
        /// the width of the type; shift 0, `Trunc` and width 0 at the others.
        fmt: Format,
        parts: Vec<FlatExpr>,
    },
}

/// What defines an element at each sample.
#[derive(Drop)]
pub enum FlatBody {
    /// The word of the input row with this number.
    Word(u8),
    Value(FlatExpr),
}

/// An element: one signal of the expanded program.
#[derive(Drop)]
pub struct FlatElem {
    pub ty: SigType,
    pub body: FlatBody,
    /// Its initial values: k and the raw word at sample -k, by rising k. At the others before sample 0 it is 0.
    pub inits: List<(u16, i64)>,
}

/// The elements of a program, numbered from 0 by their order.
#[derive(Drop)]
pub struct FlatProgram {
    pub elems: List<FlatElem>,
    /// The type of each input word.
    pub inputs: List<SigType>,
    /// The number of the element of each output word.
    pub outs: List<u32>,
}
