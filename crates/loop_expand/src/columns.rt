//! Turns of loops inside each other, by columns of their indices.

ghost use Rattle.loop_expand.specs.Private.Columns.{AreFull};

use lists::Name;

/// The index of a loop, with its value in each turn.
#[derive(Drop)]
pub(crate) struct Column<'a> {
    pub index: &'a Name,
    pub values: Vec<i32>,
}

/// Turns of loops inside each other, by their indices, outermost first.
#[derive(Drop)]
pub(crate) struct Turns<'a> {
    pub columns: Vec<Column<'a>>,
    pub count: usize,
    ghost full: { AreFull columns.items count },
}

/// A turn of a loop: the number of the turn around it, and its index.
#[derive(Clone, Copy, Drop)]
pub(crate) struct InnerTurn {
    pub outer: usize,
    pub index: i32,
}
