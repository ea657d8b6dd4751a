//! The instances of a program and their elements.

use lists::List;

/// An instance of a function, made by the call at source position `site` in the instance with number `parent`. The
/// first instance is that of main, with zeros and no turns.
#[derive(Drop)]
pub struct Instance {
    /// The position of the function among the tables and functions.
    pub func: u32,
    pub parent: u32,
    pub site: u32,
    /// The values of the indices of the loops around the call, outermost first.
    pub turns: List<i32>,
}

/// One signal of an instance, or one element of an array.
#[derive(Clone, Copy, Drop)]
pub struct Element {
    /// The number of the instance.
    pub inst: u32,
    /// The position of the declaration among the parameters, results and locals.
    pub decl: u32,
    /// The row-major place in the array.
    pub place: u32,
}

/// The instances of a program in the order in which they are entered, and the elements of each in turn.
#[derive(Drop)]
pub struct Elements {
    pub instances: List<Instance>,
    pub elements: List<Element>,
}
