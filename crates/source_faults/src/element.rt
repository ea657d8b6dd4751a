//! The element that a fault is about, by which the text of the fault names it.

ghost use Rattle.std.specs.Prelude.{◌≡◌, IfSome};

use silage_syntax::{Decl, Func, Program, Top};

/// A program, and an element of it: by the byte at which its declaration stands, and its row-major place in that.
#[derive(Drop)]
pub struct NamedElement {
    pub program: Program,
    pub at: u32,
    pub place: u32,
}

/// An element, by its row-major place in its declaration.
#[derive(Clone, Copy)]
pub struct Element<'a> {
    pub decl: &'a Decl,
    pub place: u32,
}

impl NamedElement {
    /// The element, with its declaration; none where no signal is declared at that byte.
    pub fn element(&self) -> Option<Element<'_>>
        ensures declared { IfSome result (λ found. found.decl.now.at ≡ self.now.at) }
        ensures place { IfSome result (λ found. found.place ≡ self.now.place) }
    {
        for top in self.program.tops.as_slice() {
            if let Top::Func(func) = top
                && let Some(decl) = declared_at(func, self.at)
            {
                return Some(Element {
                    decl,
                    place: self.place,
                });
            }
        }
        None
    }
}

/// The signal of the function that is declared at this byte.
fn declared_at(func: &Func, at: u32) -> Option<&Decl>
    ensures { IfSome result (λ decl. decl.now.at ≡ at) }
{
    func.params
        .iter()
        .chain(func.results.iter())
        .chain(func.locals.iter())
        .find(|decl| decl.at == at)
}
