//! The element that a fault is about, by which the text of the fault names it.

ghost use Rattle.std.specs.Prelude.{◌≡◌, IsSomeAnd, option_copied, slice_get};
ghost use Rattle.silage_syntax.specs.Names.{decls};
ghost use Rattle.silage_syntax.specs.Tree.{view, view_func};
ghost use Rattle.element_rules.specs.Expansion.{IsExpansion};
ghost use Rattle.front_end.specs.Places.{IsNumbered};
ghost use Rattle.front_end.specs.Private.Findings.{HasPlace};

use element_rules::Elements;
use silage_syntax::{Decl, Func, Program, Top};

/// An element: the byte at which its declaration stands, and its row-major place in that.
#[derive(Clone, Copy)]
pub(crate) struct ElementPlace {
    pub at: u32,
    pub place: u32,
}

/// The place of the element with this number in the expansion of the program.
pub(crate) fn numbered_element(
    program: &Program,
    elements: &Elements,
    number: u32,
) -> Option<ElementPlace>
    requires elements { IsExpansion (view program.now) elements.now }
    requires place { HasPlace (view program.now) number }
    ensures { IsSomeAnd result (λ e. IsNumbered (view program.now) number e.at e.place) }
{
    let element = elements.elements.get(number as usize)?;
    let instance = elements.instances.get(element.inst as usize)?;
    let Top::Func(func) = program.tops.get(instance.func as usize)? else {
        return None;
    };
    let decl = declaration(func, element.decl as usize)?;
    Some(ElementPlace {
        at: decl.at,
        place: element.place,
    })
}

/// The declaration with this position among the parameters, results and locals.
fn declaration(func: &Func, position: usize) -> Option<&Decl>
    ensures { option_copied result ≡ slice_get (decls (view_func func.now)) position }
{
    func.params
        .iter()
        .chain(func.results.iter())
        .chain(func.locals.iter())
        .nth(position)
}
