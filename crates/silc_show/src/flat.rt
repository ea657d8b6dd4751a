//! The elements of a source that is accepted, and its flat program.

ghost use Rattle.std.specs.Prelude.{IfOk};
ghost use Rattle.source_faults.specs.Faults.{HasProgram};
ghost use Rattle.signal_graph.specs.Flat as flat_form;
ghost use Rattle.signal_graph.specs.FlatRules.{IsFlat};
ghost use Rattle.silage_syntax.specs.Tree.{view};

use crate::elements::expanded;
use crate::names::names_of;
use crate::page::{Page, Refused};
use crate::types::typed;
use element_rules::Elements;
use loop_expand::expand;
use signal_graph::FlatProgram;
use silage_tree::Program;

/// The elements of a program, and its flat program.
#[derive(Drop)]
pub struct Expanded {
    pub elements: Elements,
    pub flat: FlatProgram,
}

pub fn expanded_of(page: &mut Page, source: &[u8], program: &Program) -> Result<Expanded, Refused>
    requires { HasProgram source.now (view program.now) }
    ensures { IfOk result (λ expanded. IsFlat (flat_form.view expanded.flat)) }
{
    let names = names_of(page, source, program)?;
    let elements = expanded(page, source, program, &names)?;
    let typed = typed(page, source, program, &names)?;
    match expand(page.alloc, &typed, &elements) {
        Ok(flat) => Ok(Expanded { elements, flat }),
        Err(_) => Err(page.cut()),
    }
}
