//! The checks of a program that was read, and its flat program.

ghost use Rattle.std.specs.Prelude.{◌≡◌, ℕ, None, IsSomeAnd, IfOk, IfErr, OnOk};
ghost use Rattle.silage_syntax.specs.Tree.{view};
ghost use Rattle.signal_graph.specs.Flat as flat_program;
ghost use Rattle.element_rules.specs.Expansion.{IsExpansion};
ghost use Rattle.type_rules.specs.Translation.{typed_program};
ghost use Rattle.type_rules.specs.TypedTree.{view_typed};
ghost use Rattle.front_end.specs.Places.{IsNumbered, IsAbout};
ghost use Rattle.source_faults.specs.declared.fault.FrontError.TheVariants.{Fault, Memory};
ghost use Rattle.source_faults.specs.declared.fault.FrontFault.TheVariants.{Loop};
ghost use Rattle.front_end.specs.Private.Checks.{HasSource, HasNoFault, IsCheckError, IsFlatFor};
ghost use Rattle.source_faults.specs.Private.Errors.{of_names, of_types};
ghost use Rattle.front_end.specs.Private.Findings.{HasPlace, element_of, without_element, of_placed};

use crate::flat::loopless_flat;
use crate::names::{ElementPlace, numbered_element};
use element_rules::{DefFault, Elements, PlacedFault};
use fix_types::check_types;
use name_check::check_names;
use name_rules::NameFault;
use signal_graph::FlatProgram;
use silage_syntax::Program;
use single_def::check_elements;
use source_faults::{FrontError, FrontFault};
use std::alloc::Global;
use type_rules::{TypeFault, Typed};

/// What the checks give of a program.
#[derive(Drop)]
struct Checked {
    elements: Elements,
    typed: Typed,
}

/// Why a program is rejected, and the element that the fault is about, where it is about one.
#[derive(Clone, Copy)]
pub(crate) struct Finding {
    pub error: FrontError,
    pub element: Option<ElementPlace>,
}

impl From<NameFault> for Finding {
    ghost from_gives = { λ fault finding. finding ≡ without_element (of_names fault) };

    fn from(fault: NameFault) -> Self {
        Finding {
            error: FrontError::from(fault),
            element: None,
        }
    }
}

impl From<PlacedFault> for Finding {
    ghost from_gives = { λ fault finding. finding ≡ of_placed fault };

    /// Of the checks' faults, only that an element has no definition is about an element.
    fn from(fault: PlacedFault) -> Self {
        let element = match fault {
            PlacedFault::NotDefined { at, place } => Some(ElementPlace { at, place }),
            _ => None,
        };
        Finding {
            error: FrontError::from(DefFault::from(fault)),
            element,
        }
    }
}

impl From<TypeFault> for Finding {
    ghost from_gives = { λ fault finding. finding ≡ without_element (of_types fault) };

    fn from(fault: TypeFault) -> Self {
        Finding {
            error: FrontError::from(fault),
            element: None,
        }
    }
}

/// Checks the names of a program, then its elements, then its types.
fn check(alloc: Global, program: &Program) -> Result<Checked, Finding>
    requires { HasSource (view program.now) }
    ensures ok { OnOk result (HasNoFault (view program.now)) }
    ensures elements { IfOk result (λ checked. IsExpansion (view program.now) checked.elements) }
    ensures typed { IfOk result (λ checked. view_typed checked.typed ≡ typed_program (view program.now)) }
    ensures err { IfErr result (λ finding. IsCheckError (view program.now) finding.error) }
    ensures about { IfErr result (λ finding. IsAbout (view program.now) finding.error (element_of finding)) }
{
    let names = check_names(alloc, program)?;
    let elements = check_elements(alloc, program, &names)?;
    let typed = check_types(alloc, program, &names)?;
    Ok(Checked { elements, typed })
}

/// The element that a delay-free loop is about.
fn looped(program: &Program, elements: &Elements, error: FrontError) -> Option<ElementPlace>
    requires elements { IsExpansion (view program.now) elements.now }
    requires place { (k : ℕ) → error ≡ Fault (Loop k) → HasPlace (view program.now) k }
    ensures found { (k : ℕ) → error ≡ Fault (Loop k)
        → IsSomeAnd result (λ e. IsNumbered (view program.now) k e.at e.place) }
    ensures none { error ≡ Memory → result ≡ None }
{
    match error {
        FrontError::Fault(FrontFault::Loop { elem }) => numbered_element(program, elements, elem),
        _ => None,
    }
}

/// Checks a program, then makes its flat program.
pub(crate) fn checked_flat(alloc: Global, program: &Program) -> Result<FlatProgram, Finding>
    requires { HasSource (view program.now) }
    ensures ok { OnOk result (HasNoFault (view program.now)) }
    ensures flat { IfOk result (λ f. IsFlatFor (view program.now) (flat_program.view f)) }
    ensures err { IfErr result (λ finding. IsCheckError (view program.now) finding.error) }
    ensures about { IfErr result (λ finding. IsAbout (view program.now) finding.error (element_of finding)) }
{
    let checked = check(alloc, program)?;
    match loopless_flat(alloc, &checked.typed, &checked.elements) {
        Ok(flat) => Ok(flat),
        Err(error) => Err(Finding {
            error,
            element: looped(program, &checked.elements, error),
        }),
    }
}
