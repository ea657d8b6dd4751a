//! Where the fault of a source is.

ghost use Rattle.std.specs.Prelude.{◌≡◌, ◌≤◌, ◌^◌, length, option_map, None};
ghost use Rattle.silage_lex.specs.Tokens.{HasTokens, line_at};
ghost use Rattle.front_end.specs.Places.{byte_of_lex, byte_of_name, byte_of_def, byte_of_kind, IsLineOf};
ghost use Rattle.source_faults.specs.Private.Errors.{of_lex, of_parse};
ghost use Rattle.source_faults.specs.declared.fault.FrontError.TheVariants.{Memory};
ghost use Rattle.front_end.specs.Private.Findings.{byte_of_finding};

use crate::checks::Finding;
use crate::lines::{line_of, token_line};
use crate::names::ElementPlace;
use element_rules::DefFault;
use name_rules::NameFault;
use silage_lex::{LexFault, Tokens};
use silage_parse::ParseFault;
use silage_syntax::Program;
use source_faults::{FrontError, FrontFault, NamedElement, Rejection};
use type_rules::TypeFault;

pub(crate) fn lex_rejection(source: &[u8], fault: LexFault) -> Rejection
    ensures { result ≡ record {
      error = of_lex fault;
      line = option_map (line_at source.now) (byte_of_lex fault);
      element = None;
    } }
{
    Rejection {
        error: FrontError::from(fault),
        line: lex_place(fault).map(|at| line_of(source, at)),
        element: None,
    }
}

pub(crate) fn parse_rejection(source: &[u8], tokens: &Tokens, fault: ParseFault) -> Rejection
    requires few { length source.now ≤ 2 ^ 20 }
    requires tokens { HasTokens source.now tokens.now }
    ensures error { result.error ≡ of_parse fault }
    ensures line { IsLineOf source.now result.error None result.line }
    ensures element { result.element ≡ None }
{
    let line = match fault {
        ParseFault::Syntax(token) | ParseFault::Deep(token) => {
            Some(token_line(source, tokens, token))
        }
        ParseFault::Memory => None,
    };
    Rejection {
        error: FrontError::from(fault),
        line,
        element: None,
    }
}

fn lex_place(fault: LexFault) -> Option<u32>
    ensures { result ≡ byte_of_lex fault }
{
    match fault {
        LexFault::BadByte(at) | LexFault::BadNumber(at) | LexFault::OpenComment(at) => Some(at),
        LexFault::Memory => None,
    }
}

/// The byte at which a fault of names is. That there is no main is nowhere.
fn name_place(fault: NameFault) -> Option<u32>
    ensures { result ≡ byte_of_name fault }
{
    match fault {
        NameFault::Unknown(at) | NameFault::Twice(at) | NameFault::Recursive(at) => Some(at),
        NameFault::Arity(at) | NameFault::Size(at) => Some(at),
        NameFault::NoMain | NameFault::Memory => None,
    }
}

fn def_place(fault: DefFault) -> Option<u32>
    ensures { result ≡ byte_of_def fault }
{
    match fault {
        DefFault::Index(at) | DefFault::Bounds(at) | DefFault::Delay(at) => Some(at),
        DefFault::Shift(at) | DefFault::DefinedTwice(at) => Some(at),
        DefFault::NotDefined(at) | DefFault::TooLarge(at) => Some(at),
        DefFault::Memory => None,
    }
}

fn kind_place(fault: TypeFault) -> Option<u32>
    ensures { result ≡ byte_of_kind fault }
{
    match fault {
        TypeFault::Mismatch(at) | TypeFault::NeedsCast(at) => Some(at),
        TypeFault::Literal(at) | TypeFault::NotBool(at) => Some(at),
        TypeFault::Memory => None,
    }
}

/// The byte at which an error is: of a loop the declaration of the element that it is about.
fn place_of(finding: Finding) -> Option<u32>
    ensures { result ≡ byte_of_finding finding }
{
    match finding.error {
        FrontError::Fault(FrontFault::Lex(fault)) => lex_place(fault),
        FrontError::Fault(FrontFault::Name(fault)) => name_place(fault),
        FrontError::Fault(FrontFault::Def(fault)) => def_place(fault),
        FrontError::Fault(FrontFault::Kind(fault)) => kind_place(fault),
        FrontError::Fault(FrontFault::Loop { .. }) => finding.element.map(|element| element.at),
        FrontError::Fault(FrontFault::TooLong | FrontFault::Parse(_)) => None,
        FrontError::Memory => None,
    }
}

fn named(program: Program, element: Option<ElementPlace>) -> Option<NamedElement>
    ensures { result ≡ option_map (λ e. record { program = program; at = e.at; place = e.place }) element }
{
    let ElementPlace { at, place } = element?;
    Some(NamedElement { program, at, place })
}

/// That memory ran out.
pub(crate) fn no_memory() -> Rejection
    ensures { result ≡ record { error = Memory; line = None; element = None } }
{
    Rejection {
        error: FrontError::Memory,
        line: None,
        element: None,
    }
}

/// The rejection of a program.
pub(crate) fn reject(source: &[u8], program: Program, finding: Finding) -> Rejection
    ensures error { result.error ≡ finding.error }
    ensures line { result.line ≡ option_map (line_at source.now) (byte_of_finding finding) }
    ensures element { result.element
        ≡ option_map (λ e. record { program = program; at = e.at; place = e.place }) finding.element }
{
    Rejection {
        error: finding.error,
        line: place_of(finding).map(|at| line_of(source, at)),
        element: named(program, finding.element),
    }
}
