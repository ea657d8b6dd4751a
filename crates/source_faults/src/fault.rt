//! Why a source has no program.

ghost use Rattle.std.specs.Prelude.{◌≡◌};
ghost use Rattle.source_faults.specs.declared.fault.FrontError.TheVariants.{Memory};
ghost use Rattle.source_faults.specs.Private.Errors.{of_lex, of_parse, of_names, of_defs, of_types, of_build};

use element_rules::DefFault;
use flow_graph::{GraphFault, PruneFault};
use name_rules::NameFault;
use silage_lex::LexFault;
use silage_parse::ParseFault;
use thiserror::Error;
use type_rules::TypeFault;

/// The fault of a source that has no program. Want of memory is an error of its own and never comes in here.
#[derive(Clone, Copy, Debug, PartialEq, Eq, Error)]
pub enum FrontFault {
    /// There are more than 2^20 bytes.
    #[error("source too long")]
    TooLong,
    /// The bytes are no tokens.
    #[error(transparent)]
    Lex(LexFault),
    /// The tokens are no program.
    #[error(transparent)]
    Parse(ParseFault),
    /// The names of the program mean nothing, or one has no main.
    #[error(transparent)]
    Name(NameFault),
    /// An element is not defined exactly once, a number in an item is not allowed, or there are too many elements.
    #[error(transparent)]
    Def(DefFault),
    /// An expression is not of the type that is wanted there, or has no type where it needs one.
    #[error(transparent)]
    Kind(TypeFault),
    /// The first element that depends on itself without a delay, by its number in the expansion of the program.
    #[error("loop")]
    Loop { elem: u32 },
}

/// Why the front end gives no program.
#[derive(Clone, Copy, Debug, PartialEq, Eq, Error)]
pub enum FrontError {
    /// The source has none.
    #[error(transparent)]
    Fault(FrontFault),
    /// Out of memory.
    #[error("no memory")]
    Memory,
}

impl From<LexFault> for FrontError {
    ghost from_gives = { λ fault error. error ≡ of_lex fault };

    fn from(fault: LexFault) -> Self {
        match fault {
            LexFault::Memory => FrontError::Memory,
            fault => FrontError::Fault(FrontFault::Lex(fault)),
        }
    }
}

impl From<ParseFault> for FrontError {
    ghost from_gives = { λ fault error. error ≡ of_parse fault };

    fn from(fault: ParseFault) -> Self {
        match fault {
            ParseFault::Memory => FrontError::Memory,
            fault => FrontError::Fault(FrontFault::Parse(fault)),
        }
    }
}

impl From<NameFault> for FrontError {
    ghost from_gives = { λ fault error. error ≡ of_names fault };

    fn from(fault: NameFault) -> Self {
        match fault {
            NameFault::Memory => FrontError::Memory,
            fault => FrontError::Fault(FrontFault::Name(fault)),
        }
    }
}

impl From<DefFault> for FrontError {
    ghost from_gives = { λ fault error. error ≡ of_defs fault };

    fn from(fault: DefFault) -> Self {
        match fault {
            DefFault::Memory => FrontError::Memory,
            fault => FrontError::Fault(FrontFault::Def(fault)),
        }
    }
}

impl From<TypeFault> for FrontError {
    ghost from_gives = { λ fault error. error ≡ of_types fault };

    fn from(fault: TypeFault) -> Self {
        match fault {
            TypeFault::Memory => FrontError::Memory,
            fault => FrontError::Fault(FrontFault::Kind(fault)),
        }
    }
}

impl From<GraphFault> for FrontError {
    ghost from_gives = { λ fault error. error ≡ of_build fault };

    fn from(fault: GraphFault) -> Self {
        match fault {
            GraphFault::Loop(elem) => FrontError::Fault(FrontFault::Loop { elem }),
            GraphFault::Memory => FrontError::Memory,
        }
    }
}

impl From<PruneFault> for FrontError {
    ghost from_gives = { λ _ error. error ≡ Memory };

    fn from(_: PruneFault) -> Self {
        FrontError::Memory
    }
}
