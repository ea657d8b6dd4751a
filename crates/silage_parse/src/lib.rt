//! Which program the tokens of a source are.
#![tactic(auto)]

mod comma_lists;
mod declarations;
mod expressions;
mod items;
mod manifests;
mod parser;
mod places;
mod program;
mod types;

ghost use Rattle.std.specs.Prelude.{◌≡◌, ◌≢◌, ◌<◌, ◌^◌, length, IfOk, IfErr};
ghost use Rattle.silage_syntax.specs.Tree.{Program as Tree, view};
ghost use Rattle.silage_parse.specs.Answers.{IsWithin, HasFault, AnswersProgram, AnswersFault};
ghost use Rattle.silage_parse.specs.declared.ParseFault.{ParseFault as FaultType};
ghost use Rattle.silage_parse.specs.declared.ParseFault.TheVariants.{Memory};

use program::program;
use silage_lex::Tokens;
use silage_syntax::Program;
use std::alloc::{AllocError, AllocFailed, Global};
use thiserror::Error;

/// Why tokens are no program that may be compiled, each with the number of a token.
#[derive(Debug, Clone, Copy, PartialEq, Eq, Drop, Error)]
pub enum ParseFault {
    /// The least token with which no program goes on; the number of tokens where they only begin a program.
    #[error("syntax")]
    Syntax(u32),
    /// The 257th token that counts in its outermost expression, or the `begin` of a loop inside 16 loops.
    #[error("too deep")]
    Deep(u32),
    /// No memory was left.
    #[error("no memory")]
    Memory,
}

impl<T: Drop> From<AllocFailed<T>> for ParseFault {
    ghost use Rattle.silage_parse.specs.declared.ParseFault.TheVariants.{Memory};

    ghost from_gives = { λ _ fault. fault ≡ Memory };

    fn from(_: AllocFailed<T>) -> ParseFault {
        ParseFault::Memory
    }
}

impl From<AllocError> for ParseFault {
    ghost use Rattle.silage_parse.specs.declared.ParseFault.TheVariants.{Memory};

    ghost from_gives = { λ _ fault. fault ≡ Memory };

    fn from(_: AllocError) -> ParseFault {
        ParseFault::Memory
    }
}

/// Reads the tokens of a source to its program. The fault is that of the least token that has one: `Syntax` where no
/// program goes on with the token, else `Deep` where the token passes a limit.
pub fn parse(alloc: Global, tokens: &Tokens) -> Result<Program, ParseFault>
    requires { length tokens.now < 2 ^ 32 }
    ensures program { IfOk result (λ program. IsWithin tokens.now (view program)) }
    ensures fault { IfErr result (λ fault. fault ≢ Memory → HasFault tokens.now fault) }

    // What the tokens are is what the call answers, unless there is no memory.
    ensures each_program { (program : Tree) → IsWithin tokens.now program → AnswersProgram program result }
    ensures each_fault { (fault : FaultType) → HasFault tokens.now fault → AnswersFault fault result }
{
    program(alloc, tokens.as_slice())
}
