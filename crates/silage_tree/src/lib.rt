//! What is known of a source once it has tokens: its tree, its grammar and limits, what it means, its canonical text.
//! The parts are crates of their own, which this one hands on.
#![tactic(auto)]

ghost use Rattle.silage_print.specs.ReadAgain.{ProgramTree};
ghost use Rattle.silage_tree.specs.ParsedAgain.{HasParsedSource, IsWithinAgain};

pub use silage_print::{TreeFault, parentheses_are_needed, print, print_is_read};
pub use silage_syntax::{
    BinOp, ConstDef, Decl, Expr, Func, Item, Lit, MOp, Manifest, Place, Program, Top,
};

/// The canonical text of a program that some source has within the limits is parsed as that program, up to positions,
/// within the limits.
pub fn print_is_parsed()
    ensures { (program : ProgramTree) → HasParsedSource program → IsWithinAgain program }
{
    print_is_read()
}
