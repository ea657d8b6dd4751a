//! The input and output words of main.

ghost use Rattle.std.specs.Prelude.{◌≡◌, IsTrue, Some, slice_get};
ghost use Rattle.fault_order.specs.Private.FirstMet.{first};
ghost use Rattle.silage_syntax.specs.Tree.{Func as FuncTree, view, view_func, function};
ghost use Rattle.silage_syntax.specs.Names as meaning;
ghost use Rattle.name_rules.specs.NameFaults.{IsMain};
ghost use Rattle.element_rules.specs.ElementRules.{elements_of, word_rules};
ghost use Rattle.element_rules.specs.Sizes.{AreSized, AreAllSized};

use elaboration_compile::capped_elements;
use element_rules::PlacedFault;
use silage_syntax::{Func, Program, Top};

/// The most words of a row.
const MOST_WORDS: u32 = 16;

fn has_few_words(func: &Func) -> Result<(), PlacedFault>
    requires { AreSized (meaning.decls (view_func func.now)) }
    ensures { result ≡ first (word_rules (view_func func.now)) }
{
    if capped_elements(&func.params) <= MOST_WORDS && capped_elements(&func.results) <= MOST_WORDS {
        Ok(())
    } else {
        Err(PlacedFault::TooLarge(func.at))
    }
}

/// Main has no more than 16 input words, and no more than 16 output words.
pub(crate) fn check_words(program: &Program, main: u32) -> Result<(), PlacedFault>
    requires sized { AreAllSized (view program.now) }
    requires main { IsMain (view program.now) main }
    ensures { (f : FuncTree) → slice_get (view program.now).tops main ≡ Some (function f)
        → result ≡ first (word_rules f) }
{
    match program.tops.get(main as usize) {
        Some(Top::Func(func)) => has_few_words(func),
        Some(Top::Const(_)) => unreachable!(),
        None => unreachable!(),
    }
}
