//! The instances of a program and their elements in order, or the first fault of them.
//!
//! An element is defined once, and the numbers in items are allowed, by the table of the rules on elements.
//!
//! The items of each function become actions once, and the walk over the instances does these.
#![tactic(auto)]

mod words;

ghost use Rattle.std.specs.Prelude.{◌≡◌, ◌≢◌, IfOk, OnOk, IfErr};
ghost use Rattle.fault_order.specs.Ranked.{IsClear, IsFirst, AnswersOk, AnswersFault};
ghost use Rattle.silage_syntax.specs.Tree.{view};
ghost use Rattle.silage_meaning.specs.Instances.{HasCallsApart};
ghost use Rattle.silage_meaning.specs.Rules.{HasSingleDefinitions};
ghost use Rattle.name_rules.specs.TopNames.{top_names};
ghost use Rattle.name_rules.specs.NameFaults.{name_faults, IsMain};
ghost use Rattle.element_rules.specs.ElementFaults.{placed_faults, element_faults};
ghost use Rattle.element_rules.specs.Expansion.{IsExpansion};
ghost use Rattle.element_rules.specs.Numbering.{IsNumbering};
ghost use Rattle.element_rules.specs.Signatures.{HaveResults};
ghost use Rattle.elaboration_code.specs.Actions.{GivesValue};
ghost use Rattle.elaboration_code.specs.ItemActions.{run_program};
ghost use Rattle.element_rules.specs.declared.fault.DefFault.{DefFault as FaultType};
ghost use Rattle.element_rules.specs.declared.fault.PlacedFault.{PlacedFault as PlacedType};

use elaboration_compile::bodies;
use elaboration_run::walk;
pub use element_rules::{DefFault, Element, Elements, Instance, PlacedFault};
use name_rules::{Names, Tops};
use silage_syntax::Program;
use std::alloc::Global;
use words::check_words;

/// The walk over the instances of a program.
fn walk_program(alloc: Global, program: &Program, names: &Names) -> Result<Elements, PlacedFault>
    requires clear { IsClear (name_faults (view program.now)) }
    requires tops { names.now.tops ≡ top_names (view program.now) }
    requires main { IsMain (view program.now) names.now.main }
    requires results { HaveResults (view program.now) }
    ensures { GivesValue result (run_program (view program.now) names.now.main) }
{
    let tops = Tops {
        program,
        names: &names.tops,
    };
    let bodies = bodies(alloc, &tops)?;
    walk(alloc, &bodies, names.main)
}

/// As `check_defs`, and an element without a definition has its row-major place besides.
pub fn check_elements(
    alloc: Global,
    program: &Program,
    names: &Names,
) -> Result<Elements, PlacedFault>
    requires clear { IsClear (name_faults (view program.now)) }
    requires tops { names.now.tops ≡ top_names (view program.now) }
    requires main { IsMain (view program.now) names.now.main }
    requires results { HaveResults (view program.now) }
    ensures ok { OnOk result (IsClear (placed_faults (view program.now))) }
    ensures fault { IfErr result (λ fault. fault ≢ PlacedFault.Memory
        → IsFirst (placed_faults (view program.now)) fault) }
    ensures elements { IfOk result (IsExpansion (view program.now)) }
    ensures numbering { IfOk result (IsNumbering (view program.now)) }
    ensures single { OnOk result (HasCallsApart (view program.now) → HasSingleDefinitions (view program.now)) }

    // The first fault decides the answer, unless memory runs out.
    ensures each_ok { IsClear (placed_faults (view program.now)) → AnswersOk PlacedFault.Memory result }
    ensures each_fault { (fault : PlacedType) → IsFirst (placed_faults (view program.now)) fault
        → AnswersFault PlacedFault.Memory fault result }
{
    check_words(program, names.main)?;
    walk_program(alloc, program, names)
}

/// The instances and elements of a program in the order in which they are entered, or its first fault: of the numbers
/// in its items, of an element that is defined twice or not at all, or of a load that is too large.
pub fn check_defs(alloc: Global, program: &Program, names: &Names) -> Result<Elements, DefFault>
    requires clear { IsClear (name_faults (view program.now)) }
    requires tops { names.now.tops ≡ top_names (view program.now) }
    requires main { IsMain (view program.now) names.now.main }
    requires results { HaveResults (view program.now) }
    ensures ok { OnOk result (IsClear (element_faults (view program.now))) }
    ensures fault { IfErr result (λ fault. fault ≢ DefFault.Memory
        → IsFirst (element_faults (view program.now)) fault) }
    ensures elements { IfOk result (IsExpansion (view program.now)) }
    ensures numbering { IfOk result (IsNumbering (view program.now)) }
    ensures single { OnOk result (HasCallsApart (view program.now) → HasSingleDefinitions (view program.now)) }

    // The first fault decides the answer, unless memory runs out.
    ensures each_ok { IsClear (element_faults (view program.now)) → AnswersOk DefFault.Memory result }
    ensures each_fault { (fault : FaultType) → IsFirst (element_faults (view program.now)) fault
        → AnswersFault DefFault.Memory fault result }
{
    Ok(check_elements(alloc, program, names)?)
}
