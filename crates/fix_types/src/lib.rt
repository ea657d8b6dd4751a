//! The types of a program: each expression as raw words, formats and operations, by the table in `specs/TypeRules`.
#![tactic(auto)]

mod copies;
mod expressions;
mod items;
mod lookups;
mod nodes;
mod operands;
mod plans;
mod scope;
mod signals;
mod synthesis;
mod tops;

ghost use Rattle.std.specs.Prelude.{◌≡◌, ◌≢◌, ◌<◌, ◌^◌, length, IfOk, OnOk, IfErr};
ghost use Rattle.fault_order.specs.Ranked.{IsClear, IsFirst, AnswersOk, AnswersFault};
ghost use Rattle.silage_syntax.specs.Tree.{view};
ghost use Rattle.name_rules.specs.TopNames.{top_names};
ghost use Rattle.name_rules.specs.NameFaults.{name_faults};
ghost use Rattle.type_rules.specs.Boundary.{KeepsValues};
ghost use Rattle.type_rules.specs.Numbers.{AreNumbersShort};
ghost use Rattle.type_rules.specs.Translation.{typed_program};
ghost use Rattle.type_rules.specs.TypedTree.{view_typed};
ghost use Rattle.type_rules.specs.TypeFaults.{type_faults};
ghost use Rattle.type_rules.specs.declared.fault.TypeFault.{TypeFault as FaultType};

use name_rules::{Names, Tops};
use silage_syntax::Program;
use std::alloc::Global;
use tops::typed_tops;
pub use type_rules::{TypeFault, Typed, TypedConst, TypedExpr, TypedFunc, TypedItem};

/// The typed program, or the first fault of types in source order: an expression's own before those of its parts, and
/// at a call the arguments before the places. `docs/LANGUAGE.md`, "Equations", has the typing table.
pub fn check_types(alloc: Global, program: &Program, names: &Names) -> Result<Typed, TypeFault>
    requires clear { IsClear (name_faults (view program.now)) }
    requires tops { names.now.tops ≡ top_names (view program.now) }
    requires few { length (view program.now).tops < 2 ^ 32 }
    requires numbers { AreNumbersShort (view program.now) }
    ensures ok { OnOk result (IsClear (type_faults (view program.now))) }
    ensures fault { IfErr result (λ fault. fault ≢ TypeFault.Memory
        → IsFirst (type_faults (view program.now)) fault) }
    ensures typed { IfOk result (λ typed. view_typed typed ≡ typed_program (view program.now)) }
    ensures values { OnOk result (KeepsValues (view program.now)) }

    // The first fault decides the answer, unless memory runs out.
    ensures each_ok { IsClear (type_faults (view program.now)) → AnswersOk TypeFault.Memory result }
    ensures each_fault { (fault : FaultType) → IsFirst (type_faults (view program.now)) fault
        → AnswersFault TypeFault.Memory fault result }
{
    let tops = Tops {
        program,
        names: &names.tops,
    };
    typed_tops(alloc, &tops)
}
