//! Whether the names of a program mean something.
#![tactic(auto)]

mod calls;
mod context;
mod declarations;
mod expressions;
mod indices;
mod items;
mod lookups;
mod places;
mod recursion;
mod sizes;
mod tops;

ghost use Rattle.std.specs.Prelude.{◌≡◌, ◌≢◌, ◌<◌, ◌^◌, length, IfOk, OnOk, IfErr};
ghost use Rattle.fault_order.specs.Ranked.{IsClear, IsFirst, AnswersOk, AnswersFault};
ghost use Rattle.silage_syntax.specs.Tree.{view};
ghost use Rattle.name_rules.specs.TopNames.{top_names};
ghost use Rattle.name_rules.specs.NameFaults.{name_faults, IsMain};
ghost use Rattle.name_rules.specs.declared.fault.NameFault.{NameFault as FaultType};

use name_rules::Tops;
pub use name_rules::{Env, ManifestFault, NameFault, NameMap, Names, manifest};
use recursion::check_recursion;
use silage_syntax::Program;
use std::alloc::Global;
use tops::{check_tops, main_position};

/// What the names of a program mean, or its first fault: a name that two tables or functions have, else a fault inside
/// one of them, else a function that reaches itself by calls, else that no function is called `main`.
pub fn check_names(alloc: Global, program: &Program) -> Result<Names, NameFault>
    requires { length (view program.now).tops < 2 ^ 32 }
    ensures ok { OnOk result (IsClear (name_faults (view program.now))) }
    ensures fault { IfErr result (λ fault. fault ≢ NameFault.Memory → IsFirst (name_faults (view program.now)) fault) }
    ensures tops { IfOk result (λ names. names.tops ≡ top_names (view program.now)) }
    ensures main { IfOk result (λ names. IsMain (view program.now) names.main) }

    // The first fault decides the answer, unless memory runs out.
    ensures each_ok { IsClear (name_faults (view program.now)) → AnswersOk NameFault.Memory result }
    ensures each_fault { (fault : FaultType) → IsFirst (name_faults (view program.now)) fault
        → AnswersFault NameFault.Memory fault result }
{
    let tops = NameMap::of(alloc, program)?;
    check_tops(
        alloc,
        &Tops {
            program,
            names: &tops,
        },
    )?;
    check_recursion(alloc, &tops, program)?;
    let main = main_position(program).ok_or(NameFault::NoMain)?;
    Ok(Names { main, tops })
}
