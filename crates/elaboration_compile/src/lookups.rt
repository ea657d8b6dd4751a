//! What names mean in a function.

ghost use Rattle.std.specs.Prelude.{◌≡◌, option_map, Some, IsTrue, IsSome};
ghost use Rattle.silage_syntax.specs.Names.{declared};
ghost use Rattle.name_rules.specs.Meanings.{are_dims};
ghost use Rattle.element_rules.specs.ElementRules as rules;
ghost use Rattle.elaboration_code.specs.ItemActions.{allowed};
ghost use Rattle.elaboration_compile.specs.Private.Scopes.{program_of, function_of, located_in};

use crate::scope::Scope;
use lists::Name;
use silage_syntax::Decl;

/// The longest delay, in samples.
const MAX_DELAY: i64 = 1023;

/// That of a table, which may not even be delayed by 0.
const NO_DELAY: i64 = -1;

/// The signal with the name, and the position of its declaration.
fn signal<'a>(scope: &Scope<'a>, name: &Name) -> Option<(usize, &'a Decl)>
    ensures { option_map (λ q. (q.0, q.1.now)) result ≡ declared (function_of scope.now) name.now }
{
    for d in 0..scope.decls.len() {
        let decl = scope.decls[d];
        if decl.name == *name {
            return Some((d, decl));
        }
    }
    None
}

/// The signal with the name, and the number of its first element.
pub(crate) fn located<'a>(scope: &Scope<'a>, name: &Name) -> (u32, &'a Decl)
    requires { IsSome (located_in scope.now name.now) }
    ensures signal { Some (result.0, result.1.now) ≡ located_in scope.now name.now }
    ensures sized { IsTrue (are_dims result.1.now.dims) }
{
    match signal(scope, name) {
        Some((d, decl)) => (scope.signals[d].first, decl),
        None => unreachable!(),
    }
}

/// The dims of what is read by a name, and the longest delay that it may have.
pub(crate) fn readable<'a>(scope: &Scope<'a>, name: &Name) -> (&'a [u32], i64)
    requires { IsSome (rules.readable (program_of scope.now) (function_of scope.now) name.now) }
    ensures { Some (result.0.now, allowed result.1)
        ≡ rules.readable (program_of scope.now) (function_of scope.now) name.now }
{
    match signal(scope, name) {
        Some((_, decl)) => (&decl.dims, MAX_DELAY),
        None => match scope.tops.table(name) {
            Some(c) => (&c.dims, NO_DELAY),
            None => unreachable!(),
        },
    }
}
