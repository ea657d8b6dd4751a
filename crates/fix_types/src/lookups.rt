//! What names mean in a function.

ghost use Rattle.std.specs.Prelude.{◌≡◌, IfSome, IsSome, Some};
ghost use Rattle.silage_meaning.specs.Types as meaning;
ghost use Rattle.fix_types.specs.Private.Scopes.{program_of, function_of};
ghost use Rattle.type_rules.specs.Private.Sound.{IsSoundType};

use crate::scope::Scope;
use fix_word::SigType;
use lists::Name;

/// The type of the signal or table with the name, if there is one.
pub(crate) fn name_type(scope: &Scope, name: &Name) -> Option<SigType>
    ensures is { result ≡ meaning.name_type (program_of scope.now) (function_of scope.now) name.now }
    ensures sound { IfSome result IsSoundType }
{
    match scope.signals.get(name) {
        Some(ty) => Some(ty),
        None => Some(SigType::Fix(scope.tops.table(name)?.ty)),
    }
}

/// The same of a name that has a type by the rules on names.
pub(crate) fn type_of(scope: &Scope, name: &Name) -> SigType
    requires { IsSome (meaning.name_type (program_of scope.now) (function_of scope.now) name.now) }
    ensures is { Some result ≡ meaning.name_type (program_of scope.now) (function_of scope.now) name.now }
    ensures sound { IsSoundType result }
{
    match name_type(scope, name) {
        Some(ty) => ty,
        None => unreachable!(),
    }
}
