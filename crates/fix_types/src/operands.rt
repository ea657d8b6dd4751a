//! The rules of an expression's own: on literals, names, and the types of operands.

ghost use Rattle.std.specs.Prelude.{◌≡◌, ◌≢◌, Some, IfOk};
ghost use Rattle.fault_order.specs.Private.FirstMet.{first, MeetsOr};
ghost use Rattle.type_rules.specs.TypeRules as rules;
ghost use Rattle.type_rules.specs.TypeRules.{literal_rules, name_rules, operand_rules, misfit};
ghost use Rattle.type_rules.specs.Translation as typed;
ghost use Rattle.type_rules.specs.Numbers.{IsShort};
ghost use Rattle.type_rules.specs.Private.Sound.{IsSoundType};
ghost use Rattle.fix_types.specs.Private.Answers.{Meets};
ghost use Rattle.fix_word.specs.declared.types.SigType.TheVariants.{Fix};

use fix_word::{FixType, LitFault, SigType, literal};
use silage_syntax::Lit;
use type_rules::TypeFault;

/// Whether two types have one shape, or both are `bool`.
pub(crate) fn is_same_shape(a: SigType, b: SigType) -> bool
    ensures { result ≡ rules.is_same_shape a b }
{
    match (a, b) {
        (SigType::Fix(a), SigType::Fix(b)) => a.shape.w == b.shape.w && a.shape.f == b.shape.f,
        (SigType::Bool, SigType::Bool) => true,
        _ => false,
    }
}

/// The raw word of a literal in a type.
pub(crate) fn literal_word(l: &Lit, wanted: SigType) -> Result<i64, TypeFault>
    requires short { IsShort l.now }
    requires sound { IsSoundType wanted }
    ensures met { Meets (literal_rules l.now wanted) result }
    ensures word { IfOk result (λ word. word ≡ typed.word_of l.now wanted) }
{
    match (*l, wanted) {
        (
            Lit::Number {
                neg,
                digits,
                places,
                at,
            },
            SigType::Fix(t),
        ) => {
            match literal(neg, digits, places, t.shape) {
                Ok(word) => Ok(word),
                Err(LitFault::Range) => Err(TypeFault::Literal(at)),
            }
        }
        (Lit::Number { at, .. }, SigType::Bool) => Err(TypeFault::NotBool(at)),
        (Lit::Truth { at, .. }, SigType::Fix(_)) => Err(TypeFault::Mismatch(at)),
        (Lit::Truth { value, .. }, SigType::Bool) => Ok(i64::from(value)),
    }
}

/// A name that does not have the wanted type.
fn misfit(wanted: SigType, at: u32) -> TypeFault
    ensures { result ≡ rules.misfit wanted at }
{
    match wanted {
        SigType::Fix(_) => TypeFault::Mismatch(at),
        SigType::Bool => TypeFault::NotBool(at),
    }
}

/// The name at this position has the shape of the wanted type. `ty` is the type that it is declared with.
pub(crate) fn check_name(ty: SigType, wanted: SigType, at: u32) -> Result<(), TypeFault>
    ensures { result ≡ first (name_rules (Some ty) wanted at) }
{
    if is_same_shape(ty, wanted) {
        Ok(())
    } else {
        Err(misfit(wanted, at))
    }
}

/// The fix type of a factor, or of the sides of a comparison, at this position.
pub(crate) fn operand_type(ty: Option<SigType>, at: u32) -> Result<FixType, TypeFault>
    ensures met { Meets (operand_rules ty at) result }
    ensures is { IfOk result (λ t. ty ≡ Some (Fix t)) }
{
    match ty {
        None => Err(TypeFault::NeedsCast(at)),
        Some(SigType::Bool) => Err(TypeFault::Mismatch(at)),
        Some(SigType::Fix(t)) => Ok(t),
    }
}
