//! Where types are judged.

ghost use Rattle.std.specs.Prelude.{◌≡◌, ℕ, List};
ghost use Rattle.silage_syntax.specs.Tree.{view, view_func};
ghost use Rattle.type_rules.specs.Private.Signals.{signal_type, type_in};
ghost use Rattle.type_rules.specs.Private.Sound.{HasSoundTypes};

use crate::signals::Signals;
use name_rules::Tops;
use silage_syntax::Func;
use std::alloc::Global;

/// A function of a program without a fault of names.
#[derive(Clone, Copy)]
pub(crate) struct Scope<'a> {
    pub alloc: Global,
    pub tops: Tops<'a>,
    pub func: &'a Func,
    pub signals: &'a Signals,
    ghost declared: { (name : List ℕ) → type_in signals.now name ≡ signal_type (view_func func.now) name },
    ghost sound: { HasSoundTypes (view tops.program.now) (view_func func.now) },
}
