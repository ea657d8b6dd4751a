//! What is known where an instance is expanded.

ghost use Rattle.std.specs.Prelude.{◌≡◌, ◌≤◌, length};
ghost use Rattle.loop_expand.specs.Private.Children.{AreApart};
ghost use Rattle.loop_expand.specs.Private.Facts.{AreTablesSized};
ghost use Rattle.loop_expand.specs.Private.Scopes.{view_bodies, HaveBodies, total_of};

use crate::body::{Body, Signal};
use element_rules::Instance;
use std::alloc::Global;
use type_rules::TypedConst;

/// An instance among the others of its program.
#[derive(Clone, Copy)]
pub(crate) struct Scope<'a> {
    pub alloc: Global,
    pub tables: &'a [TypedConst],
    pub bodies: &'a [Body<'a>],
    pub instances: &'a [Instance],
    /// The number of the first element of each instance.
    pub firsts: &'a [u32],
    /// The number of this instance.
    pub number: u32,
    /// The number of its first element.
    pub first: u32,
    pub signals: &'a [Signal<'a>],
    ghost apart: { AreApart instances.now },
    ghost known: { HaveBodies (view_bodies bodies.now) instances.now },
    ghost sized: { AreTablesSized tables.now },
    ghost long: { length firsts.now ≡ length instances.now },
    ghost few: { total_of (view_bodies bodies.now) instances.now ≤ 8192 },
}
