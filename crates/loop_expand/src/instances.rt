//! The instances of a program: the numbers of their elements, and what their items say of elements.

ghost use Rattle.std.specs.Prelude.{◌≡◌, ◌<◌, ◌≤◌, length, slice_get, IsSome, IfOk, OnOk};
ghost use Rattle.loop_expand.specs.Private.Elements.{Puts};
ghost use Rattle.loop_expand.specs.Private.Facts.{facts_in, facts_from};
ghost use Rattle.loop_expand.specs.Private.Scopes as is;
ghost use Rattle.loop_expand.specs.Private.Scopes.{view_bodies, firsts_from, size_in};
ghost use Rattle.loop_expand.specs.Private.Sites.{AreOfProgram};

use crate::body::Body;
use crate::item_facts::expand_groups;
use crate::lookups::{body, first_of, instance_body};
use crate::scope::Scope;
use element_rules::Instance;
use signal_graph::FlatElem;
use std::alloc::{AllocError, AllocFailed, Global};
use type_rules::TypedConst;

/// How many elements an instance of the function at this position has.
fn size(bodies: &[Body], func: u32) -> u32
    requires { IsSome (is.body_of (view_bodies bodies.now) func) }
    ensures { result ≡ size_in (is.body_of (view_bodies bodies.now) func) }
{
    body(bodies, func).size
}

/// The number of the first element of each instance.
pub(crate) fn firsts(
    alloc: Global,
    bodies: &[Body],
    instances: &[Instance],
) -> Result<Vec<u32>, AllocError>
    requires bodies { is.HaveBodies (view_bodies bodies.now) instances.now }
    requires few { is.total_of (view_bodies bodies.now) instances.now ≤ 8192 }
    ensures { IfOk result (λ firsts. firsts.items ≡ firsts_from (view_bodies bodies.now) 0 instances.now) }
{
    let mut firsts = Vec::with_capacity(alloc, instances.len())?;
    let mut next = 0;
    for instance in instances {
        firsts.push(next)?;
        next += size(bodies, instance.func);
    }
    Ok(firsts)
}

/// What the items of the instance with this number say.
fn expand_instance(
    alloc: Global,
    tables: &[TypedConst],
    bodies: &[Body],
    instances: &[Instance],
    firsts: &[u32],
    number: usize,
    elems: &mut [FlatElem],
) -> Result<(), AllocError>
    requires of { AreOfProgram tables.now (view_bodies bodies.now) instances.now }
    requires firsts { firsts.now ≡ firsts_from (view_bodies bodies.now) 0 instances.now }
    requires elements { length elems.old ≡ is.total_of (view_bodies bodies.now) instances.now }
    requires number { number < length instances.now }
    ensures { OnOk result (Puts (facts_in tables.now (view_bodies bodies.now) instances.now firsts.now number
        (is.body_at (view_bodies bodies.now) (slice_get instances.now number))) elems.old elems.new) }
{
    let body = instance_body(bodies, instances, number);
    let scope = Scope {
        alloc,
        tables,
        bodies,
        instances,
        firsts,
        number: number as u32,
        first: first_of(firsts, number),
        signals: &body.signals,
    };
    expand_groups(&scope, elems, &body.groups)
}

/// What the items of all instances say.
pub(crate) fn expand_all(
    alloc: Global,
    tables: &[TypedConst],
    bodies: &[Body],
    instances: &[Instance],
    firsts: &[u32],
    elems: &mut [FlatElem],
) -> Result<(), AllocError>
    requires of { AreOfProgram tables.now (view_bodies bodies.now) instances.now }
    requires firsts { firsts.now ≡ firsts_from (view_bodies bodies.now) 0 instances.now }
    requires elements { length elems.old ≡ is.total_of (view_bodies bodies.now) instances.now }
    ensures { OnOk result (Puts
        (facts_from tables.now (view_bodies bodies.now) instances.now firsts.now 0 instances.now)
        elems.old elems.new) }
{
    for number in 0..instances.len() {
        expand_instance(alloc, tables, bodies, instances, firsts, number, elems)?;
    }
    Ok(())
}
