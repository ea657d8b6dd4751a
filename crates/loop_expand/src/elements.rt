//! The elements of the flat program.

ghost use Rattle.std.specs.Prelude.{◌≡◌, ◌<◌, ◌≤◌, ◌++◌, length, replicate, IfOk, OnOk};
ghost use Rattle.silage_meaning.specs.Types.{word_types};
ghost use Rattle.type_rules.specs.TypedTree.{view_func};
ghost use Rattle.element_rules.specs.Sizes.{AreSized};
ghost use Rattle.loop_expand.specs.Private.Sizes.{decls_of};
ghost use Rattle.signal_graph.specs.Flat.{view_elem, view_body, view_expr};
ghost use Rattle.loop_expand.specs.Private.Elements as is;
ghost use Rattle.loop_expand.specs.Private.Elements.{view_elems};
ghost use Rattle.loop_expand.specs.Private.Facts.{defines, presets};
ghost use Rattle.loop_expand.specs.Private.Scopes.{view_bodies, HaveBodies};

use crate::body::Body;
use crate::initials::insert;
use crate::lookups::body;
use element_rules::Instance;
use fix_word::SigType;
use lists::List;
use name_rules::element_count;
use signal_graph::{FlatBody, FlatElem, FlatExpr};
use silage_syntax::Decl;
use std::alloc::{AllocError, AllocFailed, Global};
use std::mem;
use type_rules::TypedFunc;

/// Appends so many equal types.
fn put_type(types: &mut List<SigType>, ty: SigType, count: u32) -> Result<(), AllocError>
    ensures { OnOk result (types.new ≡ types.old ++ replicate count ty) }
{
    for _ in 0..count {
        types.push(ty)?;
    }
    Ok(())
}

/// Appends the types of the elements of declarations.
pub(crate) fn put_types(types: &mut List<SigType>, decls: &[Decl]) -> Result<(), AllocError>
    requires { AreSized decls.now }
    ensures { OnOk result (types.new ≡ types.old ++ word_types decls.now) }
{
    for decl in decls {
        put_type(types, decl.ty, element_count(&decl.dims))?;
    }
    Ok(())
}

fn put_body_types(types: &mut List<SigType>, func: &TypedFunc) -> Result<(), AllocError>
    requires { AreSized (decls_of (view_func func.now)) }
    ensures { OnOk result (types.new ≡ types.old ++ (word_types func.now.params
        ++ (word_types func.now.results ++ word_types func.now.locals))) }
{
    put_types(types, &func.params)?;
    put_types(types, &func.results)?;
    put_types(types, &func.locals)
}

/// The types of the elements of all instances.
pub(crate) fn all_types(
    alloc: Global,
    bodies: &[Body],
    instances: &[Instance],
) -> Result<List<SigType>, AllocError>
    requires { HaveBodies (view_bodies bodies.now) instances.now }
    ensures { IfOk result (λ types. types ≡ is.types_of (view_bodies bodies.now) instances.now) }
{
    let mut types = List::new(alloc);
    for instance in instances {
        put_body_types(&mut types, body(bodies, instance.func).func)?;
    }
    Ok(types)
}

/// The word of the input row, for one of the first elements.
fn first_body(inputs: usize, k: usize) -> FlatBody
    requires { inputs ≤ 16 }
    ensures { view_body result ≡ is.first_body inputs k }
{
    if k < inputs {
        FlatBody::Word(k as u8)
    } else {
        FlatBody::Value(FlatExpr::Raw(0))
    }
}

/// Elements of these types, of which the first have the words of the input row.
pub(crate) fn first_elements(
    alloc: Global,
    inputs: usize,
    types: &[SigType],
) -> Result<Vec<FlatElem>, AllocError>
    requires { inputs ≤ 16 }
    ensures { IfOk result (λ elems. view_elems elems.items ≡ is.first_elements inputs 0 types.now) }
{
    let mut elems = Vec::with_capacity(alloc, types.len())?;
    for k in 0..types.len() {
        elems.push(FlatElem {
            ty: types[k],
            body: first_body(inputs, k),
            inits: List::new(alloc),
        })?;
    }
    Ok(elems)
}

fn set_value(elem: &mut FlatElem, value: FlatExpr)
    ensures { view_elem elem.new ≡ is.with_value (view_expr value) (view_elem elem.old) }
{
    elem.body = FlatBody::Value(value);
}

fn set_init(alloc: Global, elem: &mut FlatElem, sample: u16, word: i64) -> Result<(), AllocError>
    ensures { OnOk result (view_elem elem.new ≡ is.with_init sample word (view_elem elem.old)) }
{
    let inits = mem::replace(&mut elem.inits, List::new(alloc));
    elem.inits = insert(inits, sample, word)?;
    Ok(())
}

/// Gives an element its value.
pub(crate) fn define(elems: &mut [FlatElem], elem: u32, value: FlatExpr)
    requires { elem < length elems.old }
    ensures { view_elems elems.new ≡ is.with_fact (defines elem (view_expr value)) (view_elems elems.old) }
{
    set_value(&mut elems[elem as usize], value);
}

/// Gives an element its word at a sample before sample 0.
pub(crate) fn preset(
    alloc: Global,
    elems: &mut [FlatElem],
    elem: u32,
    sample: u16,
    word: i64,
) -> Result<(), AllocError>
    requires { elem < length elems.old }
    ensures { OnOk result (view_elems elems.new
        ≡ is.with_fact (presets elem sample word) (view_elems elems.old)) }
{
    set_init(alloc, &mut elems[elem as usize], sample, word)
}
