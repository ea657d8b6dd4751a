//! Copies of parts of the tree, since a typed program stands without its source.

ghost use Rattle.std.specs.Prelude.{◌≡◌, map, IfOk};
ghost use Rattle.silage_syntax.specs.Tree.{view_manifest, view_place, view_delay};

use lists::List;
use silage_syntax::{Decl, Manifest, Place};
use std::alloc::{AllocError, Global};

pub(crate) fn manifest(alloc: Global, m: &Manifest) -> Result<Manifest, AllocError>
    ensures { IfOk result (λ copy. view_manifest copy ≡ view_manifest m.now) }
{
    match m {
        Manifest::Whole(value, at) => Ok(Manifest::Whole(*value, *at)),
        Manifest::Index(name, at) => Ok(Manifest::Index(name.clone()?, *at)),
        Manifest::Negate(at, part) => {
            let part = manifest(alloc, part)?;
            Ok(Manifest::Negate(*at, Box::new(alloc, part)?))
        }
        Manifest::Binary(at, op, left, right) => {
            let left = manifest(alloc, left)?;
            let right = manifest(alloc, right)?;
            let left = Box::new(alloc, left)?;
            Ok(Manifest::Binary(*at, *op, left, Box::new(alloc, right)?))
        }
    }
}

pub(crate) fn delay(alloc: Global, m: &Option<Manifest>) -> Result<Option<Manifest>, AllocError>
    ensures { IfOk result (λ copy. view_delay copy ≡ view_delay m.now) }
{
    match m {
        None => Ok(None),
        Some(m) => Ok(Some(manifest(alloc, m)?)),
    }
}

fn manifests(alloc: Global, ms: &[Manifest]) -> Result<List<Manifest>, AllocError>
    ensures { IfOk result (λ copies. map view_manifest copies ≡ map view_manifest ms.now) }
{
    let mut copies = List::with_capacity(alloc, ms.len())?;
    for m in ms {
        copies.push(manifest(alloc, m)?)?;
    }
    Ok(copies)
}

pub(crate) fn place(alloc: Global, place: &Place) -> Result<Place, AllocError>
    ensures { IfOk result (λ copy. view_place copy ≡ view_place place.now) }
{
    Ok(Place {
        name: place.name.clone()?,
        at: place.at,
        subs: manifests(alloc, &place.subs)?,
    })
}

pub(crate) fn places(alloc: Global, places: &[Place]) -> Result<Vec<Place>, AllocError>
    ensures { IfOk result (λ copies. map view_place copies.items ≡ map view_place places.now) }
{
    let mut copies = Vec::with_capacity(alloc, places.len())?;
    for p in places {
        copies.push(place(alloc, p)?)?;
    }
    Ok(copies)
}

fn decl(alloc: Global, d: &Decl) -> Result<Decl, AllocError>
    ensures { IfOk result (λ copy. copy ≡ d.now) }
{
    Ok(Decl {
        name: d.name.clone()?,
        at: d.at,
        dims: List::from_slice(alloc, &d.dims)?,
        ty: d.ty,
    })
}

pub(crate) fn decls(alloc: Global, ds: &[Decl]) -> Result<List<Decl>, AllocError>
    ensures { IfOk result (λ copies. copies ≡ ds.now) }
{
    let mut copies = List::with_capacity(alloc, ds.len())?;
    for d in ds {
        copies.push(decl(alloc, d)?)?;
    }
    Ok(copies)
}
