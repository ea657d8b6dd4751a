//! Whether microcode is for a datapath.
ghost use Rattle.std.specs.Prelude.{List as Bytes, ℕ, OnOk, IfOk, IfErr};
ghost use Rattle.datapath.specs.Allowed.{IsDatapath};
ghost use Rattle.datapath.specs.Described.{IsPathOf};
ghost use Rattle.micro_image.specs.Valid.{IsValid};
ghost use Rattle.same_source.specs.Same.{IsOnlyImage};
ghost use Rattle.same_source.specs.OnPath.{IsOnDatapath, IsPath, IsPathRefusal};

use crate::comparison::MICROCODE_LIMIT;
use crate::unfit::PathRefusal;
use datapath::{Datapath, PathFault, read};
use image_fit::check_fit;
use micro_file::{FormFault, decode};
use micro_image::Image;
use std::alloc::Global;

/// The datapath that the bytes of a file describe.
fn datapath_of(alloc: Global, path: &[u8]) -> Result<Datapath, PathRefusal>
    ensures described { IfOk result (IsPathOf path.now) }
    ensures allowed { IfOk result IsDatapath }
    ensures err { IfErr result (λ refusal. (microcode : Bytes ℕ) → IsPathRefusal microcode path.now refusal) }
{
    match read(alloc, path) {
        Ok(datapath) => Ok(datapath),
        Err(PathFault::Memory) => Err(PathRefusal::Memory),
        Err(fault) => Err(PathRefusal::Path(fault)),
    }
}

/// The image that the bytes spell.
fn spelled_image(alloc: Global, microcode: &[u8]) -> Result<Image, PathRefusal>
    ensures only { IfOk result (IsOnlyImage microcode.now) }
    ensures err { IfErr result (λ refusal.
        (path : Bytes ℕ) → IsPath path → IsPathRefusal microcode.now path refusal) }
{
    if microcode.len() > MICROCODE_LIMIT {
        return Err(PathRefusal::TooLong);
    }
    match decode(alloc, microcode) {
        Ok(image) => Ok(image),
        Err(FormFault::Memory) => Err(PathRefusal::Memory),
        Err(fault) => Err(PathRefusal::Microcode(fault)),
    }
}

/// Whether the image that the bytes spell is one of the datapath that a file describes: of its units in kind, latency,
/// initiation interval and sizes, in its period, with no wider words, driven and taken over its buses.
pub fn fits_datapath(alloc: Global, microcode: &[u8], path: &[u8]) -> Result<(), PathRefusal>
    ensures fits { OnOk result (IsOnDatapath microcode.now path.now) }
    ensures refused { IfErr result (IsPathRefusal microcode.now path.now) }
{
    let datapath = datapath_of(alloc, path)?;
    let image = spelled_image(alloc, microcode)?;
    match check_fit(&image, &datapath) {
        Ok(()) => Ok(()),
        Err(unfit) => Err(PathRefusal::Unfit(unfit)),
    }
}
