//! The listing of an image.

ghost use Rattle.std.specs.Prelude.{◌≡◌, ◌++◌, length, IfOk, OnOk};
ghost use Rattle.std.specs.List.{flat_map, range_with_len};
ghost use Rattle.micro_image.specs.Valid.{IsValid};
ghost use Rattle.microcode_asm.specs.Listing.{head_line, numbered_lines, listing_text};

use crate::fault::AsmFault;
use crate::text::put_number;
use crate::word_lines::put_word;
use lists::{Bytes, List};
use micro_image::Image;
use std::alloc::{AllocError, Global};

/// Adds the head line.
#[tactic(auto, unfolding(crate::specs::Listing::head_line))]
fn put_head(out: &mut Bytes, image: &Image) -> Result<(), AllocError>
    ensures { OnOk result (out.new ≡ out.old ++ head_line image.now) }
{
    put_number(out, b"period ", u64::from(image.period))?;
    put_number(out, b" unroll ", u64::from(image.unroll))?;
    put_number(out, b" inputs ", image.inputs.len() as u64)?;
    put_number(out, b" outputs ", u64::from(image.outs))?;
    put_number(out, b" units ", image.units.len() as u64)?;
    put_number(out, b" buses ", u64::from(image.buses))?;
    Ok(out.push(b'\n')?)
}

/// Adds the lines of the microwords.
fn put_words(out: &mut Bytes, image: &Image) -> Result<(), AllocError>
    ensures { OnOk result (out.new ≡ out.old ++ flat_map (numbered_lines image.now)
        (range_with_len 0 (length image.now.words))) }
{
    for number in 0..image.words.len() {
        put_word(out, number, &image.words[number])?;
    }
    Ok(())
}

/// The listing of an image: its period, its unroll factor, what it has of words, units and buses, and the issues, bus
/// drives and register-file writes of each microword that is not empty. Page `docs/MICROCODE.md`, "The listing".
///
/// # Errors
///
/// `Memory` where no memory is left.
#[tactic(auto, unfolding(crate::specs::Listing::listing_text))]
pub fn listing(alloc: Global, image: &Image) -> Result<Bytes, AsmFault>
    requires { IsValid image.now }
    ensures { IfOk result (λ bytes. bytes ≡ listing_text image.now) }
{
    let mut out = List::new(alloc);
    put_head(&mut out, image)?;
    put_words(&mut out, image)?;
    Ok(out)
}
