//! How many bits a word that does nothing has, and where the register files of each unit start among their ends.

ghost use Rattle.std.specs.Prelude.{◌≡◌, ◌≤◌, ◌^◌, length, IfOk};
ghost use Rattle.std.specs.List.{All};
ghost use Rattle.micro_bits.specs.Idle.{sizes, files_of, idle_bits};
ghost use Rattle.micro_bits.specs.Private.Placed.{starts_in};

use lists::List;
use micro_image::Image;
use std::alloc::{AllocError, Global};

/// How many register files the units have.
pub(crate) fn files_of(image: &Image) -> usize
    requires units { length image.now.units ≤ 2 ^ 8 }
    requires ports { All (λ unit. length unit.files ≤ 2 ^ 8) image.now.units }
    ensures files { result ≡ sizes (files_of image.now) 0 (length image.now.units) }
    ensures few { result ≤ 2 ^ 16 }
{
    let mut files = 0;
    for unit in image.units.iter() {
        files += unit.files.len();
    }
    files
}

/// How many bits a word that does nothing has in version 2: a flag for each unit, for each unit and bus, and for each
/// register file (`docs/MICROCODE.md`).
pub fn idle_bits_of(image: &Image) -> usize
    requires units { length image.now.units ≤ 2 ^ 8 }
    requires ports { All (λ unit. length unit.files ≤ 2 ^ 8) image.now.units }
    ensures { result ≡ idle_bits image.now }
{
    let units = image.units.len();
    units + units * usize::from(image.buses) + files_of(image)
}

/// Where the files of each unit start.
pub(crate) fn starts_of(alloc: Global, image: &Image) -> Result<List<u16>, AllocError>
    requires units { length image.now.units ≤ 2 ^ 8 }
    requires ports { All (λ unit. length unit.files ≤ 2 ^ 8) image.now.units }
    ensures { IfOk result (λ starts. starts ≡ starts_in image.now) }
{
    let mut starts = List::with_capacity(alloc, image.units.len())?;
    let mut files: usize = 0;
    for unit in image.units.iter() {
        starts.push(files as u16)?;
        files += unit.files.len();
    }
    Ok(starts)
}
