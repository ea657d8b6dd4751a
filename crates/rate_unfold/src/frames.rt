//! The places of words in a frame row.

ghost use Rattle.std.specs.Prelude.{◌≡◌, ℕ, ◌+◌, ◌*◌, ◌<◌, ◌≤◌, length, ◌++◌, map, slice_index_or, All, IfOk, OnOk};
ghost use Rattle.std.specs.List.{range_with_len};
ghost use Rattle.fix_word.specs.declared.types.SigType.TheVariants as sig;
ghost use Rattle.rate_unfold.specs.Frames.{places_of, place, frame, frame_types};
ghost use Rattle.rate_unfold.specs.Unfolded.{in_phase};

use fix_word::SigType;
use lists::List;
use std::alloc::{AllocError, AllocFailed, Global};

/// How many places a word has in a frame row.
fn places_of(phases: u8, slow: &[u8], word: u8) -> u8
    ensures { result ≡ places_of phases slow.now word }
{
    if slow.contains(&word) { 1 } else { phases }
}

/// The first place of a word in a frame row.
pub fn place(phases: u8, slow: &[u8], word: u8) -> u8
    requires phases { (1 ≤ phases) × (phases ≤ 8) }
    requires word { word ≤ 16 }
    ensures { result ≡ place phases slow.now word }
{
    let mut places = 0;
    for before in 0..word {
        places += places_of(phases, slow, before);
    }
    places
}

fn type_at(types: &[SigType], word: usize) -> SigType
    requires { word < length types.now }
    ensures { result ≡ slice_index_or types.now word sig.Bool }
{
    types[word]
}

/// Adds a word's type, once for each of its places.
fn put_types(row: &mut List<SigType>, ty: SigType, places: u8) -> Result<(), AllocFailed<SigType>>
    ensures { OnOk result (row.new ≡ row.old ++ map (λ (j : ℕ). ty) (range_with_len 0 places)) }
{
    for _phase in 0..places {
        row.push(ty)?;
    }
    Ok(())
}

/// The types of the words of a frame row.
pub fn frame_types(
    alloc: Global,
    phases: u8,
    slow: &[u8],
    types: &[SigType],
) -> Result<List<SigType>, AllocError>
    requires { length types.now ≤ 16 }
    ensures { IfOk result (λ row. row ≡ frame_types phases slow.now types.now) }
{
    let mut row = List::new(alloc);
    for word in 0..types.len() {
        let places = places_of(phases, slow, word as u8);
        put_types(&mut row, type_at(types, word), places)?;
    }
    Ok(row)
}

/// Adds the numbers of a word's elements, one for each of its places.
fn put_outs(
    row: &mut List<u32>,
    elements: u32,
    out: u32,
    places: u8,
) -> Result<(), AllocFailed<u32>>
    requires elements { elements ≤ 8192 }
    requires out { out < 8192 }
    ensures { OnOk result (row.new ≡ row.old ++ map (λ j. in_phase elements j out) (range_with_len 0 places)) }
{
    for phase in 0..places {
        row.push(u32::from(phase) * elements + out)?;
    }
    Ok(())
}

/// The numbers of the elements of the words of a frame row.
pub fn frame_outs(
    alloc: Global,
    phases: u8,
    slow: &[u8],
    elements: u32,
    outs: &[u32],
) -> Result<List<u32>, AllocError>
    requires elements { elements ≤ 8192 }
    requires count { length outs.now ≤ 16 }
    requires outs { All (λ (e : ℕ). e < 8192) outs.now }
    ensures { IfOk result (λ row. row
        ≡ frame phases slow.now (length outs.now) (λ i j. in_phase elements j (slice_index_or outs.now i 0))) }
{
    let mut row = List::new(alloc);
    for word in 0..outs.len() {
        let places = places_of(phases, slow, word as u8);
        put_outs(&mut row, elements, outs[word], places)?;
    }
    Ok(row)
}
