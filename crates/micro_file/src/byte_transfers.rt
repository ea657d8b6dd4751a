//! What a microword of a file of version 1 moves: enables drive buses with results, and takes write registers
//! from buses.
ghost use Rattle.std.specs.Prelude.{◌≡◌, ℕ, [], List};
ghost use Rattle.micro_image.specs.declared.image.Image.{Image};
ghost use Rattle.micro_file.specs.Private.Fields.{Reading, many_at};
ghost use Rattle.micro_file.specs.Private.Reads.{Reads};
ghost use Rattle.micro_file.specs.Private.Words.{enable_at, enables_at, take_at, takes_at};

use crate::byte_reader::ByteReader;
use crate::misread::{Unread, refused};
use crate::order::{is_next_enable, is_next_take};
use micro_image::{Enable, Enables, Image, PortRef, Take, Takes};
use short_lists::ShortList;
use std::alloc::Global;

/// The most enables, and the most takes, of a microword.
const MAX_TRANSFERS: u16 = 1024;

/// An enable or a take.
trait Transfer: Default + Drop {
    /// How it is read after those in front.
    ghost one: { Image → List Self → List ℕ → Reading Self };

    fn read(image: &Image, front: &[Self], reader: &mut ByteReader<'_>) -> Result<Self, Unread>
        ensures { Reads (one image.now front.now) reader.old result reader.new };
}

impl Transfer for Enable {
    ghost one = { enable_at };

    #[tactic(auto, unfolding(crate::specs::Private::Words::enable_at))]
    fn read(
        image: &Image,
        front: &[Enable],
        reader: &mut ByteReader<'_>,
    ) -> Result<Enable, Unread> {
        let left = reader.left();
        let unit = reader.byte_under(image.units.len())?;
        let bus = reader.byte_under(usize::from(image.buses))?;
        let enable = Enable { unit, bus };
        if is_next_enable(front, &enable) {
            Ok(enable)
        } else {
            Err(refused(left))
        }
    }
}

impl Transfer for Take {
    ghost one = { take_at };

    #[tactic(auto, unfolding(crate::specs::Private::Words::take_at))]
    fn read(image: &Image, front: &[Take], reader: &mut ByteReader<'_>) -> Result<Take, Unread> {
        let left = reader.left();
        let number = reader.byte()?;
        let Some(unit) = image.units.get(usize::from(number)) else {
            return Err(refused(left));
        };
        let left_at_port = reader.left();
        let port = reader.byte()?;
        let Some(file) = unit.files.get(usize::from(port)) else {
            return Err(refused(left_at_port));
        };
        let bus = reader.byte_under(usize::from(image.buses))?;
        let reg = reader.byte_under(file.len())?;
        let port = PortRef { unit: number, port };
        let take = Take { port, bus, reg };
        if is_next_take(front, &take) {
            Ok(take)
        } else {
            Err(refused(left))
        }
    }
}

fn read_several<T: Transfer, const N: usize>(
    alloc: Global,
    image: &Image,
    count: usize,
    reader: &mut ByteReader<'_>,
) -> Result<ShortList<T, N>, Unread>
    ensures { Reads (many_at (T.one image.now) [] count) reader.old result reader.new }
{
    let mut transfers = ShortList::with_capacity(alloc, count)?;
    for _ in 0..count {
        let transfer = T::read(image, transfers.as_slice(), reader)?;
        transfers.push(transfer)?;
    }
    Ok(transfers)
}

#[tactic(auto, unfolding(crate::specs::Private::Words::enables_at))]
pub(crate) fn read_enables(
    alloc: Global,
    image: &Image,
    reader: &mut ByteReader<'_>,
) -> Result<Enables, Unread>
    ensures { Reads (enables_at image.now) reader.old result reader.new }
{
    let count = reader.short_in(0, MAX_TRANSFERS)?;
    read_several(alloc, image, usize::from(count), reader)
}

#[tactic(auto, unfolding(crate::specs::Private::Words::takes_at))]
pub(crate) fn read_takes(
    alloc: Global,
    image: &Image,
    reader: &mut ByteReader<'_>,
) -> Result<Takes, Unread>
    ensures { Reads (takes_at image.now) reader.old result reader.new }
{
    let count = reader.short_in(0, MAX_TRANSFERS)?;
    read_several(alloc, image, usize::from(count), reader)
}
