//! What a turn lacks, and the row that it takes.

ghost use Rattle.std.specs.Prelude.{◌≡◌, ◌==◌, ◌+◌, ◌*◌, ◌<◌, ◌≤◌, length, map, nat_le, slice_get, Some};
ghost use Rattle.std.specs.List.{All, list_any};
ghost use Rattle.net_turns.specs.Turns.{point_of, queued, is_dry, is_full, reads, lacks_row, lacks_place, lacks};
ghost use Rattle.proc_net.specs.Private.Reading.{points_by, shape_by, word_by, IsReadable};

use crate::processor::Processor;
use lists::List;
use net_core::Wire;
use net_solution::RowList;

/// How many rows the queue between two processors has.
fn queued(processors: &[Processor], from: usize, to: usize) -> usize
    ensures { result ≡ queued (points_by processors.now) from to }
{
    let ran = match processors.get(from) {
        Some(processor) => processor.ran,
        None => 0,
    };
    let taken = match processors.get(to) {
        Some(processor) => processor.taken,
        None => 0,
    };
    ran.saturating_sub(taken)
}

/// Whether the wire is from a queue without a row.
fn is_dry(processors: &[Processor], own: usize, wire: Wire) -> bool
    ensures { result ≡ is_dry (points_by processors.now) own wire }
{
    match wire {
        Wire::Input(_) => false,
        Wire::From { proc, .. } => queued(processors, usize::from(proc), own) == 0,
    }
}

fn any_dry(processors: &[Processor], own: usize, feed: &[Wire]) -> bool
    ensures { result ≡ list_any (is_dry (points_by processors.now) own) feed.now }
{
    feed.iter().any(|wire| is_dry(processors, own, *wire))
}

/// Whether a queue that a processor reads has no row.
fn lacks_row(processors: &[Processor], capacity: usize, samples: usize, own: usize) -> bool
    requires { own < length processors.now }
    ensures { result ≡ lacks_row (shape_by processors.now capacity samples) (points_by processors.now) own }
{
    any_dry(processors, own, processors[own].feed.as_slice())
}

/// Whether a queue that a processor fills has no free place.
fn lacks_place(processors: &[Processor], capacity: usize, samples: usize, own: usize) -> bool
    ensures { result ≡ lacks_place (shape_by processors.now capacity samples) (points_by processors.now) own }
{
    for (number, reader) in processors.iter().enumerate() {
        if queued(processors, own, number) >= capacity && reader.reads(own) {
            return true;
        }
    }
    false
}

/// Whether a processor is at the first cycle of a sample and lacks the net's next row, a row in a queue that it reads,
/// or a free place in one that it fills.
#[tactic(auto, unfolding(net_turns::specs::Turns::lacks))]
pub(crate) fn lacks(processors: &[Processor], capacity: usize, samples: usize, own: usize) -> bool
    requires { own < length processors.now }
    ensures { result ≡ lacks (shape_by processors.now capacity samples) (points_by processors.now) own }
{
    processors[own].cycle == 0
        && (samples <= processors[own].taken
            || lacks_row(processors, capacity, samples, own)
            || lacks_place(processors, capacity, samples, own))
}

/// The word that a wire brings in a sample.
fn word_on(processors: &[Processor], stream: &RowList, sample: usize, wire: Wire) -> i64
    requires { IsReadable processors.now stream.now sample wire }
    ensures { result ≡ word_by processors.now stream.now sample wire }
{
    match wire {
        Wire::Input(word) => stream.word(sample, word),
        Wire::From { proc, word } => match processors.get(usize::from(proc)) {
            Some(from) => from.put.word(sample % from.places, word),
            None => 0,
        },
    }
}

/// Fills a row with the words that the wires bring in a sample.
fn fill_row(
    processors: &[Processor],
    stream: &RowList,
    feed: &[Wire],
    sample: usize,
    row: &mut [i64],
)
    requires room { length row.old ≡ length feed.now }
    requires words { All (IsReadable processors.now stream.now sample) feed.now }
    ensures { row.new ≡ map (word_by processors.now stream.now sample) feed.now }
{
    for (place, wire) in feed.iter().enumerate() {
        row[place] = word_on(processors, stream, sample, *wire);
    }
}

/// Takes the row of the next sample for a processor.
pub(crate) fn take_row(processors: &[Processor], stream: &RowList, own: usize, row: &mut List<i64>)
    requires own { own < length processors.now }
    requires room { (x : _) → slice_get processors.now own ≡ Some x → length row.old ≡ length x.feed }
    requires words { (x : _) → slice_get processors.now own ≡ Some x
        → All (IsReadable processors.now stream.now x.ran) x.feed }
    ensures { (x : _) → slice_get processors.now own ≡ Some x
        → row.new ≡ map (word_by processors.now stream.now x.ran) x.feed }
{
    let processor = &processors[own];
    fill_row(
        processors,
        stream,
        processor.feed.as_slice(),
        processor.ran,
        row,
    );
}
