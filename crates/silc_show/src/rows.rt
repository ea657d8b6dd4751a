//! The rows of a sample file, each printed again, or the line and byte of its first bad place.

ghost use Rattle.std.specs.Prelude.{◌≡◌, IfOk, IfSome, OnOk, ◌≤◌, ◌<◌, ◌^◌, [], ◌∷◌, ◌++◌, length, map};
ghost use Rattle.std.specs.List.{All};
ghost use Rattle.sample_io.specs.Channels.{AreChannels, IsChannel, IsStream, channel_of};
ghost use Rattle.sample_io.specs.Pieces.{HasTaken};
ghost use Rattle.sample_io.specs.Samples.{RowsOf};
ghost use Rattle.signal_graph.specs.Keeps.{IsStreamOf};
ghost use Rattle.signal_graph.specs.Rules.{IsType};
ghost use Rattle.silc_show.specs.Trace.{AreInputRows};
ghost use Rattle.sample_loops.specs.Evaluators.{channel_width, type_channel};

use crate::page::{Page, Refused};
use fix_word::SigType;
use lists::List;
use sample_io::{Channel, RowFault, Rows, Step, put_row};
use std::alloc::{AllocError, Global};

/// The most words of a row.
pub const MAX_CHANNELS: usize = 16;

/// The most bits of a word.
const MAX_WIDTH: u8 = 40;

/// The most bytes of a printed row.
const LINE: usize = 21 * MAX_CHANNELS + 1;

/// The channels of words of these widths, which have commas between them.
pub fn channels(alloc: Global, widths: &str) -> Result<Option<List<Channel>>, AllocError>
    ensures { IfOk result (λ found. IfSome found AreChannels) }
{
    let mut channels = List::new(alloc);
    for word in widths.split(',') {
        match word.parse::<u8>() {
            Ok(width) if width <= MAX_WIDTH => channels.push(Channel::of(width))?,
            _ => return Ok(None),
        }
    }
    if channels.is_empty() || channels.len() > MAX_CHANNELS {
        return Ok(None);
    }
    Ok(Some(channels))
}

pub fn put_words(page: &mut Page, words: &[i64]) {
    if words.is_empty() || words.len() > MAX_CHANNELS {
        page.fail("a row has no words or too many");
        return;
    }
    let mut line = [0u8; LINE];
    let size = put_row(words, &mut line);
    page.bytes(&line[..size]);
}

fn put_rows(page: &mut Page, rows: &[List<i64>]) {
    for row in rows {
        put_words(page, row);
    }
}

/// The least number of bytes that are too many for samples.
const SAMPLES_END: usize = 1 << 32;

/// Why a sample file was not read.
#[derive(Clone, Copy)]
enum SamplesFault {
    /// A line is no row.
    Row(RowFault),
    /// There was no memory for the rows.
    Memory,
}

impl From<RowFault> for SamplesFault {
    fn from(fault: RowFault) -> SamplesFault {
        SamplesFault::Row(fault)
    }
}

impl From<AllocError> for SamplesFault {
    fn from(_: AllocError) -> SamplesFault {
        SamplesFault::Memory
    }
}

/// Adds a row to the list.
fn push_row(alloc: Global, list: &mut List<List<i64>>, row: &[i64]) -> Result<(), AllocError>
    ensures { OnOk result (list.new ≡ list.old ++ row.now ∷ []) }
{
    list.push(List::from_slice(alloc, row)?)?;
    Ok(())
}

/// The rows of the whole of a sample file.
fn rows_of(alloc: Global, rows: &mut Rows, samples: &[u8]) -> Result<List<List<i64>>, SamplesFault>
    requires fresh { HasTaken rows.old [] [] }
    requires few { length samples.now < 2 ^ 60 }
    ensures { IfOk result (RowsOf samples.now rows.old.channels) }
{
    let mut list = List::new(alloc);
    let mut at = 0;
    'rows: while let Step::Row(count) = rows.feed(&samples[at..])? {
        at += count;
        push_row(alloc, &mut list, rows.row())?;
    }
    if let Step::Row(_) = rows.finish()? {
        push_row(alloc, &mut list, rows.row())?;
    }
    Ok(list)
}

/// The rows of a sample file, or else the page has its first bad place.
#[tactic(auto, using(crate::proofs::TypedRows::rows_read))]
pub fn read(
    page: &mut Page,
    channels: &List<Channel>,
    samples: &[u8],
) -> Result<List<List<i64>>, Refused>
    requires { AreChannels channels.now }
    ensures { IfOk result (IsStream channels.now) }
{
    if samples.len() >= SAMPLES_END {
        return Err(page.refuse_length());
    }
    let Ok(mut rows) = Rows::new(page.alloc, channels) else {
        return Err(page.cut());
    };
    match rows_of(page.alloc, &mut rows, samples) {
        Ok(list) => Ok(list),
        Err(SamplesFault::Row(fault)) => Err(refuse_row(page, fault)),
        Err(SamplesFault::Memory) => Err(page.cut()),
    }
}

/// Puts the first bad place of a sample file in place of the lines.
fn refuse_row(page: &mut Page, fault: RowFault) -> Refused {
    page.clear();
    page.number("fault line ", fault.line);
    page.number(" byte ", fault.at);
    page.end();
    Refused
}

pub fn put(page: &mut Page, channels: &List<Channel>, samples: &[u8]) -> Result<(), Refused>
    requires { AreChannels channels.now }
{
    let rows = read(page, channels, samples)?;
    put_rows(page, &rows);
    Ok(())
}

/// The bits of the type's words in a sample file; 0 for `bool`.
fn word_width(ty: SigType) -> u8
    ensures { result ≡ channel_width ty }
{
    match ty {
        SigType::Fix(ty) => ty.shape.w,
        SigType::Bool => 0,
    }
}

/// The channel of each word of these types.
fn type_channels(alloc: Global, types: &[SigType]) -> Result<List<Channel>, AllocError>
    requires { All IsType types.now }
    ensures channels { IfOk result (λ channels. channels ≡ map type_channel types.now) }
    ensures each { IfOk result (λ channels. All IsChannel channels) }
{
    let mut channels = List::new(alloc);
    for ty in types {
        channels.push(Channel::of(word_width(*ty)))?;
    }
    Ok(channels)
}

/// The rows of a sample file whose words have these types, or else the page has its first bad place.
#[tactic(auto, using(crate::proofs::TypedRows::typed_stream, crate::proofs::TypedRows::are_channels))]
pub fn read_typed(
    page: &mut Page,
    types: &List<SigType>,
    samples: &[u8],
) -> Result<List<List<i64>>, Refused>
    requires types { All IsType types.now }
    requires some { 1 ≤ length types.now }
    requires few { length types.now ≤ 16 }
    ensures { IfOk result (IsStreamOf types.now) }
{
    match type_channels(page.alloc, types) {
        Ok(channels) => read(page, &channels, samples),
        Err(_) => Err(page.cut()),
    }
}

/// The channel of each word of these widths.
fn width_channels(alloc: Global, widths: &[u8]) -> Result<List<Channel>, AllocError>
    requires { All (λ width. width ≤ 40) widths.now }
    ensures channels { IfOk result (λ channels. channels ≡ map channel_of widths.now) }
    ensures each { IfOk result (λ channels. All IsChannel channels) }
{
    let mut channels = List::new(alloc);
    for width in widths {
        channels.push(Channel::of(*width))?;
    }
    Ok(channels)
}

/// The rows of a sample file whose words have these widths, or else the page has its first bad place.
#[tactic(auto, using(crate::proofs::InputRows::input_rows, crate::proofs::InputRows::are_channels))]
pub fn read_widths(
    page: &mut Page,
    widths: &List<u8>,
    samples: &[u8],
) -> Result<List<List<i64>>, Refused>
    requires widths { All (λ width. width ≤ 40) widths.now }
    requires some { 1 ≤ length widths.now }
    requires few { length widths.now ≤ 16 }
    ensures { IfOk result (AreInputRows widths.now) }
{
    match width_channels(page.alloc, widths) {
        Ok(channels) => read(page, &channels, samples),
        Err(_) => Err(page.cut()),
    }
}
