//! The loop over samples: a piece is read, its rows are run, and what they put is written.
ghost use Rattle.std.specs.Prelude.{◌≡◌, ◌<◌, ◌≤◌, ◌+◌, ◌^◌, [], ◌∷◌, length, None, IfErr, OnOk, ℤ, List};
ghost use Rattle.desk_core.specs.Desk.{FaultsNeverFall};
ghost use Rattle.sample_io.specs.Channels.{IsRow};
ghost use Rattle.sample_io.specs.Pieces.{CanTake, HasTaken};
ghost use Rattle.sample_loops.specs.Private.Running.{RunsRow, EndsAtRow, RunsPiece, EndsInPiece, RunsEnd, StopsAtEnd};
ghost use Rattle.sample_loops.specs.Private.Streaming.{CanRun, IsAtEnd, RunsInput, StopsInInput};
ghost use Rattle.sample_loops.specs.Streams.{ChangesOutputAlone, IsRunThrough, IsStopped, IsKept};

use crate::engine::Engine;
use crate::output::{ROW_WORDS, RowBuffer};
use desk_core::{Desk, Failed};
use micro_image::Conflict;
use sample_io::{RowFault, Rows, Step};
use thiserror::Error;

/// Why the samples were not run to their end.
#[derive(Clone, Copy, Debug, PartialEq, Eq, Error)]
pub enum StreamFault {
    /// A call of the desk failed.
    #[error("file fault")]
    Desk,
    /// A line is no row.
    #[error(transparent)]
    Row(RowFault),
    /// There are too many bytes.
    #[error("samples too long")]
    TooLong,
    /// The machine met a conflict.
    #[error("conflict")]
    Conflict(Conflict),
}

impl From<Failed> for StreamFault {
    ghost use Rattle.std.specs.Prelude.{◌≡◌};
    ghost use Rattle.sample_loops.specs.declared.stream.StreamFault.{StreamFault};

    ghost from_gives = { λ _ fault. fault ≡ StreamFault.Desk };

    fn from(_: Failed) -> StreamFault {
        StreamFault::Desk
    }
}

impl From<RowFault> for StreamFault {
    ghost use Rattle.std.specs.Prelude.{◌≡◌};
    ghost use Rattle.sample_loops.specs.declared.stream.StreamFault.{StreamFault};

    ghost from_gives = { λ row fault. fault ≡ StreamFault.Row row };

    fn from(fault: RowFault) -> StreamFault {
        StreamFault::Row(fault)
    }
}

impl From<Conflict> for StreamFault {
    ghost use Rattle.std.specs.Prelude.{◌≡◌};
    ghost use Rattle.sample_loops.specs.declared.stream.StreamFault.{StreamFault};

    ghost from_gives = { λ conflict fault. fault ≡ StreamFault.Conflict conflict };

    fn from(conflict: Conflict) -> StreamFault {
        StreamFault::Conflict(conflict)
    }
}

/// Runs a row, and adds the row that it puts to the output.
fn run_row<E: Engine, D: Desk>(
    engine: &mut E,
    row: &[i64],
    output: &mut RowBuffer,
    desk: &mut D,
) -> Result<(), StreamFault>
    requires ready { E.ready engine.old }
    requires young { E.age engine.old < 2 ^ 48 }
    requires row { E.accepts engine.old row.now }
    ensures never_fall { FaultsNeverFall (D.view desk.old) (D.view desk.new) }
    ensures same { E.same engine.old engine.new }
    ensures ready { OnOk result (E.ready engine.new) }
    ensures age { OnOk result (E.age engine.new ≤ E.age engine.old + 1) }
    ensures accepts { OnOk result ((other : List ℤ) → E.accepts engine.old other → E.accepts engine.new other) }
    ensures ok { OnOk result (RunsRow (λ put. E.ran engine.old (row.now ∷ []) (put ∷ []) engine.new)
        output.old output.new (D.view desk.old) (D.view desk.new)) }
    ensures err { IfErr result (EndsAtRow (λ conflict. E.meets engine.old (row.now ∷ []) conflict engine.new)
        output.old output.new (D.view desk.old) (D.view desk.new)) }
{
    let mut words = [0i64; ROW_WORDS];
    let put = &mut words[..engine.outs()];
    engine.step(row, put)?;
    Ok(output.add(desk, put)?)
}

/// Runs the rows that end in the piece.
fn run_piece<E: Engine, D: Desk>(
    engine: &mut E,
    rows: &mut Rows,
    piece: &[u8],
    output: &mut RowBuffer,
    desk: &mut D,
) -> Result<(), StreamFault>
    requires ready { E.ready engine.old }
    requires young { E.age engine.old + length piece.now < 2 ^ 48 }
    requires fits { (row : List ℤ) → IsRow rows.old.channels row → E.accepts engine.old row }
    requires running { rows.old.fault ≡ None }
    requires room { CanTake rows.old (length piece.now) }
    ensures never_fall { FaultsNeverFall (D.view desk.old) (D.view desk.new) }
    ensures same { E.same engine.old engine.new }
    ensures channels { rows.new.channels ≡ rows.old.channels }
    ensures kept { IfErr result (IsKept rows.new) }
    ensures ready { OnOk result (E.ready engine.new) }
    ensures age { OnOk result (E.age engine.new ≤ E.age engine.old + length piece.now) }
    ensures fits { OnOk result ((row : List ℤ) → IsRow rows.old.channels row → E.accepts engine.new row) }
    ensures ok { OnOk result (RunsPiece (λ ran puts. E.ran engine.old ran puts engine.new) rows.old piece.now
        output.old (D.view desk.old) rows.new output.new (D.view desk.new)) }
    ensures err { IfErr result (EndsInPiece (λ ran puts. (mid : E) × E.ran engine.old ran puts mid)
        (λ ran conflict. E.meets engine.old ran conflict engine.new)
        rows.old piece.now output.old (D.view desk.old) output.new (D.view desk.new)) }
{
    let mut at = 0;
    'rows: while let Step::Row(count) = rows.feed(&piece[at..])? {
        at += count;
        run_row(engine, rows.row(), output, desk)?;
    }
    Ok(())
}

/// Runs the last row, where it lacks its end of line.
fn run_end<E: Engine, D: Desk>(
    engine: &mut E,
    rows: &mut Rows,
    output: &mut RowBuffer,
    desk: &mut D,
) -> Result<(), StreamFault>
    requires ready { E.ready engine.old }
    requires young { E.age engine.old < 2 ^ 48 }
    requires fits { (row : List ℤ) → IsRow rows.old.channels row → E.accepts engine.old row }
    requires running { rows.old.fault ≡ None }
    requires room { CanTake rows.old 0 }
    ensures never_fall { FaultsNeverFall (D.view desk.old) (D.view desk.new) }
    ensures same { E.same engine.old engine.new }
    ensures channels { rows.new.channels ≡ rows.old.channels }
    ensures kept { IfErr result (IsKept rows.new) }
    ensures ok { OnOk result (RunsEnd (λ ran puts. E.ran engine.old ran puts engine.new) rows.old
        output.old (D.view desk.old) output.new (D.view desk.new)) }
    ensures err { IfErr result (StopsAtEnd (λ ran conflict. E.meets engine.old ran conflict engine.new) rows.old
        output.old (D.view desk.old) output.new (D.view desk.new)) }
{
    if let Step::Row(_) = rows.finish()? {
        run_row(engine, rows.row(), output, desk)?;
    }
    Ok(())
}

/// The most bytes of a piece of the input.
const PIECE: usize = 4096;

/// How many bytes to ask for where so many are left.
fn room_for(left: u64) -> usize
    requires { 0 < left }
    ensures some { 0 < result }
    ensures piece { result ≤ 4096 }
    ensures left { result ≤ left }
{
    if left < PIECE as u64 {
        left as usize
    } else {
        PIECE
    }
}

/// Runs the rows that end in the input's pieces, up to its end. What the rows of a piece put is written before the next
/// is read.
fn run_pieces<E: Engine, D: Desk>(
    engine: &mut E,
    rows: &mut Rows,
    output: &mut RowBuffer,
    desk: &mut D,
    limit: u64,
) -> Result<(), StreamFault>
    requires ready { E.ready engine.old }
    requires young { E.age engine.old < 2 ^ 47 }
    requires fits { (row : List ℤ) → IsRow rows.old.channels row → E.accepts engine.old row }
    requires fresh { HasTaken rows.old [] [] }
    requires start { (D.view desk.old).place ≡ 0 }
    requires limit { limit ≤ 2 ^ 32 }
    requires empty { output.old ≡ [] }
    ensures never_fall { FaultsNeverFall (D.view desk.old) (D.view desk.new) }
    ensures same { E.same engine.old engine.new }
    ensures channels { rows.new.channels ≡ rows.old.channels }
    ensures kept { IfErr result (IsKept rows.new) }
    ensures can_run { OnOk result (CanRun (E.same engine.old engine.new) (E.ready engine.new) (E.accepts engine.new)
        rows.old.channels (E.age engine.new) (E.age engine.old) 0 limit) }
    ensures ok { OnOk result (IsAtEnd rows.old.channels (λ ran puts. E.ran engine.old ran puts engine.new) limit
        rows.new output.new (D.view desk.old) (D.view desk.new)) }
    ensures err { IfErr result (StopsInInput limit rows.old.channels (E.gives engine.old)
        (λ ran conflict. E.meets engine.old ran conflict engine.new) (D.view desk.old) output.new (D.view desk.new)) }
{
    let mut piece = [0u8; PIECE];
    let mut left = limit;
    'pieces: loop {
        output.flush(desk)?;
        if left == 0 {
            return Err(StreamFault::TooLong);
        }
        let room = room_for(left);
        let count = desk.read(&mut piece[..room])?;
        if count == 0 {
            return Ok(());
        }
        run_piece(engine, rows, &piece[..count], output, desk)?;
        left -= count as u64;
    }
}

/// Runs the rows of the input, from its start to its end. What the last of them put may wait.
fn run_input<E: Engine, D: Desk>(
    engine: &mut E,
    rows: &mut Rows,
    output: &mut RowBuffer,
    desk: &mut D,
    limit: u64,
) -> Result<(), StreamFault>
    requires ready { E.ready engine.old }
    requires young { E.age engine.old < 2 ^ 47 }
    requires fits { (row : List ℤ) → IsRow rows.old.channels row → E.accepts engine.old row }
    requires fresh { HasTaken rows.old [] [] }
    requires start { (D.view desk.old).place ≡ 0 }
    requires limit { limit ≤ 2 ^ 32 }
    requires empty { output.old ≡ [] }
    ensures never_fall { FaultsNeverFall (D.view desk.old) (D.view desk.new) }
    ensures same { E.same engine.old engine.new }
    ensures channels { rows.new.channels ≡ rows.old.channels }
    ensures kept { IfErr result (IsKept rows.new) }
    ensures ok { OnOk result (RunsInput limit rows.old.channels (λ ran puts. E.ran engine.old ran puts engine.new)
        output.new (D.view desk.old) (D.view desk.new)) }
    ensures err { IfErr result (StopsInInput limit rows.old.channels (E.gives engine.old)
        (λ ran conflict. E.meets engine.old ran conflict engine.new) (D.view desk.old) output.new (D.view desk.new)) }
{
    run_pieces(engine, rows, output, desk, limit)?;
    run_end(engine, rows, output, desk)
}

/// Runs the rows of the input, from its start to its end, writes what they put, and closes the output. The input is
/// read in pieces, and what a piece's rows put is written before the next is read. At `limit` bytes the samples are
/// too long.
pub fn run_all<E: Engine, D: Desk>(
    engine: &mut E,
    rows: &mut Rows,
    desk: &mut D,
    limit: u64,
) -> Result<(), StreamFault>
    requires ready { E.ready engine.old }
    requires young { E.age engine.old < 2 ^ 47 }
    requires fits { (row : List ℤ) → IsRow rows.old.channels row → E.accepts engine.old row }
    requires fresh { HasTaken rows.old [] [] }
    requires start { (D.view desk.old).place ≡ 0 }
    requires limit { limit ≤ 2 ^ 32 }
    ensures never_fall { FaultsNeverFall (D.view desk.old) (D.view desk.new) }
    ensures only { ChangesOutputAlone (D.view desk.old) (D.view desk.new) }
    ensures same { E.same engine.old engine.new }
    ensures channels { rows.new.channels ≡ rows.old.channels }
    ensures kept { IfErr result (IsKept rows.new) }
    ensures ok { OnOk result (IsRunThrough limit rows.old.channels (λ ran puts. E.ran engine.old ran puts engine.new)
        (D.view desk.old) (D.view desk.new)) }
    ensures err { IfErr result (IsStopped limit rows.old.channels (E.gives engine.old)
        (λ ran conflict. E.meets engine.old ran conflict engine.new) (D.view desk.old) (D.view desk.new)) }
{
    let mut output = RowBuffer::new();
    match run_input(engine, rows, &mut output, desk, limit) {
        Ok(()) => {
            output.flush(desk)?;
            Ok(desk.close()?)
        }
        Err(fault) => match fault {
            StreamFault::Desk => Err(fault),
            _ => {
                output.flush(desk)?;
                let _ = desk.close();
                Err(fault)
            }
        },
    }
}
