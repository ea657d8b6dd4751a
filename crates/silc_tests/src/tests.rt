ghost use Rattle.std.specs.Prelude.{◌≡◌, ◌<◌, ◌≤◌, ◌^◌, length, IfOk, OnOk};

use desk_core::{Desk, Failed, MemDesk, NeverFails};
use lists::Bytes;
use sample_commands::{machine_of, machine_rows};
use silc::{
    Conflict, ConflictKind, FrontFault, Kept, LexFault, SampleFault, Status, UnitRefusal, plan_of,
    run_samples, silc,
};
use std::alloc::Global;
use std::test::Fail;

const SOURCE: &[u8] = b"func main(x : fix<8,0>) y : fix<8,0> = begin y = x + 1; end;";

/// The file of the datapath PLAIN.
const PLAIN: &[u8] = b"period = 16
word = 16
hold = 0
[[unit]]
name = \"inp\"
kind = \"in\"
[[unit]]
name = \"rom\"
kind = \"rom\"
[[unit]]
name = \"add\"
kind = \"alu\"
files = [8, 8]
[[unit]]
name = \"outp\"
kind = \"out\"
files = [2]
[[bus]]
name = \"b0\"
from = [\"inp\", \"rom\", \"add\"]
to = [\"add.0\", \"add.1\", \"outp.0\"]
";

/// A filter of 16 taps.
const TAPS: &[u8] = b"const h[16] : fix<16,15> = (0.00390625, -0.0078125, 0.015625, -0.03125,
  0.0625, -0.125, 0.25, 0.5, 0.5, 0.25, -0.125, 0.0625,
  -0.03125, 0.015625, -0.0078125, 0.00390625);
func main(x : fix<16,14>) y : fix<16,15> = begin
  var s[17] : fix<16,15>;
  s[0] = 0.0;
  (i : 0 .. 15) :: begin s[i + 1] = s[i] + h[i] * x@i; end;
  y = s[16];
end;
";

/// A datapath for it, with units of each kind.
const TAPS_PATH: &[u8] = b"period = 256
word = 16
hold = 0
[[unit]]
name = \"inp\"
kind = \"in\"
[[unit]]
name = \"rom\"
kind = \"rom\"
[[unit]]
name = \"add\"
kind = \"alu\"
files = [256, 256]
[[unit]]
name = \"mul\"
kind = \"mul\"
latency = 2
files = [256, 256]
[[unit]]
name = \"pick\"
kind = \"sel\"
files = [64, 64, 64]
[[unit]]
name = \"mem\"
kind = \"ram\"
files = [256, 256]
cells = 256
[[unit]]
name = \"adr\"
kind = \"acu\"
ram = \"mem\"
[[unit]]
name = \"outp\"
kind = \"out\"
files = [16]
[[bus]]
name = \"b0\"
from = [\"inp\"]
to = [\"add.0\", \"add.1\", \"mul.0\", \"mul.1\", \"pick.0\", \"pick.1\", \"pick.2\", \"mem.1\", \"outp.0\"]
[[bus]]
name = \"b1\"
from = [\"rom\"]
to = [\"add.0\", \"add.1\", \"mul.0\", \"mul.1\", \"pick.0\", \"pick.1\", \"pick.2\", \"mem.1\", \"outp.0\"]
[[bus]]
name = \"b2\"
from = [\"add\"]
to = [\"add.0\", \"add.1\", \"mul.0\", \"mul.1\", \"pick.0\", \"pick.1\", \"pick.2\", \"mem.1\", \"outp.0\"]
[[bus]]
name = \"b3\"
from = [\"mul\"]
to = [\"add.0\", \"add.1\", \"mul.0\", \"mul.1\", \"pick.0\", \"pick.1\", \"pick.2\", \"mem.1\", \"outp.0\"]
[[bus]]
name = \"b4\"
from = [\"pick\"]
to = [\"add.0\", \"add.1\", \"mul.0\", \"mul.1\", \"pick.0\", \"pick.1\", \"pick.2\", \"mem.1\", \"outp.0\"]
[[bus]]
name = \"b5\"
from = [\"mem\"]
to = [\"add.0\", \"add.1\", \"mul.0\", \"mul.1\", \"pick.0\", \"pick.1\", \"pick.2\", \"mem.1\", \"outp.0\"]
[[bus]]
name = \"b6\"
from = [\"adr\"]
to = [\"mem.0\"]
";

/// How many bytes its microcode has.
const SIZE: usize = 57;

const COMPILE: [&str; 4] = ["compile", "SRC", "DP", "OUT"];

const SCHEDULE: [&str; 3] = ["schedule", "SRC", "DP"];

/// What `schedule` prints of the source.
const PLAN: &[u8] = b"period 16 unroll 1 nodes 4
node 0 cycle 0 unit inp op input 0 to add.0 bus b0 regs 0
node 1 cycle 1 unit rom op const 1 to add.1 bus b0 regs 0
node 2 cycle 2 unit add op add 0 1 fmt 0 trunc 8 to outp.0 bus b0 regs 0
node 3 cycle 3 unit outp op output 0 2
";

fn list(alloc: Global, words: &[&str]) -> Result<Vec<String>, Fail> {
    let mut list = Vec::new(alloc);
    for word in words {
        list.push(String::from_str(alloc, word)?)?;
    }
    Ok(list)
}

/// A desk with a source, and the datapath PLAIN.
fn desk_with(alloc: Global, piece: usize, source: &[u8]) -> Result<MemDesk, Fail> {
    let mut desk = MemDesk::new(alloc, piece.max(1));
    desk.put("SRC", source)?;
    desk.put("DP", PLAIN)?;
    Ok(desk)
}

fn carry_out<D: Desk>(alloc: Global, words: &[&str], desk: &mut D) -> Result<Status, Fail> {
    let words = list(alloc, words)?;
    Ok(silc(alloc, &words, desk, &mut Kept::Nothing))
}

/// How many calls read the inputs with pieces of 20 bytes: SRC is opened and read four times, DP is opened and read
/// 16 times.
const READING: usize = 22;

/// How much of OUT is there where each of the calls behind them fails: OUT is created, written three times and closed.
const WRITTEN: [Option<usize>; 5] = [None, Some(0), Some(20), Some(40), Some(SIZE)];

#[test]
fn a_call_that_fails_is_a_file_fault_and_leaves_a_prefix(rt: HostRuntime) -> Result<(), Fail> {
    let alloc = rt.alloc();
    let mut whole = desk_with(alloc, 20, SOURCE)?;
    assert_eq!(rt; carry_out(alloc, &COMPILE, &mut whole)?, Status::Done);
    let microcode = whole.get("OUT").ok_or("no file")?;
    for call in 0..READING + WRITTEN.len() {
        let mut desk = desk_with(alloc, 20, SOURCE)?;
        desk.fail_at(call as u64)?;
        let status = carry_out(alloc, &COMPILE, &mut desk)?;
        assert_eq!(rt; status, Status::Desk, "call {call}");
        assert_eq!(rt; desk.faults(), 1, "call {call}");
        let written = match call.checked_sub(READING) {
            Some(behind) => *WRITTEN.get(behind).ok_or("no row")?,
            None => None,
        };
        let found = desk.get("OUT");
        assert_eq!(rt; found.map(|bytes| bytes.len()), written, "call {call}");
        assert!(rt;
            found.is_none_or(|bytes| microcode.starts_with(bytes)),
            "call {call}"
        );
    }
    Ok(())
}

/// How many bytes are printed where the call of each number fails, with pieces of 100 bytes. SRC is opened and read
/// twice, DP is opened and read four times, and then the plan is printed in three pieces.
const PRINTED: [usize; 11] = [0, 0, 0, 0, 0, 0, 0, 0, 0, 100, 200];

#[test]
fn a_call_that_fails_leaves_a_prefix_of_the_plan(rt: HostRuntime) -> Result<(), Fail> {
    let alloc = rt.alloc();
    let mut whole = desk_with(alloc, 100, SOURCE)?;
    assert_eq!(rt; carry_out(alloc, &SCHEDULE, &mut whole)?, Status::Done);
    assert_eq!(rt; whole.printed(), PLAN);
    for (call, printed) in PRINTED.iter().enumerate() {
        let mut desk = desk_with(alloc, 100, SOURCE)?;
        desk.fail_at(call as u64)?;
        let status = carry_out(alloc, &SCHEDULE, &mut desk)?;
        assert_eq!(rt; status, Status::Desk, "call {call}");
        assert_eq!(rt; desk.faults(), 1, "call {call}");
        assert_eq!(rt; desk.printed().len(), *printed, "call {call}");
        assert!(rt; PLAN.starts_with(desk.printed()), "call {call}");
    }
    Ok(())
}

/// The commands, each with how many calls of a desk it takes with pieces of 100 bytes: an input is opened and read to
/// its end (SRC in 3 calls, DP in 5, MIC in 3, SAMPLES in 3, TAPS in 6, PATH in 15), OUT is created, written in pieces
/// and closed, a text is printed in pieces.
const CALLS: [(&[&str], u64); 8] = [
    (&COMPILE, 11),
    (&SCHEDULE, 11),
    (&["list", "MIC"], 6),
    (&["sim", "MIC", "SAMPLES", "OUT"], 9),
    (&["eval", "SRC", "SAMPLES", "OUT"], 9),
    (&["run", "SRC", "DP", "SAMPLES", "OUT"], 14),
    (&["run", "TAPS", "PATH", "SAMPLES", "OUT"], 27),
    (&["demo", "1", "3"], 1),
];

/// What a command leaves on a desk where the call of this number fails, and none where there is no such call.
fn failing_at(
    alloc: Global,
    words: &[&str],
    microcode: &[u8],
    call: u64,
) -> Result<(MemDesk, Status), Fail> {
    let mut desk = desk_with(alloc, 100, SOURCE)?;
    desk.put("SAMPLES", b"0\n127\n-128\n")?;
    desk.put("MIC", microcode)?;
    desk.put("TAPS", TAPS)?;
    desk.put("PATH", TAPS_PATH)?;
    desk.fail_at(call)?;
    let status = carry_out(alloc, words, &mut desk)?;
    Ok((desk, status))
}

#[test]
fn each_call_of_each_command_that_fails_is_a_file_fault(rt: HostRuntime) -> Result<(), Fail> {
    let alloc = rt.alloc();
    let mut compiled = desk_with(alloc, 100, SOURCE)?;
    carry_out(alloc, &COMPILE, &mut compiled)?;
    let microcode = compiled.get("OUT").ok_or("no file")?;
    for (words, calls) in CALLS {
        let (whole, status) = failing_at(alloc, words, microcode, calls)?;
        assert_eq!(rt; (status, whole.faults()), (Status::Done, 0));
        let written = whole.get("OUT").unwrap_or_default();
        for call in 0..calls {
            let (desk, status) = failing_at(alloc, words, microcode, call)?;
            assert_eq!(rt; (status, desk.faults()), (Status::Desk, 1), "call {call}");
            let left = desk.get("OUT").unwrap_or_default();
            assert!(rt; written.starts_with(left), "call {call}");
            assert!(rt; whole.printed().starts_with(desk.printed()), "call {call}");
        }
    }
    Ok(())
}

/// A source with its samples, what OUT is to hold, and what is to be reported.
type Worked = (
    &'static [u8],
    &'static [u8],
    Option<&'static [u8]>,
    &'static [u8],
);

/// Initial values of signals that pass one on to another, two instances with their own delays, a choice, casts that cut
/// and round; a delay-free loop, a loop without turns.
const WORKED: [Worked; 6] = [
    (
        b"func main(x : fix<8,0>) y : fix<8,0> = begin var p, q : fix<8,0>; q = x; p = q; y = p@1; q@@1 = 7; p@@1 = 2; end;",
        b"5\n6\n",
        Some(b"2\n5\n"),
        b"",
    ),
    (
        b"func acc(x : fix<8,0>) y : fix<8,0> = begin y = y@1 + x; end; func main(a : fix<8,0>, b : fix<8,0>) (p : fix<8,0>, q : fix<8,0>) = begin p = acc(a); q = acc(b); end;",
        b"1,10\n2,20\n",
        Some(b"1,10\n3,30\n"),
        b"",
    ),
    (
        b"func main(x : fix<8,0>) y : fix<8,0> = begin y = if x > 3 -> 3 || x < -3 -> -3 || x fi; end;",
        b"5\n-9\n2\n",
        Some(b"3\n-3\n2\n"),
        b"",
    ),
    (
        b"func main(x : fix<16,8>) (y : fix<8,0>, z : fix<8,0,round>) = begin y = fix<8,0>(x); z = fix<8,0,round>(x); end;",
        b"384\n-384\n",
        Some(b"1,2\n-2,-1\n"),
        b"",
    ),
    (
        b"func main(x : fix<8,0>) y : fix<8,0> = begin y = y + x; end;",
        b"0\n",
        None,
        b"silc: line 1: loop y\n",
    ),
    (
        b"func main(x : fix<8,0>) y : fix<8,0> = begin (i : 3 .. 0) :: begin y = x; end; end;",
        b"0\n",
        None,
        b"silc: line 1: not defined y\n",
    ),
];

#[test]
fn eval_writes_the_rows_of_worked_sources(rt: HostRuntime) -> Result<(), Fail> {
    let alloc = rt.alloc();
    for (source, samples, rows, line) in WORKED {
        let mut desk = desk_with(alloc, 4096, source)?;
        desk.put("SAMPLES", samples)?;
        let mut listener = Listener {
            desk,
            reported: Bytes::new(alloc),
            pieces: 0,
        };
        carry_out(alloc, &["eval", "SRC", "SAMPLES", "OUT"], &mut listener)?;
        assert_eq!(rt; listener.desk.get("OUT"), rows);
        assert_eq!(rt; listener.reported.as_slice(), line);
    }
    Ok(())
}

#[test]
fn a_source_has_a_plan_without_files(rt: HostRuntime) -> Result<(), Fail> {
    let planned = plan_of(rt.alloc(), SOURCE, PLAIN)?;
    assert_eq!(rt; planned.plan.assigned.lowered.nodes.len(), 4);
    assert_eq!(rt; planned.plan.unroll, 1);
    assert_eq!(rt; planned.path.period, 16);
    Ok(())
}

#[test]
fn a_source_without_a_plan_has_the_status_that_compile_answers(
    rt: HostRuntime,
) -> Result<(), Fail> {
    let source = b"func main(x : fix<8,0>) y : fix<8,0> = begin y = x@1; end;";
    let status = plan_of(rt.alloc(), source, PLAIN).err();
    assert_eq!(rt; status, Some(Status::Unit(UnitRefusal::NoRam { node: 0 })));
    Ok(())
}

#[test]
fn pieces_of_any_size_make_the_same_file(rt: HostRuntime) -> Result<(), Fail> {
    let alloc = rt.alloc();
    let mut whole = desk_with(alloc, 4096, SOURCE)?;
    assert_eq!(rt; carry_out(alloc, &COMPILE, &mut whole)?, Status::Done);
    for piece in [1, 7] {
        let mut desk = desk_with(alloc, piece, SOURCE)?;
        assert_eq!(rt; carry_out(alloc, &COMPILE, &mut desk)?, Status::Done);
        assert_eq!(rt; desk.get("OUT"), whole.get("OUT"), "piece {piece}");
        assert_eq!(rt; (desk.faults(), desk.wants()), (0, 0), "piece {piece}");
        assert!(rt; desk.printed().is_empty(), "piece {piece}");
    }
    Ok(())
}

#[test]
fn a_source_is_compiled_over_a_desk_that_never_fails(rt: HostRuntime) -> Result<(), Fail> {
    let alloc = rt.alloc();
    let mut desk = NeverFails::new(alloc);
    desk.put("SRC", SOURCE)?;
    desk.put("DP", PLAIN)?;
    assert_eq!(rt; carry_out(alloc, &COMPILE, &mut desk)?, Status::Done);
    Ok(())
}

#[test]
fn a_missing_datapath_comes_before_a_fault_of_the_source(rt: HostRuntime) -> Result<(), Fail> {
    let alloc = rt.alloc();
    let mut desk = MemDesk::new(alloc, 10);
    desk.put("SRC", b"func #")?;
    assert_eq!(rt; carry_out(alloc, &COMPILE, &mut desk)?, Status::Desk);
    desk.put("DP", b"")?;
    let fault = Status::FrontEnd(FrontFault::Lex(LexFault::BadByte(5)));
    assert_eq!(rt; carry_out(alloc, &COMPILE, &mut desk)?, fault);
    Ok(())
}

/// The commands that run a machine of an image.
const RUNS: [&[&str]; 2] = [
    &["sim", "OUT", "SAMPLES", "ROWS"],
    &["run", "SRC", "DP", "SAMPLES", "ROWS"],
];

/// The commands that keep a machine, and the rows that each writes.
const KEEPING: [(&[&str], &[u8]); 4] = [
    (&["sim", "OUT", "SAMPLES", "ROWS"], b"1\n-128\n-127\n"),
    (&["run", "SRC", "DP", "SAMPLES", "ROWS"], b"1\n-128\n-127\n"),
    (
        &["pipe", "SRC", "DP", "2", "SAMPLES", "ROWS"],
        b"0\n1\n-128\n",
    ),
    (&["net", "NET", "SAMPLES", "ROWS"], b"1\n-128\n-127\n"),
];

/// A net of the source alone.
const NET: &[u8] = b"inputs = 1
[[proc]]
src = \"SRC\"
dp = \"DP\"
feed = [\"in.0\"]
";

/// How a command ends, and how many samples the machine has run that it keeps.
fn samples_kept<D: Desk>(
    alloc: Global,
    words: &[&str],
    desk: &mut D,
) -> Result<(Status, Option<u64>), Fail> {
    let words = list(alloc, words)?;
    let mut kept = Kept::Nothing;
    let status = silc(alloc, &words, desk, &mut kept);
    let samples = match &kept {
        Kept::One(machine) => Some(machine.samples()),
        Kept::Staged(machine) => Some(machine.samples()),
        Kept::Joined(net) => Some(net.count() as u64),
        Kept::Nothing => None,
    };
    Ok((status, samples))
}

#[test]
fn a_run_keeps_the_machine_after_the_last_sample(rt: HostRuntime) -> Result<(), Fail> {
    let alloc = rt.alloc();
    for (words, rows) in KEEPING {
        let mut desk = desk_with(alloc, 100, SOURCE)?;
        desk.put("SAMPLES", b"0\n127\n-128\n")?;
        desk.put("NET", NET)?;
        assert_eq!(rt; carry_out(alloc, &COMPILE, &mut desk)?, Status::Done);
        let (status, samples) = samples_kept(alloc, words, &mut desk)?;
        assert_eq!(rt; status, Status::Done);
        assert_eq!(rt; samples, Some(3));
        assert_eq!(rt; desk.get("ROWS"), Some(rows));
    }
    Ok(())
}

/// Samples, how a run over them ends, and what OUT is to hold.
const STREAMS: [(&[u8], Status, &[u8]); 6] = [
    (b"", Status::Done, b""),
    (b"0\r\n5", Status::Done, b"1\n6\n"),
    (
        b"0\n1\n128\n",
        Status::Samples(SampleFault::Row { line: 3, at: 2 }),
        b"1\n2\n",
    ),
    (
        b"0\n1,2\n",
        Status::Samples(SampleFault::Row { line: 2, at: 1 }),
        b"1\n",
    ),
    (
        b"0\n\n",
        Status::Samples(SampleFault::Row { line: 2, at: 0 }),
        b"1\n",
    ),
    (
        b"-",
        Status::Samples(SampleFault::Row { line: 1, at: 1 }),
        b"",
    ),
];

#[test]
fn a_bad_row_leaves_the_rows_before_it(rt: HostRuntime) -> Result<(), Fail> {
    let alloc = rt.alloc();
    for words in [RUNS[0], RUNS[1], &["eval", "SRC", "SAMPLES", "ROWS"]] {
        for (samples, status, rows) in STREAMS {
            for piece in [1, 4096] {
                let mut desk = desk_with(alloc, piece, SOURCE)?;
                desk.put("SAMPLES", samples)?;
                carry_out(alloc, &COMPILE, &mut desk)?;
                assert_eq!(rt; carry_out(alloc, words, &mut desk)?, status);
                assert_eq!(rt; desk.get("ROWS"), Some(rows));
            }
        }
    }
    Ok(())
}

/// Which call closes ROWS, with pieces of 100 bytes: OUT is opened and read twice, SAMPLES is opened, ROWS created,
/// SAMPLES read once, and the row before the bad one written.
const CLOSING: u64 = 7;

#[test]
fn a_close_that_fails_does_not_hide_a_bad_row(rt: HostRuntime) -> Result<(), Fail> {
    let alloc = rt.alloc();
    let mut compiled = desk_with(alloc, 100, SOURCE)?;
    carry_out(alloc, &COMPILE, &mut compiled)?;
    let mut desk = desk_with(alloc, 100, SOURCE)?;
    desk.put("OUT", compiled.get("OUT").ok_or("no file")?)?;
    desk.put("SAMPLES", b"0\n128\n")?;
    desk.fail_at(CLOSING)?;
    let bad = Status::Samples(SampleFault::Row { line: 2, at: 2 });
    assert_eq!(rt; carry_out(alloc, RUNS[0], &mut desk)?, bad);
    assert_eq!(rt; desk.faults(), 1);
    assert_eq!(rt; desk.get("ROWS"), Some(b"1\n".as_slice()));
    Ok(())
}

/// The microcode of the source.
fn compiled(alloc: Global) -> Result<Bytes, Fail>
    ensures { IfOk result (λ bytes. length bytes < 2 ^ 32) }
{
    let mut desk = desk_with(alloc, 4096, SOURCE)?;
    carry_out(alloc, &COMPILE, &mut desk)?;
    let written = desk.get("OUT").ok_or("no file")?;
    let mut bytes = Bytes::new(alloc);
    bytes.extend_from_slice(written.get(..SIZE).ok_or("short")?)?;
    Ok(bytes)
}

fn open<D: Desk>(desk: &mut D) -> Result<(), Failed>
    ensures { OnOk result ((D.view desk.new).place ≡ 0) }
{
    desk.open_input("SAMPLES")?;
    desk.create("ROWS")
}

/// How a run over SAMPLES ends where so many bytes are too many.
#[tactic(auto, using(sample_commands::proofs::Simulating::fresh_ready, sample_commands::proofs::Simulating::fresh_young))]
fn run_below<D: Desk>(
    alloc: Global,
    microcode: &Bytes,
    desk: &mut D,
    limit: u64,
) -> Result<Status, Fail>
    requires bytes { length microcode.now < 2 ^ 32 }
    requires limit { limit ≤ 2 ^ 32 }
{
    let Ok(mut machine) = machine_of(alloc, microcode) else {
        return Err(Fail::from("no machine"));
    };
    let Ok(mut rows) = machine_rows(alloc, &machine) else {
        return Err(Fail::from("no rows"));
    };
    let Ok(()) = open(desk) else {
        return Err(Fail::from("no files"));
    };
    Ok(run_samples(&mut machine, &mut rows, desk, limit))
}

#[test]
fn samples_are_too_long_from_their_limit_on(rt: HostRuntime) -> Result<(), Fail> {
    let alloc = rt.alloc();
    let microcode = compiled(alloc)?;
    for (limit, status) in [
        (5, Status::Done),
        (4, Status::Samples(SampleFault::TooLong)),
    ] {
        for piece in [1, 3, 4096] {
            let mut desk = desk_with(alloc, piece, SOURCE)?;
            desk.put("SAMPLES", b"0\n1\n")?;
            assert_eq!(rt;
                run_below(alloc, &microcode, &mut desk, limit)?,
                status,
                "piece {piece}"
            );
            assert_eq!(rt;
                desk.get("ROWS"),
                Some(b"1\n2\n".as_slice()),
                "piece {piece}"
            );
        }
        let mut desk = NeverFails::new(alloc);
        desk.put("SAMPLES", b"0\n1\n")?;
        assert_eq!(rt; run_below(alloc, &microcode, &mut desk, limit)?, status);
    }
    Ok(())
}

/// The byte of the microcode that says which units drive the bus in cycle 2; where it is 0x18, two do.
const TWO_DRIVERS: usize = 34;

#[test]
fn a_conflict_comes_before_a_bad_row_behind_it(rt: HostRuntime) -> Result<(), Fail> {
    let alloc = rt.alloc();
    let mut desk = desk_with(alloc, 4096, SOURCE)?;
    carry_out(alloc, &COMPILE, &mut desk)?;
    let compiled = desk.get("OUT").ok_or("no file")?;
    let mut microcode = Bytes::new(alloc);
    microcode.extend_from_slice(compiled.get(..TWO_DRIVERS).ok_or("short")?)?;
    microcode.push(0x18)?;
    microcode.extend_from_slice(compiled.get(TWO_DRIVERS + 1..).ok_or("short")?)?;
    desk.put("OUT", &microcode)?;
    desk.put("SAMPLES", b"0\nx\n")?;
    let conflict = Conflict {
        cycle: 2,
        kind: ConflictKind::TwoDrivers,
        place: 0,
    };
    assert_eq!(rt;
        carry_out(alloc, RUNS[0], &mut desk)?,
        Status::Conflict(conflict)
    );
    assert_eq!(rt; desk.get("ROWS"), Some(b"".as_slice()));
    Ok(())
}

/// A desk in memory that keeps what is reported.
#[derive(Drop)]
struct Listener {
    desk: MemDesk,
    reported: Bytes,
    pieces: u64,
}

impl Desk for Listener {
    ghost use Rattle.desk_core.specs.MemDesk.{view_of, output_always_specified};

    ghost view = { λ listener. view_of listener.desk };

    ghost output_specified = { λ listener. output_always_specified listener.desk };

    fn open_input(&mut self, name: &str) -> Result<(), Failed> {
        self.desk.open_input(name)
    }

    fn read(&mut self, buf: &mut [u8]) -> Result<usize, Failed> {
        self.desk.read(buf)
    }

    fn create(&mut self, name: &str) -> Result<(), Failed> {
        self.desk.create(name)
    }

    fn write(&mut self, piece: &[u8]) -> Result<usize, Failed> {
        self.desk.write(piece)
    }

    fn close(&mut self) -> Result<(), Failed> {
        self.desk.close()
    }

    fn print(&mut self, piece: &[u8]) -> Result<usize, Failed> {
        self.desk.print(piece)
    }

    fn complain(&mut self, piece: &[u8]) {
        self.pieces = self.pieces.saturating_add(1);
        let _ = self.reported.extend_from_slice(piece);
    }
}

#[test]
fn an_error_is_reported_in_one_piece_which_is_its_line(rt: HostRuntime) -> Result<(), Fail> {
    let alloc = rt.alloc();
    let cases = [
        (
            COMPILE.as_slice(),
            b"func\nmain #".as_slice(),
            b"silc: line 2: bad byte\n".as_slice(),
        ),
        (&COMPILE, b"func main\n(x\n\n", b"silc: line 4: syntax\n"),
        (&["sim", "SRC", "DP", "OUT"], b"", b"silc: short at 0\n"),
        (&["compile"], b"", b"silc: bad command words\n"),
    ];
    for (words, source, line) in cases {
        let mut listener = Listener {
            desk: desk_with(alloc, 100, source)?,
            reported: Bytes::new(alloc),
            pieces: 0,
        };
        carry_out(alloc, words, &mut listener)?;
        assert_eq!(rt; listener.reported.as_slice(), line);
        assert_eq!(rt; listener.pieces, 1);
    }
    Ok(())
}

#[test]
fn want_of_memory_has_its_text(rt: HostRuntime) -> Result<(), Fail> {
    let text = format!(in rt.alloc(); "{}", Status::Memory)?;
    assert_eq!(rt; text.as_str(), "no memory");
    Ok(())
}

#[test]
fn a_print_fails_at_its_number(rt: HostRuntime) -> Result<(), Fail> {
    let mut desk = MemDesk::new(rt.alloc(), 3);
    desk.fail_at(1)?;
    assert_eq!(rt; desk.print(b"line"), Ok(3));
    desk.complain(b"not counted");
    assert_eq!(rt; desk.print(b"e"), Err(Failed));
    assert_eq!(rt; desk.print(b"s"), Ok(1));
    assert_eq!(rt; desk.printed(), b"lins".as_slice());
    assert_eq!(rt; (desk.faults(), desk.wants()), (1, 0));
    Ok(())
}
