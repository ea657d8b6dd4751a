//! The program `silc_place` over the host's files and standard streams.
#![tactic(auto)]

ghost use Rattle.std.specs.Prelude.{◌≡◌, ◌≤◌, length, IfSome};

use host_desk::HostDesk;
use place_command::{PlaceEnding, code, place, report};
use place_stages_command::{PipeEnding, code as pipe_code, place_pipe, report as report_pipe};
use statuses::Status;
use std::alloc::Global;
use std::env;
use std::io::{self, ErrorKind};
use std::process::ExitCode;

const HELP: &str =
    "silc_place compiles SRC for the datapath DP with the units, cycles and registers that PLAN gives, or
runs such a plan.

usage: silc_place SRC DP PLAN OUT    writes the microcode of that plan to OUT
       silc_place pipe SRC DP PLAN S SAMPLES OUT
                                     runs that plan over S stages, 1 to 4, over the rows of SAMPLES into OUT
       silc_place --help | --version

PLAN is what 'silc schedule SRC DP' prints, or any text that has for each node a line as
node 3 cycle 5 unit alu
and, for a copy of a word that waits at a port, a line with its register or none:
register 1 unit alu port 0 node 3 copy 0
with more behind it or not. Lines that begin with neither of the two words give nothing. What wrote PLAN
is not trusted: where OUT is written, it is the solution of SRC, each node stands where PLAN says, and each
copy has the register that PLAN gives it. For 'pipe', PLAN is what 'silc stages SRC DP S' prints, or a text
with such lines of nodes, and OUT has the rows of 'silc pipe'.

The exit code is that of 'silc compile SRC DP OUT', or of 'silc pipe SRC DP S SAMPLES OUT', and 16 where
PLAN gives no places or nodes can't stand at them, or copies can't have their registers. Buses, and
registers that are not given, are the first that are free, so that other places, or a choice of buses and
registers, may have a plan where these have none. An error is reported in one line on standard error, and
no OUT is made then, except where it can't be written, or where rows of SAMPLES came before the error.";

const VERSION: &str = "silc_place 0.1.0";

/// The words of the command, after the program's name.
fn words<R: std::rt::Env + AllocGlobal>(rt: &R) -> io::Result<Vec<String>> {
    let mut words = Vec::new(rt.alloc());
    for word in env::args(rt)?.skip(1) {
        words.push(word)?;
    }
    Ok(words)
}

/// What the program says of itself, where that is all that it is asked.
fn about(words: &[String]) -> Option<&'static str> {
    match words {
        [word] if word.as_str() == "--help" => Some(HELP),
        [word] if word.as_str() == "--version" => Some(VERSION),
        _ => None,
    }
}

/// The status where the words could not be had: one that is not UTF-8 is no word of a command.
fn unread(error: &io::Error) -> Status {
    if error.kind() == ErrorKind::OutOfMemory {
        Status::Memory
    } else {
        Status::Words
    }
}

/// The number of stages, 1 to 4, that a word is.
fn stages_of(word: &str) -> Option<u8>
    ensures { IfSome result (λ stages. (1 ≤ stages) × (stages ≤ 4)) }
{
    match word {
        "1" => Some(1),
        "2" => Some(2),
        "3" => Some(3),
        "4" => Some(4),
        _ => None,
    }
}

/// Runs the plan that these words name over so many stages. An output that is an input is none.
fn run_pipe(
    alloc: Global,
    desk: &mut HostDesk,
    words: &[String],
    stages: u8,
) -> Result<(), PipeEnding>
    requires { (1 ≤ stages) × (stages ≤ 4) }
{
    match words {
        [src, dp, plan, _, samples, out]
            if out != samples && out != plan && out != src && out != dp => {
            place_pipe(alloc, desk, src, dp, plan, stages, samples, out)?;
            Ok(())
        }
        _ => Err(PipeEnding::from(Status::Words)),
    }
}

/// Runs the plan that the six words behind `pipe` name.
fn carry_out_pipe(rt: HostRuntime, words: &[String]) -> ExitCode
    requires { length words.now ≡ 6 }
{
    let alloc = rt.alloc();
    let mut desk = HostDesk::new(rt);
    let result = match stages_of(&words[3]) {
        Some(stages) => run_pipe(alloc, &mut desk, words, stages),
        None => Err(PipeEnding::from(Status::Words)),
    };
    match result {
        Ok(()) => ExitCode::SUCCESS,
        Err(ending) => {
            report_pipe(&mut desk, &ending);
            ExitCode::from(pipe_code(&ending))
        }
    }
}

/// Makes the microcode that the words name. An output that is an input is none.
fn carry_out_place(rt: HostRuntime, words: &[String]) -> ExitCode {
    let alloc = rt.alloc();
    let mut desk = HostDesk::new(rt);
    let ending = match words {
        [source, datapath, plan, output]
            if output != plan && output != source && output != datapath => {
            place(alloc, &mut desk, source, datapath, plan, output)
        }
        _ => PlaceEnding::from(Status::Words),
    };
    let code = code(&ending);
    if code > 0 {
        report(&mut desk, &ending);
    }
    ExitCode::from(code)
}

/// Carries out the command that the words are. Four words are files, also where the first is `pipe`.
fn carry_out(rt: HostRuntime, words: &[String]) -> ExitCode {
    match words {
        [word, rest @ ..] if word.as_str() == "pipe" && rest.len() == 6 => carry_out_pipe(rt, rest),
        _ => carry_out_place(rt, words),
    }
}

/// Reports why the program did not do what it was asked, in one line. What can't be written there is lost.
fn refused(rt: &HostRuntime, status: Status) -> ExitCode {
    let _ = eprintln!(rt; "silc_place: {status}");
    ExitCode::from(statuses::code(&status))
}

fn main(rt: HostRuntime) -> ExitCode {
    let words = match words(&rt) {
        Ok(words) => words,
        Err(error) => return refused(&rt, unread(&error)),
    };
    if let Some(text) = about(&words) {
        return match println!(rt; "{text}") {
            Ok(()) => ExitCode::SUCCESS,
            Err(_) => refused(&rt, Status::Desk),
        };
    }
    carry_out(rt, &words)
}
