//! The program `silc` over the host's files and standard streams.
#![tactic(auto)]

use host_desk::HostDesk;
use silc::{Kept, Status, code, silc};
use std::env;
use std::io::{self, ErrorKind};
use std::process::ExitCode;

const HELP: &str = "silc compiles equations between sampled signals to microcode, and simulates it.

usage: silc compile SRC DP OUT          compiles SRC for the datapath DP, and writes the microcode to OUT
       silc schedule SRC DP             plans SRC for the datapath DP, and prints the plan
       silc sim MIC SAMPLES OUT         runs the microcode MIC over SAMPLES, and writes its rows to OUT
       silc eval SRC SAMPLES OUT        solves the equations of SRC over SAMPLES, and writes their rows to OUT
       silc run SRC DP SAMPLES OUT      compiles SRC for DP, runs it over SAMPLES, and writes its rows to OUT
       silc list MIC                    prints the microcode MIC as text
       silc demo K N                    compiles K biquads in a row, runs N samples, and prints their sum
       silc stages SRC DP S             plans SRC for DP with S samples in flight at once, and prints the plan
       silc pipe SRC DP S SAMPLES OUT   runs such a plan over SAMPLES, and writes its rows to OUT
       silc frame SRC DP M DOWN UP OUT  compiles SRC to run M times a sample of DP, and writes the microcode
       silc net NET SAMPLES OUT         runs the processors of NET over SAMPLES, and writes the last one's rows
       silc --help | --version

example: silc compile increment.sil plain.toml increment.mic
         silc schedule increment.sil plain.toml
         silc sim increment.mic samples.txt rows.txt
         silc eval increment.sil samples.txt rows.txt
         silc run increment.sil plain.toml samples.txt rows.txt
         silc list increment.mic
         silc demo 1 3
         silc stages increment.sil plain.toml 2
         silc pipe increment.sil plain.toml 2 samples.txt rows.txt
         silc frame increment.sil plain.toml 2 0 - frames.mic
         silc net chain.toml samples.txt rows.txt

The exit code is 0 where all was done, 1 without memory, 2 at words that are no command, 3 at a file
that can't be read or written, 4 at a source that is no program, 5 at a file that describes no datapath,
6 to 9 at a program for which the datapath has no unit, no cells for a delay, no cycle or no register,
10 at a file that is no microcode, 11 at a line that is no row of samples, 12 at microcode that asks for
what the hardware can't do, 14 at a net that can't be run, and 15 at frames that SRC can't have. An
error is reported in one line on standard error. At 11 and 12 OUT has the rows before the fault, but of
net none; at other errors but 3 no OUT is made.
/dev/stdin and /dev/stdout are the streams of a pipe: rows go out as they come in, but those of net when
all have run.";

const VERSION: &str = "silc 0.1.0";

/// The words of the command, after the program's name.
fn words<R: std::rt::Env + AllocGlobal>(rt: &R) -> io::Result<Vec<String>> {
    let mut words = Vec::new(rt.alloc());
    for word in env::args(rt)?.skip(1) {
        words.push(word)?;
    }
    Ok(words)
}

/// What the program says of itself, where that is all that it is asked.
fn about(words: &[String]) -> Option<&'static str> {
    match words {
        [word] if word.as_str() == "--help" => Some(HELP),
        [word] if word.as_str() == "--version" => Some(VERSION),
        _ => None,
    }
}

/// The status where the words could not be had: one that is not UTF-8 is no word of a command.
fn unread(error: &io::Error) -> Status {
    if error.kind() == ErrorKind::OutOfMemory {
        Status::Memory
    } else {
        Status::Words
    }
}

/// Reports why the program did not do what it was asked, in one line. What can't be written there is lost.
fn refused(rt: &HostRuntime, status: Status) -> ExitCode {
    let _ = eprintln!(rt; "silc: {status}");
    ExitCode::from(code(&status))
}

fn main(rt: HostRuntime) -> ExitCode {
    let alloc = rt.alloc();
    let words = match words(&rt) {
        Ok(words) => words,
        Err(error) => return refused(&rt, unread(&error)),
    };
    if let Some(text) = about(&words) {
        return match println!(rt; "{text}") {
            Ok(()) => ExitCode::SUCCESS,
            Err(_) => refused(&rt, Status::Desk),
        };
    }
    let status = silc(alloc, &words, &mut HostDesk::new(rt), &mut Kept::Nothing);
    ExitCode::from(code(&status))
}
