//! What a name stands for on the host: a file, or one of the streams that the process was given.
//!
//! The standard input and output are read and written as they are. To open one anew would begin at its start, would
//! empty a file that others write to as well, and would fail at a socket.
ghost use Rattle.std.specs.Prelude.{◌≡◌, ◌↔◌, Ok, IfOk};
ghost use Rattle.host_desk.specs.Streams.{standard_input, standard_output, IsGivenSource, IsGivenSink};

use std::fs::{self, File};
use std::io::{self, ErrorKind, Read, Stdin, Stdout, Write};

const STANDARD_INPUT: &str = "/dev/stdin";

const STANDARD_OUTPUT: &str = "/dev/stdout";

/// Where bytes come from.
#[derive(Drop)]
pub(crate) enum Source {
    Opened(File),
    Given(Stdin),
}

/// Where bytes go.
#[derive(Drop)]
pub(crate) enum Sink {
    Opened(File),
    Given(Stdout),
}

impl Source {
    /// Opens the named file, or takes the standard input as it is.
    pub fn open(rt: &HostRuntime, name: &str) -> io::Result<Source>
        ensures { IfOk result (λ source. IsGivenSource source ↔ (name.now ≡ standard_input)) }
    {
        if name == STANDARD_INPUT {
            Ok(Source::Given(rt.stdin()))
        } else {
            Ok(Source::Opened(fs::open(rt, name)?))
        }
    }
}

impl Read for Source {
    fn read(&mut self, buf: &mut [u8]) -> io::Result<usize> {
        match self {
            Source::Opened(file) => file.read(buf),
            Source::Given(stream) => stream.read(buf),
        }
    }
}

/// Whether a file that can't be synced, as a pipe or a terminal, said so. It has nothing to report late.
fn is_unsynced(error: &io::Error) -> bool {
    matches!(
        error.kind(),
        ErrorKind::InvalidInput | ErrorKind::Unsupported
    )
}

impl Sink {
    /// Makes the named file anew. What stands in the standard output already stays there.
    pub fn create(rt: &HostRuntime, name: &str) -> io::Result<Sink>
        ensures { IfOk result (λ sink. IsGivenSink sink ↔ (name.now ≡ standard_output)) }
    {
        if name == STANDARD_OUTPUT {
            Ok(Sink::Given(rt.stdout()))
        } else {
            Ok(Sink::Opened(fs::create(rt, name)?))
        }
    }

    /// Waits until the host has stored what was written to a file, and fails where it could not, as it may find out
    /// after the last write. The standard output stays open, and is not waited for: std can sync only what it opened.
    pub fn store(&self) -> io::Result<()>
        ensures { IsGivenSink self.now → result ≡ Ok tt }
    {
        match self {
            Sink::Opened(file) => match file.sync_all() {
                Err(error) if !is_unsynced(&error) => Err(error),
                _ => Ok(()),
            },
            Sink::Given(_) => Ok(()),
        }
    }
}

impl Write for Sink {
    fn write(&mut self, buf: &[u8]) -> io::Result<usize> {
        match self {
            Sink::Opened(file) => file.write(buf),
            Sink::Given(stream) => stream.write(buf),
        }
    }

    /// Nothing is held back.
    fn flush(&mut self) -> io::Result<()> {
        Ok(())
    }
}
