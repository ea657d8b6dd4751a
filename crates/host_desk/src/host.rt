//! The desk over real files and standard streams.
ghost use Rattle.std.specs.Prelude.{◌≡◌, ◌≤◌};
ghost use Rattle.desk_core.specs.Desk.{Rose};

use crate::streams::{Sink, Source};
use arrayvec::ArrayString;
use desk_core::{Desk, Failed};
use std::io::{Read, Write};

/// The name of a file that could be opened. The host opens no path of 4,096 bytes or more, so each such name has room.
type FileName = ArrayString<4096>;

/// The environment of the process. What a file holds is not specified, and each `Err` of the host is a fault.
#[derive(Drop)]
pub struct HostDesk {
    rt: HostRuntime,
    input: Option<Source>,
    /// The name of the input that was opened last. It stays where it is, since a move copies all of its room.
    name: FileName,
    /// Bytes read since the input was opened.
    place: u64,
    output: Option<Sink>,
    faults: u64,
}

impl HostDesk {
    /// A desk with no input and no output, on which nothing has failed.
    pub fn new(rt: HostRuntime) -> HostDesk
        ensures place { result.place ≡ 0 }
        ensures faults { result.faults ≡ 0 }
    {
        HostDesk {
            rt,
            input: None,
            name: FileName::new(),
            place: 0,
            output: None,
            faults: 0,
        }
    }
}

/// One more fault, as far as the counter goes.
fn raised(faults: u64) -> u64
    ensures rose { Rose faults result }
    ensures never_falls { faults ≤ result }
{
    faults.saturating_add(1)
}

impl Desk for HostDesk {
    ghost use Rattle.host_desk.specs.HostDesk.{host_view, never_specifies_files};

    ghost view = { λ desk. host_view desk.place desk.faults };

    ghost output_specified = { λ desk. never_specifies_files desk.place desk.faults };

    /// A name that is too long for the host is a fault of it.
    fn open_input(&mut self, name: &str) -> Result<(), Failed> {
        if name.len() <= self.name.capacity()
            && let Ok(source) = Source::open(&self.rt, name)
        {
            self.name.clear();
            self.name.push_str(name);
            self.input = Some(source);
            self.place = 0;
            return Ok(());
        }
        self.faults = raised(self.faults);
        Err(Failed)
    }

    fn read(&mut self, buf: &mut [u8]) -> Result<usize, Failed> {
        if let Some(input) = &mut self.input
            && let Ok(count) = input.read(buf)
        {
            self.place += count as u64;
            return Ok(count);
        }
        self.faults = raised(self.faults);
        Err(Failed)
    }

    /// The input of that name ends.
    fn create(&mut self, name: &str) -> Result<(), Failed> {
        match Sink::create(&self.rt, name) {
            Ok(sink) => {
                self.output = Some(sink);
                if self.name.as_str() == name {
                    self.input = None;
                }
                Ok(())
            }
            Err(_) => {
                self.faults = raised(self.faults);
                Err(Failed)
            }
        }
    }

    /// A host that takes nothing of a piece has failed.
    fn write(&mut self, piece: &[u8]) -> Result<usize, Failed> {
        if let Some(sink) = &mut self.output
            && let Ok(count) = sink.write(piece)
            && (count > 0 || piece.is_empty())
        {
            return Ok(count);
        }
        self.faults = raised(self.faults);
        Err(Failed)
    }

    /// Waits until the host has stored the output, where that is a file.
    fn close(&mut self) -> Result<(), Failed> {
        if let Some(sink) = self.output.take()
            && sink.store().is_err()
        {
            self.faults = raised(self.faults);
            return Err(Failed);
        }
        Ok(())
    }

    fn print(&mut self, piece: &[u8]) -> Result<usize, Failed> {
        if let Ok(count) = self.rt.write_some(piece)
            && (count > 0 || piece.is_empty())
        {
            return Ok(count);
        }
        self.faults = raised(self.faults);
        Err(Failed)
    }

    /// Writes to standard error. What can't be written there is lost.
    fn complain(&mut self, piece: &[u8]) {
        let _ = self.rt.stderr().write_all(piece);
    }
}
