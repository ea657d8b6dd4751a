//! Sample files, read byte by byte.

ghost use Rattle.std.specs.Prelude.{◌≡◌, ◌<◌, ◌+◌, ◌*◌, ◌^◌, length, IfSome, IfNone};
ghost use Rattle.std.specs.Char.{digit_value};
ghost use Rattle.sample_io.specs.Channels.{AreChannels};
ghost use Rattle.sample_io.specs.Samples.{signed};
ghost use Rattle.sample_io.specs.Private.Reading.{HasDigit, IsLineState, Takes, EndsWith, IsReader, Reads, Ends};

use crate::{Channel, RowFault};

/// What a line has of its last word.
#[derive(Clone, Copy)]
pub(crate) enum Part {
    /// Nothing, at the start of the line or after a comma.
    Empty,
    /// A minus.
    Minus,
    /// One or more digits, after a minus or not.
    Digits { negative: bool, magnitude: u64 },
    /// The row's last word, and a CR.
    Return { word: i64 },
}

/// What the last byte of a line has completed.
#[derive(Clone, Copy)]
pub(crate) enum Progress {
    /// Nothing.
    Within,
    /// A word. The line goes on.
    Word(i64),
    /// The line, a row with this last word.
    Row(i64),
}

/// The state of a line: the position of its last word in the row, and what there is of this word.
#[derive(Clone, Copy)]
pub(crate) struct LineState {
    column: usize,
    part: Part,
}

impl LineState {
    /// A line with no byte yet.
    fn new() -> LineState
        ensures { result ≡ record { column = 0; part = Part.Empty } }
    {
        LineState {
            column: 0,
            part: Part::Empty,
        }
    }

    /// Takes the line's next byte. `None`: with it the line begins no row.
    fn take(&mut self, channels: &[Channel], byte: u8) -> Option<Progress>
        requires channels { AreChannels channels.now }
        requires state { IsLineState channels.now self.old }
        ensures { Takes channels.now self.old byte result self.new }
    {
        let channel = channels[self.column];
        match self.part {
            Part::Empty => {
                if byte == b'-' {
                    self.part = Part::Minus;
                    return Some(Progress::Within);
                }
                self.digit(channel, false, 0, byte)
            }
            Part::Minus => self.digit(channel, true, 0, byte),
            Part::Digits {
                negative,
                magnitude,
            } => {
                let word = signed_word(negative, magnitude);
                if byte == b',' {
                    return self.next_word(channels, word);
                }
                if byte == b'\r' {
                    return self.line_end(channels, word);
                }
                if byte == b'\n' {
                    return self.next_line(channels, word);
                }
                self.digit(channel, negative, magnitude, byte)
            }
            Part::Return { word } => {
                if byte == b'\n' {
                    return self.next_line(channels, word);
                }
                None
            }
        }
    }

    /// A byte within a word has to be a digit that leaves the word in its channel.
    fn digit(
        &mut self,
        channel: Channel,
        negative: bool,
        magnitude: u64,
        byte: u8,
    ) -> Option<Progress>
        requires { magnitude < 2 ^ 40 }
        ensures taken { IfSome result (λ progress. (progress ≡ Progress.Within)
            × HasDigit channel negative magnitude byte
            × (self.new ≡ record self.old { part = Part.Digits negative (magnitude * 10 + digit_value byte) })) }
        ensures refused { IfNone result (HasDigit channel negative magnitude byte → ⊥) }
    {
        if !byte.is_ascii_digit() {
            return None;
        }
        let magnitude = magnitude * 10 + u64::from(byte - b'0');
        if !channel.contains(signed_word(negative, magnitude)) {
            return None;
        }
        self.part = Part::Digits {
            negative,
            magnitude,
        };
        Some(Progress::Within)
    }

    /// A comma ends a word that is not the row's last.
    fn next_word(&mut self, channels: &[Channel], word: i64) -> Option<Progress>
        requires { self.old.column < length channels.now }
        ensures taken { IfSome result (λ progress. (progress ≡ Progress.Word word)
            × (self.old.column + 1 < length channels.now)
            × (self.new ≡ record { column = self.old.column + 1; part = Part.Empty })) }
        ensures refused { IfNone result (self.old.column + 1 ≡ length channels.now) }
    {
        if self.column + 1 == channels.len() {
            return None;
        }
        self.column += 1;
        self.part = Part::Empty;
        Some(Progress::Word(word))
    }

    /// A CR comes after the row's last word.
    fn line_end(&mut self, channels: &[Channel], word: i64) -> Option<Progress>
        requires { self.old.column < length channels.now }
        ensures taken { IfSome result (λ progress. (progress ≡ Progress.Within)
            × (self.old.column + 1 ≡ length channels.now)
            × (self.new ≡ record self.old { part = Part.Return word })) }
        ensures refused { IfNone result (self.old.column + 1 < length channels.now) }
    {
        if self.column + 1 < channels.len() {
            return None;
        }
        self.part = Part::Return { word };
        Some(Progress::Within)
    }

    /// An LF ends the row's last word, and with it the line.
    fn next_line(&mut self, channels: &[Channel], word: i64) -> Option<Progress>
        requires { self.old.column < length channels.now }
        ensures taken { IfSome result (λ progress. (progress ≡ Progress.Row word)
            × (self.old.column + 1 ≡ length channels.now)
            × (self.new ≡ record { column = 0; part = Part.Empty })) }
        ensures refused { IfNone result (self.old.column + 1 < length channels.now) }
    {
        if self.column + 1 < channels.len() {
            return None;
        }
        *self = LineState::new();
        Some(Progress::Row(word))
    }

    /// The row's last word, where the line's bytes are a row's text.
    fn last_word(&self, channels: &[Channel]) -> Option<i64>
        requires channels { AreChannels channels.now }
        requires state { IsLineState channels.now self.now }
        ensures { EndsWith channels.now self.now result }
    {
        let Part::Digits {
            negative,
            magnitude,
        } = self.part
        else {
            return None;
        };
        if self.column + 1 < channels.len() {
            return None;
        }
        Some(signed_word(negative, magnitude))
    }
}

/// The number of this size, below zero or not.
fn signed_word(negative: bool, magnitude: u64) -> i64
    requires { magnitude < 2 ^ 63 }
    ensures { result ≡ signed negative magnitude }
{
    let word = magnitude as i64;
    if negative { -word } else { word }
}

/// The position in a sample file, and the state of the line there.
#[derive(Clone, Copy)]
pub(crate) struct Reader {
    line: u64,
    at: u64,
    state: LineState,
}

impl Reader {
    /// A reader at the start of a sample file.
    pub(crate) fn new() -> Reader
        ensures { result ≡ record { line = 1; at = 0; state = record { column = 0; part = Part.Empty } } }
    {
        Reader {
            line: 1,
            at: 0,
            state: LineState::new(),
        }
    }

    /// Takes the next byte, unless it is the first bad one.
    pub(crate) fn step(&mut self, channels: &[Channel], byte: u8) -> Result<Progress, RowFault>
        requires channels { AreChannels channels.now }
        requires reader { IsReader channels.now self.old }
        ensures { Reads channels.now self.old byte result self.new }
    {
        let Some(progress) = self.state.take(channels, byte) else {
            return Err(self.fault());
        };
        if let Progress::Row(_) = progress {
            self.line += 1;
            self.at = 0;
        } else {
            self.at += 1;
        }
        Ok(progress)
    }

    /// The end of input. Gives the last word of a row that lacks its end of line.
    pub(crate) fn finish(&self, channels: &[Channel]) -> Result<Option<i64>, RowFault>
        requires channels { AreChannels channels.now }
        requires reader { IsReader channels.now self.now }
        ensures { Ends channels.now self.now result }
    {
        if self.at == 0 {
            return Ok(None);
        }
        match self.state.last_word(channels) {
            Some(word) => Ok(Some(word)),
            None => Err(self.fault()),
        }
    }

    /// The position in its row of the word that comes or is begun.
    pub(crate) fn column(&self) -> usize
        ensures { result ≡ self.now.state.column }
    {
        self.state.column
    }

    /// The position as a fault.
    fn fault(&self) -> RowFault
        ensures { result ≡ record { line = self.now.line; at = self.now.at } }
    {
        RowFault {
            line: self.line,
            at: self.at,
        }
    }
}
