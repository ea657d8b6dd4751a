//! The lines that a layer answers, and how their words are put: each after the text that stands before it.

use anyhow::{Result, bail};
use fix_word::{FixType, Format, Mode, SigType};
use itoa::{Buffer, Integer};
use lists::{List, Name};
use std::alloc::Global;
use std::fmt::{Debug, Display};
use std::io::Write;

/// Lines that are printed together, or why none is printed.
#[derive(Drop)]
pub struct Page {
    /// Where the memory comes from, for the page and for what a layer answers.
    pub alloc: Global,
    bytes: Vec<u8>,
    trouble: Option<&'static str>,
}

/// There is no answer, and the page says why in its place.
#[derive(Clone, Copy)]
pub struct Refused;

const NO_MEMORY: &str = "no memory";

/// How deep the node of a line stands, and what it is to the node above it.
#[derive(Clone, Copy)]
pub struct Lead {
    level: u32,
    role: &'static str,
}

impl Lead {
    pub fn top() -> Lead {
        Lead { level: 0, role: "" }
    }

    /// The lead of a node below, which has no role or this one.
    pub fn below(self, role: &'static str) -> Lead {
        Lead {
            level: self.level.saturating_add(1),
            role,
        }
    }
}

impl Page {
    pub fn new(alloc: Global) -> Page {
        Page {
            alloc,
            bytes: Vec::new(alloc),
            trouble: None,
        }
    }

    pub fn print(&self, rt: &impl Print) -> Result<()> {
        if let Some(trouble) = self.trouble {
            bail!("{trouble}");
        }
        rt.write_all(&self.bytes)?;
        Ok(())
    }

    /// Takes the lines off.
    pub fn clear(&mut self) {
        self.bytes.clear();
        self.trouble = None;
    }

    /// Lets nothing be printed.
    pub fn fail(&mut self, trouble: &'static str) -> Refused {
        self.trouble = Some(trouble);
        Refused
    }

    /// Lets nothing be printed, for want of memory.
    pub fn cut(&mut self) -> Refused {
        self.fail(NO_MEMORY)
    }

    /// Puts a fault in place of the lines.
    pub fn refuse(&mut self, fault: &impl Debug) -> Refused {
        self.refuse_at(fault, None)
    }

    /// Puts a fault in place of the lines, and the line of its place where it has one.
    pub fn refuse_at(&mut self, fault: &impl Debug, line: Option<u64>) -> Refused {
        self.clear();
        self.debug("fault ", fault);
        if let Some(line) = line {
            self.number(" line ", line);
        }
        self.end();
        Refused
    }

    /// Puts a fault in place of the lines, in the words of its error.
    pub fn refuse_in_words(&mut self, fault: &impl Display) -> Refused {
        self.clear();
        self.shown("fault ", fault);
        self.end();
        Refused
    }

    /// Says that a file is too long, in place of the lines.
    pub fn refuse_length(&mut self) -> Refused {
        self.clear();
        self.text("fault TooLong\n");
        Refused
    }

    pub fn bytes(&mut self, bytes: &[u8]) {
        if self.bytes.extend_from_slice(bytes).is_err() {
            self.trouble = Some(NO_MEMORY);
        }
    }

    pub fn text(&mut self, text: &str) {
        self.bytes(text.as_bytes());
    }

    pub fn end(&mut self) {
        self.text("\n");
    }

    pub fn number<N: Integer>(&mut self, before: &str, number: N) {
        self.text(before);
        let mut digits = Buffer::new();
        self.text(digits.format(number));
    }

    pub fn numbers<N: Integer>(&mut self, before: &str, numbers: &[N]) {
        self.text(before);
        for number in numbers {
            self.number(" ", *number);
        }
    }

    pub fn name(&mut self, before: &str, name: &Name) {
        self.text(before);
        self.bytes(name.as_slice());
    }

    pub fn debug(&mut self, before: &str, value: &impl Debug) {
        self.text(before);
        if write!(self.bytes, "{value:?}").is_err() {
            self.trouble = Some(NO_MEMORY);
        }
    }

    pub fn shown(&mut self, before: &str, value: &impl Display) {
        self.text(before);
        if write!(self.bytes, "{value}").is_err() {
            self.trouble = Some(NO_MEMORY);
        }
    }

    pub fn dims(&mut self, dims: &List<u32>) {
        for dim in dims {
            self.number("[", *dim);
            self.text("]");
        }
    }

    pub fn fix_type(&mut self, before: &str, ty: FixType) {
        self.text(before);
        self.number("fix<", ty.shape.w);
        self.number(",", ty.shape.f);
        self.text(",");
        self.text(mode_text(ty.mode));
        self.text(">");
    }

    pub fn format(&mut self, format: Format) {
        self.number(" shift ", format.shift);
        self.text(" ");
        self.text(mode_text(format.mode));
        self.number(" width ", format.width);
    }

    pub fn sig_type(&mut self, before: &str, ty: SigType) {
        match ty {
            SigType::Fix(ty) => self.fix_type(before, ty),
            SigType::Bool => {
                self.text(before);
                self.text("bool");
            }
        }
    }

    /// Begins the line of a node.
    pub fn lead(&mut self, lead: Lead) {
        for _ in 0..lead.level {
            self.text("  ");
        }
        if !lead.role.is_empty() {
            self.text(lead.role);
            self.text(" ");
        }
    }

    /// Ends the line of a node that begins at a position of the source.
    pub fn end_at(&mut self, at: u32) {
        self.number(" at ", at);
        self.end();
    }

    /// The line of a node that has no position of its own.
    pub fn line(&mut self, lead: Lead, what: &str) {
        self.lead(lead);
        self.text(what);
        self.end();
    }

    /// The line of a node.
    pub fn node(&mut self, lead: Lead, what: &str, at: u32) {
        self.lead(lead);
        self.text(what);
        self.number(" at ", at);
        self.end();
    }

    /// The line of a node that has a name.
    pub fn named(&mut self, lead: Lead, what: &str, name: &Name, at: u32) {
        self.lead(lead);
        self.text(what);
        self.name(" ", name);
        self.number(" at ", at);
        self.end();
    }
}

pub fn mode_text(mode: Mode) -> &'static str {
    match mode {
        Mode::Trunc => "trunc",
        Mode::Round => "round",
        Mode::Sat => "sat",
        Mode::RoundSat => "round,sat",
    }
}
