//! Where labels do not fit, in the words of the source and of a listing: nodes by the signals that they are, units by
//! their number and kind.

use image_labels::Mismatch;
use micro_image::Image;
use node_names::{NodeNames, put, put_number};
use std::alloc::AllocError;

/// What the words are taken from.
#[derive(Clone, Copy)]
pub struct Words<'a> {
    pub names: &'a NodeNames,
    pub image: &'a Image,
}

/// The word of a node some samples ago.
#[derive(Clone, Copy)]
struct Word {
    node: u32,
    ago: u32,
}

/// What an issue reads at a port of its unit.
#[derive(Clone, Copy)]
struct Reading {
    cycle: u16,
    unit: u32,
    port: u8,
    /// The node that the issue is to do.
    node: u32,
    /// What that node reads there.
    wants: Word,
}

impl Reading {
    /// What node `node` reads at a port: the word of node `wants`, `delay` samples ago.
    fn new(cycle: u16, unit: u8, port: u8, node: u32, wants: u32, delay: u16) -> Reading {
        Reading {
            cycle,
            unit: u32::from(unit),
            port,
            node,
            wants: Word {
                node: wants,
                ago: u32::from(delay),
            },
        }
    }
}

type Put = Result<(), AllocError>;

fn put_cycle(text: &mut Vec<u8>, cycle: u16) -> Put {
    put_number(text, "cycle ", cycle)?;
    put(text, ": ")
}

fn put_ago(text: &mut Vec<u8>, ago: u32) -> Put {
    match ago {
        0 => put(text, " of this sample"),
        1 => put(text, " of 1 sample ago"),
        _ => {
            put_number(text, " of ", ago)?;
            put(text, " samples ago")
        }
    }
}

impl Words<'_> {
    /// Puts a unit, as a listing names it.
    fn put_unit(&self, text: &mut Vec<u8>, unit: u32) -> Put {
        put_number(text, "unit ", unit)?;
        match self.image.units.get(unit as usize) {
            Some(is) => {
                put(text, " ")?;
                put(text, is.kind.name())
            }
            None => Ok(()),
        }
    }

    fn put_port(&self, text: &mut Vec<u8>, unit: u32, port: u32) -> Put {
        put_number(text, "port ", port)?;
        put(text, " of ")?;
        self.put_unit(text, unit)
    }

    fn put_word(&self, text: &mut Vec<u8>, word: Word) -> Put {
        self.names.put(text, word.node)?;
        put_ago(text, word.ago)
    }

    /// Puts what is read where another word stands.
    fn put_other(&self, text: &mut Vec<u8>, reading: Reading, has: Word) -> Put {
        put_cycle(text, reading.cycle)?;
        self.put_port(text, reading.unit, u32::from(reading.port))?;
        put(text, " has ")?;
        self.put_word(text, has)?;
        put(text, ", where ")?;
        self.names.put(text, reading.node)?;
        if has.node == reading.wants.node {
            put(text, " reads it")?;
            put_ago(text, reading.wants.ago)
        } else {
            put(text, " reads ")?;
            self.put_word(text, reading.wants)
        }
    }

    /// Puts what is read where nothing is known of a word.
    fn put_unknown(&self, text: &mut Vec<u8>, reading: Reading) -> Put {
        put_cycle(text, reading.cycle)?;
        put(text, "what ")?;
        self.put_port(text, reading.unit, u32::from(reading.port))?;
        put(text, " has is not known, where ")?;
        self.names.put(text, reading.node)?;
        put(text, " reads ")?;
        self.put_word(text, reading.wants)
    }

    /// Puts a unit in a cycle, and what is said of it.
    fn put_in_cycle(&self, text: &mut Vec<u8>, cycle: u16, unit: u8, says: &str) -> Put {
        put_cycle(text, cycle)?;
        self.put_unit(text, u32::from(unit))?;
        put(text, says)
    }

    fn put_register(&self, text: &mut Vec<u8>, unit: u32, port: u32, reg: u32) -> Put {
        put_number(text, "register ", reg)?;
        put(text, " of ")?;
        self.put_port(text, unit, port)?;
        put(text, " does not come round")
    }

    fn put_cell(&self, text: &mut Vec<u8>, unit: u32, cell: u32) -> Put {
        put_number(text, "cell ", cell)?;
        put(text, " of ")?;
        self.put_unit(text, unit)?;
        put(text, " does not come round")
    }

    fn put_row(&self, text: &mut Vec<u8>, sample: u8, output: u8) -> Put {
        put_number(text, "sample ", sample)?;
        put(text, ": ")?;
        self.names.put_output(text, output)?;
        put(text, " is not put")
    }

    /// Puts the first place at which labels do not fit. `false`: it has no words here but its own.
    pub fn put(&self, text: &mut Vec<u8>, mismatch: Mismatch) -> Result<bool, AllocError> {
        match mismatch {
            Mismatch::OtherOperand {
                cycle,
                unit,
                port,
                has,
                ago,
                node,
                wants,
                delay,
            } => {
                let reading = Reading::new(cycle, unit, port, node, wants, delay);
                self.put_other(text, reading, Word { node: has, ago })?;
            }
            Mismatch::UnknownOperand {
                cycle,
                unit,
                port,
                node,
                wants,
                delay,
            } => {
                let reading = Reading::new(cycle, unit, port, node, wants, delay);
                self.put_unknown(text, reading)?;
            }
            Mismatch::OtherOperation { cycle, unit, node } => {
                self.put_in_cycle(text, cycle, unit, " does not do what ")?;
                self.names.put(text, node)?;
                put(text, " does")?;
            }
            Mismatch::Issue(cycle, unit) => {
                put_cycle(text, cycle)?;
                put(text, "the issue on ")?;
                self.put_unit(text, u32::from(unit))?;
                put(text, " does not fit")?;
            }
            Mismatch::Drive(cycle, unit) => {
                self.put_in_cycle(
                    text,
                    cycle,
                    unit,
                    " drives a bus that is driven, or has no result",
                )?;
            }
            Mismatch::Register(unit, port, reg) => self.put_register(text, unit, port, reg)?,
            Mismatch::Cell(unit, cell) => self.put_cell(text, unit, cell)?,
            Mismatch::Row(sample, output) => self.put_row(text, sample, output)?,
            _ => return Ok(false),
        }
        Ok(true)
    }
}
