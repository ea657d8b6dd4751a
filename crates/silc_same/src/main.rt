//! Says whether microcode runs a source, whoever made it, and is for a datapath. Page `docs/VALIDATION.md`.
#![tactic(auto)]

mod words;

use crate::words::Words;
use anyhow::{Context, Result, bail};
use image_labels::Mismatch;
use micro_file::decode;
use node_names::node_names;
use same_source::{PathRefusal, Refusal, fits_datapath, runs_source};
use std::alloc::{AllocError, Global};
use std::process::ExitCode;
use std::rt::{Env, Files};
use std::{env, fs, str};

const USAGE: &str = "usage: silc_same SRC MIC [DP]";

const BAD_WORDS: u8 = 2;

/// The most bytes of microcode.
const MICROCODE_LIMIT: usize = 1 << 26;

fn read<R: Files + AllocGlobal>(rt: &R, file: &str) -> Result<Vec<u8>> {
    fs::read(rt, file).context(format_args!("{file} can't be read"))
}

/// Puts the first place at which labels do not fit, in the words of the source. `false`: it has none but its own.
fn put_mismatch(
    alloc: Global,
    text: &mut Vec<u8>,
    source: &[u8],
    microcode: &[u8],
    mismatch: Mismatch,
) -> Result<bool, AllocError> {
    if microcode.len() > MICROCODE_LIMIT {
        return Ok(false);
    }
    let (Ok(names), Ok(image)) = (node_names(alloc, source), decode(alloc, microcode)) else {
        return Ok(false);
    };
    let words = Words {
        names: &names,
        image: &image,
    };
    words.put(text, mismatch)
}

/// Ends with why it is not shown that microcode runs a source.
fn not_shown(
    alloc: Global,
    file: &str,
    source: &[u8],
    microcode: &[u8],
    mismatch: Mismatch,
) -> Result<()> {
    let mut text = Vec::new(alloc);
    if put_mismatch(alloc, &mut text, source, microcode, mismatch)?
        && let Ok(text) = str::from_utf8(&text)
    {
        bail!("{file}: not shown: {text}");
    }
    bail!("{file}: not shown: {mismatch}")
}

/// Ends well where it is shown that the microcode of a file runs the source of another.
fn check_source(
    alloc: Global,
    source: &str,
    microcode: &str,
    source_bytes: &[u8],
    microcode_bytes: &[u8],
) -> Result<()> {
    match runs_source(alloc, source_bytes, microcode_bytes) {
        Ok(()) => Ok(()),
        Err(Refusal::NotShown(mismatch)) => {
            not_shown(alloc, microcode, source_bytes, microcode_bytes, mismatch)
        }
        Err(
            Refusal::Source {
                line: Some(line),
                fault,
            },
        ) => bail!("{source}: line {line}: {fault}"),
        Err(refusal @ Refusal::Source { .. }) => bail!("{source}: {refusal}"),
        Err(refusal) => bail!("{microcode}: {refusal}"),
    }
}

/// Ends well where the microcode of a file is for the datapath of another.
fn check_datapath(
    alloc: Global,
    microcode: &str,
    path: &str,
    microcode_bytes: &[u8],
    path_bytes: &[u8],
) -> Result<()> {
    match fits_datapath(alloc, microcode_bytes, path_bytes) {
        Ok(()) => Ok(()),
        Err(refusal @ PathRefusal::Path(_)) => bail!("{path}: {refusal}"),
        Err(refusal) => bail!("{microcode}: {refusal}"),
    }
}

/// Compares microcode with a source.
fn compare<R: Files + AllocGlobal>(rt: &R, source: &str, microcode: &str) -> Result<()> {
    let source_bytes = read(rt, source)?;
    let microcode_bytes = read(rt, microcode)?;
    check_source(
        rt.alloc(),
        source,
        microcode,
        &source_bytes,
        &microcode_bytes,
    )
}

/// The same, and with a datapath.
fn compare_on<R: Files + AllocGlobal>(
    rt: &R,
    source: &str,
    microcode: &str,
    path: &str,
) -> Result<()> {
    let source_bytes = read(rt, source)?;
    let microcode_bytes = read(rt, microcode)?;
    let path_bytes = read(rt, path)?;
    let alloc = rt.alloc();
    check_source(alloc, source, microcode, &source_bytes, &microcode_bytes)?;
    check_datapath(alloc, microcode, path, &microcode_bytes, &path_bytes)
}

/// Compares the files that the words name. `false`: they name no two or three.
fn same<R: Env + Files + AllocGlobal>(rt: &R) -> Result<bool> {
    let words: Vec<String> = env::args(rt)?.collect(rt.alloc())?;
    match words.as_slice() {
        [_, source, microcode] => compare(rt, source.as_str(), microcode.as_str())?,
        [_, source, microcode, path] => {
            compare_on(rt, source.as_str(), microcode.as_str(), path.as_str())?
        }
        _ => return Ok(false),
    }
    Ok(true)
}

fn main(rt: HostRuntime) -> ExitCode {
    match same(&rt) {
        Ok(true) => ExitCode::SUCCESS,
        Ok(false) => {
            let _ = eprintln!(rt; "{USAGE}");
            ExitCode::from(BAD_WORDS)
        }
        Err(error) => {
            let _ = eprintln!(rt; "silc_same: {error}");
            ExitCode::FAILURE
        }
    }
}
