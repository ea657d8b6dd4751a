//! Prints what a layer of the compiler answers for a file, one fact a line.
#![tactic(auto)]

mod conflicts;
mod contents;
mod definitions;
mod elements;
mod expressions;
mod flat;
mod graph;
mod guarded;
mod image;
mod lifetimes;
mod manifests;
mod names;
mod operation_names;
mod origins;
mod page;
mod path;
mod plans;
mod repeat;
mod rows;
mod source;
mod text;
mod tokens;
mod trace;
mod tree;
mod types;
mod values;
mod words;

use crate::guarded::stages_named;
use crate::page::{Page, Refused};
use crate::plans::plan_call_named;
use crate::repeat::call_named;
use crate::trace::{Program, Span, Staged, View};
use anyhow::{Context, Result};
use std::process::ExitCode;
use std::rt::{Env, Files};
use std::{env, fs};

const USAGE: &str =
    "usage: silc_show tokens|tree|text|names|elements|types|graph SRC | origins SRC DP | values SRC SAMPLES \
     | manifests|words TABLE | image MIC | guarded SRC DP S | trace MIC SAMPLES [FROM TO [ORDER]] \
     | trace SRC DP S SAMPLES [FROM TO [ORDER]] | datapath DP \
     | rows WIDTHS SAMPLES | repeat CALL TURNS FILE | repeat assign|plan|stages-S|allot|assemble TURNS SRC DP";

const BAD_WORDS: u8 = 2;

fn read<R: Files + AllocGlobal>(rt: &R, file: &str) -> Result<Vec<u8>> {
    fs::read(rt, file).context(format_args!("{file} can't be read"))
}

fn read_both<R: Files + AllocGlobal>(rt: &R, one: &str, other: &str) -> Result<(Vec<u8>, Vec<u8>)> {
    let one = read(rt, one)?;
    Ok((one, read(rt, other)?))
}

/// A layer, which answers for a source, a table, a microcode file or a datapath file.
#[derive(Clone, Copy)]
enum Layer {
    Tokens,
    Tree,
    Text,
    Names,
    Elements,
    Types,
    Graph,
    Manifests,
    Words,
    Image,
    Datapath,
}

fn layer_called(word: &str) -> Option<Layer> {
    match word {
        "tokens" => Some(Layer::Tokens),
        "tree" => Some(Layer::Tree),
        "text" => Some(Layer::Text),
        "names" => Some(Layer::Names),
        "elements" => Some(Layer::Elements),
        "types" => Some(Layer::Types),
        "graph" => Some(Layer::Graph),
        "manifests" => Some(Layer::Manifests),
        "words" => Some(Layer::Words),
        "image" => Some(Layer::Image),
        "datapath" => Some(Layer::Datapath),
        _ => None,
    }
}

/// Puts what a layer answers for a file with these bytes.
fn put_layer(page: &mut Page, layer: Layer, bytes: &[u8]) -> Result<(), Refused> {
    match layer {
        Layer::Tokens => tokens::put(page, bytes),
        Layer::Tree => tree::put(page, bytes),
        Layer::Text => text::put(page, bytes),
        Layer::Names => names::put(page, bytes),
        Layer::Elements => elements::put(page, bytes),
        Layer::Types => types::put(page, bytes),
        Layer::Graph => graph::put(page, bytes),
        Layer::Manifests => manifests::put(page, bytes),
        Layer::Words => words::put(page, bytes),
        Layer::Image => image::put(page, bytes),
        Layer::Datapath => path::put(page, bytes),
    }
}

/// Puts what a layer answers for a file. `false`: no layer has this name.
fn show_layer<R: Files + AllocGlobal>(
    rt: &R,
    page: &mut Page,
    layer: &str,
    words: &[String],
) -> Result<bool> {
    let (Some(layer), [file]) = (layer_called(layer), words) else {
        return Ok(false);
    };
    let bytes = read(rt, file.as_str())?;
    let _ = put_layer(page, layer, &bytes);
    Ok(true)
}

/// Puts where the nodes of a source that are planned for a datapath come from.
fn show_origins<R: Files + AllocGlobal>(rt: &R, page: &mut Page, words: &[String]) -> Result<bool> {
    let [source, path] = words else {
        return Ok(false);
    };
    let (source, path) = read_both(rt, source.as_str(), path.as_str())?;
    let _ = origins::put(page, &source, &path);
    Ok(true)
}

/// Puts the guarded image of a source on a datapath. `false`: there is no such number of stages.
fn show_guarded<R: Files + AllocGlobal>(rt: &R, page: &mut Page, words: &[String]) -> Result<bool> {
    let [source, path, stages] = words else {
        return Ok(false);
    };
    let Some(stages) = stages_named(stages.as_str()) else {
        return Ok(false);
    };
    let (source, path) = read_both(rt, source.as_str(), path.as_str())?;
    let _ = guarded::put(page, &source, &path, stages);
    Ok(true)
}

/// Puts the words of all elements of a source over the rows of a sample file.
fn show_values<R: Files + AllocGlobal>(rt: &R, page: &mut Page, words: &[String]) -> Result<bool> {
    let [source, samples] = words else {
        return Ok(false);
    };
    let (source, samples) = read_both(rt, source.as_str(), samples.as_str())?;
    let _ = values::put(page, &source, &samples);
    Ok(true)
}

/// Puts the rows of a sample file. `false`: these are no widths.
fn show_rows<R: Files + AllocGlobal>(rt: &R, page: &mut Page, words: &[String]) -> Result<bool> {
    let [widths, file] = words else {
        return Ok(false);
    };
    let Some(channels) = rows::channels(page.alloc, widths.as_str())? else {
        return Ok(false);
    };
    let samples = read(rt, file.as_str())?;
    let _ = rows::put(page, &channels, &samples);
    Ok(true)
}

/// The cycles from one number up to another. `None`: these are no numbers.
fn span(from: &str, to: &str) -> Option<Span> {
    match (from.parse::<u64>(), to.parse::<u64>()) {
        (Ok(from), Ok(to)) => Some(Span { from, to }),
        _ => None,
    }
}

/// What is shown of a run. `None`: there are no such cycles.
fn view_of(words: &[String]) -> Option<View<'_>> {
    let (span, order) = match words {
        [] => (Span::whole(), None),
        [from, to] => (span(from.as_str(), to.as_str())?, None),
        [from, to, order] => (span(from.as_str(), to.as_str())?, Some(order.as_str())),
        _ => return None,
    };
    Some(View { span, order })
}

/// Shows a run of microcode over the rows of a sample file, cycle by cycle. `false`: there are no such cycles, or the
/// units have no such order.
fn show_trace<R: Files + Print + AllocGlobal>(
    rt: &R,
    page: &mut Page,
    words: &[String],
) -> Result<bool> {
    let [mic, samples, view @ ..] = words else {
        return Ok(false);
    };
    let Some(view) = view_of(view) else {
        return Ok(false);
    };
    let (mic, samples) = read_both(rt, mic.as_str(), samples.as_str())?;
    trace::print(rt, page, Program::Microcode(&mic), &samples, view)
}

/// Shows a run of a source over stages in the same way. `false`: there is no such number of stages either.
fn show_staged_trace<R: Files + Print + AllocGlobal>(
    rt: &R,
    page: &mut Page,
    words: &[String],
) -> Result<bool> {
    let [source, path, stages, samples, view @ ..] = words else {
        return Ok(false);
    };
    let (Some(stages), Some(view)) = (stages_named(stages.as_str()), view_of(view)) else {
        return Ok(false);
    };
    let (source, path) = read_both(rt, source.as_str(), path.as_str())?;
    let samples = read(rt, samples.as_str())?;
    let staged = Staged {
        source: &source,
        path: &path,
        stages,
    };
    trace::print(rt, page, Program::Staged(staged), &samples, view)
}

/// Whether the words of a trace are those of a source over stages: four with no number at their end, or more than a run
/// of microcode has.
fn names_stages(words: &[String]) -> bool {
    match words {
        [_, _, _, last] => last.as_str().parse::<u64>().is_err(),
        _ => words.len() > 5,
    }
}

/// Puts what the turns of a call add up to. `false`: no call has this name, or the turns are no number.
fn show_repeat<R: Files + AllocGlobal>(rt: &R, page: &mut Page, words: &[String]) -> Result<bool> {
    let [call, turns, file] = words else {
        return Ok(false);
    };
    let (Some(call), Ok(turns)) = (call_named(call.as_str()), turns.as_str().parse::<u32>()) else {
        return Ok(false);
    };
    let bytes = read(rt, file.as_str())?;
    let _ = repeat::put(page, call, turns, &bytes);
    Ok(true)
}

/// Puts what the turns of a call on a source and a datapath add up to. `false`: no such call has this name, or the
/// turns are no number.
fn show_plans<R: Files + AllocGlobal>(rt: &R, page: &mut Page, words: &[String]) -> Result<bool> {
    let [call, turns, source, path] = words else {
        return Ok(false);
    };
    let (Some(call), Ok(turns)) = (
        plan_call_named(call.as_str()),
        turns.as_str().parse::<u32>(),
    ) else {
        return Ok(false);
    };
    let (source, path) = read_both(rt, source.as_str(), path.as_str())?;
    let _ = plans::put(page, call, turns, &source, &path);
    Ok(true)
}

/// Shows what the words ask for. `false`: they ask for nothing that there is.
fn show<R: Env + Files + Print + AllocGlobal>(rt: &R) -> Result<bool> {
    let words: Vec<String> = env::args(rt)?.collect(rt.alloc())?;
    let [_, verb, words @ ..] = words.as_slice() else {
        return Ok(false);
    };
    let mut page = Page::new(rt.alloc());
    let is_asked = match verb.as_str() {
        "origins" => show_origins(rt, &mut page, words),
        "guarded" => show_guarded(rt, &mut page, words),
        "values" => show_values(rt, &mut page, words),
        "rows" => show_rows(rt, &mut page, words),
        "trace" if names_stages(words) => show_staged_trace(rt, &mut page, words),
        "trace" => show_trace(rt, &mut page, words),
        "repeat" if words.len() == 3 => show_repeat(rt, &mut page, words),
        "repeat" => show_plans(rt, &mut page, words),
        layer => show_layer(rt, &mut page, layer, words),
    };
    let is_asked = is_asked?;
    page.print(rt)?;
    Ok(is_asked)
}

fn main(rt: HostRuntime) -> ExitCode {
    match show(&rt) {
        Ok(true) => ExitCode::SUCCESS,
        Ok(false) => {
            let _ = eprintln!(rt; "{USAGE}");
            ExitCode::from(BAD_WORDS)
        }
        Err(error) => {
            let _ = eprintln!(rt; "silc_show: {error}");
            ExitCode::FAILURE
        }
    }
}
