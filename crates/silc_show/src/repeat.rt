//! One call repeated on one file, for the scripts under `bench/` to measure, and the sum of what its turns give.

ghost use Rattle.std.specs.Prelude.{◌≡◌, ◌<◌, ◌^◌, ℤ, pos, length, All, IfOk};
ghost use Rattle.std.specs.List.{AllZip};
ghost use Rattle.cycle_sim.specs.Machine.{IsOperand};
ghost use Rattle.cycle_sim.specs.Microcode.{inputs_of};
ghost use Rattle.micro_image.specs.Valid.{IsValid};
ghost use Rattle.fault_order.specs.Ranked.{IsClear};
ghost use Rattle.signal_graph.specs.Rules.{IsInType};
ghost use Rattle.silc_show.specs.Trace.{IsMachineOf};
ghost use Rattle.silage_syntax.specs.Tree.{view};
ghost use Rattle.name_rules.specs.NameFaults.{name_faults, IsMain};
ghost use Rattle.name_rules.specs.TopNames.{top_names};
ghost use Rattle.element_rules.specs.Signatures.{HaveResults};
ghost use Rattle.type_rules.specs.Numbers.{AreNumbersShort};

use crate::elements::{elements_of, expanded};
use crate::graph::graph_of;
use crate::image::{bytes_of, image_of};
use crate::lifetimes::allot_path;
use crate::names::names_of;
use crate::page::{Page, Refused};
use crate::path::datapath_of;
use crate::source::{parsed, program_of, tokens_of};
use crate::types::typed;
use cycle_sim::{Conflict, Machine};
use equation_eval::{EvalFault, Evaluator};
use fix_word::SigType;
use micro_image::Image;
use name_rules::Names;
use silage_tree::Program;
use std::alloc::{AllocError, Global};

/// A call of which nothing is ready before the turns, and what is added up over these.
#[derive(Clone, Copy)]
pub enum FileCall {
    /// From bytes to an image: its words.
    Decode,
    /// From a source to tokens: these.
    Lex,
    /// From a source to instances and elements: the elements.
    Front,
    /// From a source to its graph: the nodes.
    Graph,
    /// From a datapath file to its datapath: the units.
    Datapath,
}

/// A call on a program and its names, and what is added up over its turns.
#[derive(Clone, Copy)]
pub enum ProgramCall {
    /// To instances and elements: the elements.
    Elements,
    /// To the typed form: the functions.
    Types,
}

/// A call, and what is added up over its turns.
#[derive(Clone, Copy)]
pub enum Call {
    OnFile(FileCall),
    OnProgram(ProgramCall),
    /// From an image to bytes: these.
    Encode,
    /// One cycle a turn: the samples that ran.
    Clock,
    /// From tokens to a program: its tables and functions.
    Parse,
    /// From a program to its names: the tables and functions before `main`.
    Names,
    /// One sample a turn, with 0 for each input word: the output words of the last one that are 0.
    Step,
    /// From short lifetimes at a port of a datapath to their registers: the lifetimes.
    Allot,
}

pub fn call_named(word: &str) -> Option<Call> {
    match word {
        "decode" => Some(Call::OnFile(FileCall::Decode)),
        "encode" => Some(Call::Encode),
        "clock" => Some(Call::Clock),
        "lex" => Some(Call::OnFile(FileCall::Lex)),
        "parse" => Some(Call::Parse),
        "names" => Some(Call::Names),
        "elements" => Some(Call::OnProgram(ProgramCall::Elements)),
        "types" => Some(Call::OnProgram(ProgramCall::Types)),
        "front" => Some(Call::OnFile(FileCall::Front)),
        "graph" => Some(Call::OnFile(FileCall::Graph)),
        "step" => Some(Call::Step),
        "datapath" => Some(Call::OnFile(FileCall::Datapath)),
        "allot" => Some(Call::Allot),
        _ => None,
    }
}

/// What one turn of a call on a file gives.
fn file_turn(page: &mut Page, call: FileCall, bytes: &[u8]) -> Result<usize, Refused> {
    match call {
        FileCall::Decode => Ok(image_of(page, bytes)?.words.len()),
        FileCall::Lex => Ok(tokens_of(page, bytes)?.len()),
        FileCall::Front => Ok(elements_of(page, bytes)?.elements.len()),
        FileCall::Graph => Ok(graph_of(page, bytes)?.nodes.len()),
        FileCall::Datapath => Ok(datapath_of(page, bytes)?.units.len()),
    }
}

fn file_turns(page: &mut Page, call: FileCall, turns: u32, bytes: &[u8]) -> Result<u64, Refused> {
    let mut count = 0u64;
    for _ in 0..turns {
        count = count.wrapping_add(file_turn(page, call, bytes)? as u64);
    }
    Ok(count)
}

fn encode_again(page: &mut Page, turns: u32, image: &Image) -> Result<u64, Refused>
    requires { IsValid image.now }
{
    let mut written = 0u64;
    for _ in 0..turns {
        written = written.wrapping_add(bytes_of(page, image)?.len() as u64);
    }
    Ok(written)
}

fn encode_image(page: &mut Page, turns: u32, bytes: &[u8]) -> Result<u64, Refused> {
    let image = image_of(page, bytes)?;
    encode_again(page, turns, &image)
}

/// The machine before its first cycle.
pub fn machine_of(page: &mut Page, bytes: &[u8]) -> Result<Machine, Refused>
    ensures image { IfOk result (IsMachineOf bytes.now) }
    ensures cycle { IfOk result (λ machine. machine.cycle ≡ 0) }
{
    match Machine::load(page.alloc, image_of(page, bytes)?) {
        Ok(machine) => Ok(machine),
        Err(_) => Err(page.cut()),
    }
}

/// A row of input words.
fn row(alloc: Global, machine: &Machine) -> Result<Vec<i64>, AllocError>
    ensures { IfOk result (λ row. (length row.items ≡ length (inputs_of machine.now.code)) × All IsOperand row.items) }
{
    vec![in alloc; 1i64; machine.inputs().len()]
}

fn clock_again(machine: &mut Machine, cycles: u32, row: &[i64]) -> Result<(), Conflict>
    requires row { length row.now ≡ length (inputs_of machine.old.code) }
    requires words { All IsOperand row.now }
    requires start { machine.old.cycle ≡ 0 }
{
    for _turn in 0..cycles {
        machine.clock(row)?;
    }
    Ok(())
}

fn clock_machine(page: &mut Page, cycles: u32, machine: &mut Machine) -> Result<u64, Refused>
    requires { machine.old.cycle ≡ 0 }
{
    let Ok(row) = row(page.alloc, machine) else {
        return Err(page.cut());
    };
    match clock_again(machine, cycles, &row) {
        Ok(()) => Ok(machine.samples()),
        Err(conflict) => Err(page.refuse(&conflict)),
    }
}

fn clock_image(page: &mut Page, cycles: u32, bytes: &[u8]) -> Result<u64, Refused> {
    let mut machine = machine_of(page, bytes)?;
    clock_machine(page, cycles, &mut machine)
}

fn parse_again(page: &mut Page, turns: u32, source: &[u8]) -> Result<u64, Refused> {
    let tokens = tokens_of(page, source)?;
    let mut tops = 0u64;
    for _ in 0..turns {
        tops = tops.wrapping_add(parsed(page, source, &tokens)?.tops.len() as u64);
    }
    Ok(tops)
}

fn names_again(page: &mut Page, turns: u32, source: &[u8]) -> Result<u64, Refused> {
    let program = program_of(page, source)?;
    let mut before = 0u64;
    for _ in 0..turns {
        before = before.wrapping_add(u64::from(names_of(page, source, &program)?.main));
    }
    Ok(before)
}

/// What one turn of a call on a program and its names gives.
fn program_turn(
    page: &mut Page,
    call: ProgramCall,
    source: &[u8],
    program: &Program,
    names: &Names,
) -> Result<usize, Refused>
    requires clear { IsClear (name_faults (view program.now)) }
    requires tops { names.now.tops ≡ top_names (view program.now) }
    requires main { IsMain (view program.now) names.now.main }
    requires few { length (view program.now).tops < 2 ^ 32 }
    requires numbers { AreNumbersShort (view program.now) }
    requires results { HaveResults (view program.now) }
{
    match call {
        ProgramCall::Elements => Ok(expanded(page, source, program, names)?.elements.len()),
        ProgramCall::Types => Ok(typed(page, source, program, names)?.funcs.len()),
    }
}

fn program_turns(
    page: &mut Page,
    call: ProgramCall,
    turns: u32,
    source: &[u8],
    program: &Program,
    names: &Names,
) -> Result<u64, Refused>
    requires clear { IsClear (name_faults (view program.now)) }
    requires tops { names.now.tops ≡ top_names (view program.now) }
    requires main { IsMain (view program.now) names.now.main }
    requires few { length (view program.now).tops < 2 ^ 32 }
    requires numbers { AreNumbersShort (view program.now) }
    requires results { HaveResults (view program.now) }
{
    let mut count = 0u64;
    for _ in 0..turns {
        count = count.wrapping_add(program_turn(page, call, source, program, names)? as u64);
    }
    Ok(count)
}

fn name_program(
    page: &mut Page,
    call: ProgramCall,
    turns: u32,
    source: &[u8],
) -> Result<u64, Refused> {
    let program = program_of(page, source)?;
    let names = names_of(page, source, &program)?;
    program_turns(page, call, turns, source, &program, &names)
}

fn evaluator_of(page: &mut Page, source: &[u8]) -> Result<Evaluator, Refused> {
    let graph = graph_of(page, source)?;
    match Evaluator::new(page.alloc, &graph) {
        Ok(evaluator) => Ok(evaluator),
        Err(EvalFault::Memory) => Err(page.cut()),
    }
}

/// This many zeros.
fn zeros(alloc: Global, count: usize) -> Result<Vec<i64>, AllocError>
    ensures count { IfOk result (λ row. length row.items ≡ count) }
    ensures each { IfOk result (λ row. All (λ (z : ℤ). z ≡ pos 0) row.items) }
{
    vec![in alloc; 0i64; count]
}

/// 0 for each word, which is in the range of each type.
#[tactic(auto, using(crate::proofs::ZeroRows::zeros_fit))]
fn zero_row(alloc: Global, types: &[SigType]) -> Result<Vec<i64>, AllocError>
    ensures { IfOk result (λ row. AllZip IsInType types.now row.items) }
{
    zeros(alloc, types.len())
}

fn step_again(evaluator: &mut Evaluator, turns: u32, row: &[i64], put: &mut [i64])
    requires row { AllZip IsInType evaluator.old.graph.inputs row.now }
    requires put { length put.old ≡ evaluator.old.graph.outs }
{
    for _turn in 0..turns {
        evaluator.step(row, put);
    }
}

fn zeros_in(words: &[i64]) -> u64 {
    let mut count = 0u64;
    for word in words {
        count = count.wrapping_add(u64::from(*word == 0));
    }
    count
}

fn step_rows(alloc: Global, turns: u32, evaluator: &mut Evaluator) -> Result<u64, AllocError> {
    let row = zero_row(alloc, evaluator.inputs())?;
    let mut put = zeros(alloc, evaluator.outs())?;
    step_again(evaluator, turns, &row, &mut put);
    Ok(zeros_in(&put))
}

fn step_source(page: &mut Page, turns: u32, source: &[u8]) -> Result<u64, Refused> {
    let mut evaluator = evaluator_of(page, source)?;
    match step_rows(page.alloc, turns, &mut evaluator) {
        Ok(word) => Ok(word),
        Err(_) => Err(page.cut()),
    }
}

/// Puts what the turns of a call on a file add up to.
pub fn put(page: &mut Page, call: Call, turns: u32, bytes: &[u8]) -> Result<(), Refused> {
    let sum = match call {
        Call::OnFile(call) => file_turns(page, call, turns, bytes),
        Call::OnProgram(call) => name_program(page, call, turns, bytes),
        Call::Encode => encode_image(page, turns, bytes),
        Call::Clock => clock_image(page, turns, bytes),
        Call::Parse => parse_again(page, turns, bytes),
        Call::Names => names_again(page, turns, bytes),
        Call::Step => step_source(page, turns, bytes),
        Call::Allot => allot_path(page, turns, bytes),
    };
    page.number("", sum?);
    page.end();
    Ok(())
}
