//! `demo K N`: compiles a cascade of biquad sections, runs it, and prints what its output words come to.
ghost use Rattle.std.specs.Prelude.{◌≡◌, ◌≢◌, length, ◌+◌, ◌<◌, ◌≤◌, ◌^◌, ℤ, List, [], ◌∷◌, ◌++◌, IfOk, IfErr, IsOk, IsOkAnd};
ghost use Rattle.cycle_sim.specs.Microcode.{micro_of, IsSound};
ghost use Rattle.desk_core.specs.Desk.{FaultsNeverFall};
ghost use Rattle.demo_cascade.specs.Cascade as spec;
ghost use Rattle.silc.specs.Demo.{IsCascadeRun, IsDemoAnswer};
ghost use Rattle.plan_commands.specs.Refusals.{IsNoPlan};
ghost use Rattle.silc.specs.Private.Demonstrating.{IsCascadePlan, IsCascadeMachine, HasOneWord, RunsCascade, HasPutWords, HasTotals};
ghost use Rattle.silc_files.specs.Printing.{PrintsOnly};
ghost use Rattle.sample_commands.specs.Loaded.{IsFresh};
ghost use Rattle.silc.specs.declared.kept.Kept.TheVariants.{Nothing};

use crate::kept::Kept;
use cycle_sim::Machine;
use demo_cascade::{Totals, cascade_datapath, cascade_line, cascade_source, cascade_word};
use desk_core::Desk;
use lists::Bytes;
use plan_commands::{Planned, microcode_of, planned_of};
use sample_commands::machine_of;
use silc_files::{Input, print_whole};
use statuses::{Ending, Status};
use std::alloc::Global;

/// The plan of a cascade.
fn plan_cascade(alloc: Global, sections: u64) -> Result<Planned, Ending>
    requires { (1 ≤ sections) × (sections ≤ 32) }
    ensures ok { IfOk result (IsCascadePlan sections) }
    ensures err { IfErr result (λ ending.
        IsNoPlan (spec.cascade_source sections) (spec.cascade_datapath sections) ending.status) }
{
    let source = Input::Whole(cascade_source(alloc, sections)?);
    let datapath = Input::Whole(cascade_datapath(alloc, sections)?);
    planned_of(alloc, &source, &datapath)
}

/// The machine of a cascade's microcode, before its first cycle.
fn load_cascade(alloc: Global, sections: u64) -> Result<Machine, Ending>
    requires { (1 ≤ sections) × (sections ≤ 32) }
    ensures ok { IfOk result (IsCascadeMachine sections) }
    ensures err { IfErr result (λ ending.
        IsNoPlan (spec.cascade_source sections) (spec.cascade_datapath sections) ending.status) }
{
    let planned = plan_cascade(alloc, sections)?;
    let microcode = microcode_of(alloc, &planned)?;
    Ok(machine_of(alloc, &microcode)?)
}

/// The word of a row of one.
fn only_word(row: &[i64]) -> i64
    requires { length row.now ≡ 1 }
    ensures { row.now ≡ result ∷ [] }
{
    row[0]
}

/// Runs sample n, and gives the word that it puts.
fn run_sample(machine: &mut Machine, n: u64) -> Result<i64, Status>
    requires few { n < 2 ^ 32 }
    requires sound { IsSound machine.old.code }
    requires one_word { HasOneWord machine.old.code }
    requires stands { (words : List ℤ) × HasPutWords machine.old.code n machine.old words }
    requires runs { RunsCascade (micro_of machine.old.code) (n + 1) }
    ensures runs { IsOk result }
    ensures put { (words : List ℤ) → HasPutWords machine.old.code n machine.old words
        → IfOk result (λ word. HasPutWords machine.old.code (n + 1) machine.new (words ++ word ∷ [])) }
{
    let mut put = [0i64; 1];
    machine.sample(&[cascade_word(n)], &mut put)?;
    Ok(only_word(&put))
}

/// A machine after the samples of a cascade, and what its output words come to.
#[derive(Drop)]
struct Run {
    machine: Machine,
    totals: Totals,
}

/// Runs the samples of a cascade.
fn run_samples(mut machine: Machine, samples: u64) -> Result<Run, Status>
    requires few { samples ≤ 100000 }
    requires fresh { IsFresh machine }
    requires one_word { HasOneWord machine.code }
    requires runs { RunsCascade (micro_of machine.code) samples }
    ensures { IsOkAnd result (λ run. HasTotals machine.code samples run.machine run.totals) }
{
    let mut totals = Totals { sum: 0, last: 0 };
    for n in 0..samples {
        let word = run_sample(&mut machine, n)?;
        totals.sum += i128::from(word);
        totals.last = word;
    }
    Ok(Run { machine, totals })
}

/// A machine that ran a cascade, and the line on it.
#[derive(Drop)]
struct Demonstration {
    machine: Machine,
    line: Bytes,
}

/// Compiles a cascade and runs it, and makes the line.
fn make(alloc: Global, sections: u64, samples: u64) -> Result<Demonstration, Ending>
    requires sections { (1 ≤ sections) × (sections ≤ 32) }
    requires samples { samples ≤ 100000 }
    ensures ok { IfOk result (λ made. IsCascadeRun sections samples made.machine made.line) }
    ensures err { IfErr result (λ ending.
        IsNoPlan (spec.cascade_source sections) (spec.cascade_datapath sections) ending.status) }
{
    let machine = load_cascade(alloc, sections)?;
    let run = run_samples(machine, samples)?;
    let line = cascade_line(alloc, sections, samples, &run.totals)?;
    Ok(Demonstration {
        machine: run.machine,
        line,
    })
}

/// Carries out `demo`.
pub fn demo<D: Desk>(
    alloc: Global,
    desk: &mut D,
    sections: u64,
    samples: u64,
    kept: &mut Kept,
) -> Ending
    requires empty { kept.old ≡ Nothing }
    requires sections { (1 ≤ sections) × (sections ≤ 32) }
    requires samples { samples ≤ 100000 }
    ensures faults { FaultsNeverFall (D.view desk.old) (D.view desk.new) }
    ensures answer { IsDemoAnswer sections samples (D.view desk.old) (D.view desk.new) kept.new result.status }
    ensures only { PrintsOnly (D.view desk.old) (D.view desk.new) }
    ensures nothing_kept { result.status ≢ Status.Done → kept.new ≡ Nothing }
{
    match make(alloc, sections, samples) {
        Ok(made) => match print_whole(desk, &made.line) {
            Ok(()) => {
                *kept = Kept::One(made.machine);
                Ending::from(Status::Done)
            }
            Err(failed) => Ending::from(failed),
        },
        Err(ending) => ending,
    }
}
