//! The parts of a guarded word that are obeyed in a sample.
ghost use Rattle.std.specs.Prelude.{◌≡◌, IfOk, OnOk};
ghost use Rattle.overlap_sim.specs.Guarded.{due, obeyed};

use crate::fault::GuardFault;
use crate::guarded::{GuardedWord, Staged};
use lists::List;
use micro_image::{Enable, Enables, Issue, PortRegisters, Take, Takes, Word};
use std::alloc::Global;

/// A copy of an issue.
fn copy_of(alloc: Global, issue: &Issue) -> Result<Issue, GuardFault>
    ensures { IfOk result (λ copy. copy ≡ issue.now) }
{
    Ok(Issue {
        unit: issue.unit,
        op: issue.op,
        fmt: issue.fmt,
        arg: issue.arg,
        regs: PortRegisters::from_slice(alloc, issue.regs.as_slice())?,
    })
}

fn due_issues(
    alloc: Global,
    sample: usize,
    parts: &List<Staged<Issue>>,
) -> Result<List<Issue>, GuardFault>
    ensures { IfOk result (λ issues. issues ≡ due sample parts.now) }
{
    let mut issues = List::new(alloc);
    for staged in parts.iter() {
        if usize::from(staged.stage) <= sample {
            issues.push(copy_of(alloc, &staged.part)?)?;
        }
    }
    Ok(issues)
}

fn due_enables(
    alloc: Global,
    sample: usize,
    parts: &List<Staged<Enable>>,
) -> Result<Enables, GuardFault>
    ensures { IfOk result (λ enables. enables ≡ due sample parts.now) }
{
    let mut enables = Enables::new(alloc);
    for staged in parts.iter() {
        if usize::from(staged.stage) <= sample {
            enables.push(staged.part)?;
        }
    }
    Ok(enables)
}

fn due_takes(alloc: Global, sample: usize, parts: &List<Staged<Take>>) -> Result<Takes, GuardFault>
    ensures { IfOk result (λ takes. takes ≡ due sample parts.now) }
{
    let mut takes = Takes::new(alloc);
    for staged in parts.iter() {
        if usize::from(staged.stage) <= sample {
            takes.push(staged.part)?;
        }
    }
    Ok(takes)
}

/// What a machine obeys of the word in a sample.
pub(crate) fn obeyed(alloc: Global, sample: usize, word: &GuardedWord) -> Result<Word, GuardFault>
    ensures { IfOk result (λ obeyed_word. obeyed_word ≡ obeyed sample word.now) }
{
    Ok(Word {
        issues: due_issues(alloc, sample, &word.issues)?,
        enables: due_enables(alloc, sample, &word.enables)?,
        takes: due_takes(alloc, sample, &word.takes)?,
    })
}
