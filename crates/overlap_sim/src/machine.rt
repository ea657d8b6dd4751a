//! The machine of a guarded image.
ghost use Rattle.std.specs.Prelude.{◌≡◌, ◌⊎◌, ◌+◌, ◌/◌, ◌<◌, ◌^◌, [], ◌∷◌, length, None, Some, Err, IsSome, IfSome, IfOk, IfErr, OnOk, OnErr};
ghost use Rattle.std.specs.List.{All};
ghost use Rattle.micro_image.specs.Run.{Stands};
ghost use Rattle.micro_image.specs.Valid.{IsValid};
ghost use Rattle.cycle_sim.specs.Machine.{IsOperand, state_of, sample_rows, IsAtSample, RanRows, MeetsConflictInSample, StoppedAt, IsOutputRow, AreLatches};
ghost use Rattle.cycle_sim.specs.Microcode.{micro_of, inputs_of, code_after, IsSound};
ghost use Rattle.overlap_sim.specs.Guarded.{of_guarded, unguarded};
ghost use Rattle.overlap_sim.specs.Private.Stages.{AllUpTo};

use crate::guarded::Guarded;
use crate::prologue::{last_stage, prologue, whole_words};
use cycle_sim::Machine;
use lists::List;
use micro_image::{Conflict, Image, Word};
use overlap_plan::GuardFault;
use std::alloc::Global;
use std::marker::Model;

/// A machine that runs samples that overlap, by a guarded image. Callers see it as they see a machine of an image: as
/// what it obeys, the number of its cycle, what its places hold, what is in flight, and its conflict.
#[derive(Drop)]
pub struct GuardedMachine {
    pub(crate) machine: Machine,
}

impl Model for GuardedMachine {
    ghost use Rattle.cycle_sim.specs.Machine.{Snapshot};

    ghost Value = { Snapshot };

    ghost view = { λ guarded. guarded.machine };
}

/// What a guarded image comes to, for a machine that knows no stages.
#[derive(Drop)]
pub struct Unguarded {
    /// The words of the first cycles, each of which leaves out what is not due yet.
    pub prologue: List<Word>,
    /// The image without the stages, whose words come from then on.
    pub image: Image,
}

/// The image without the stages.
fn whole_image(alloc: Global, guarded: Guarded, last: u8) -> Result<Image, GuardFault>
    requires { AllUpTo last guarded.words }
    ensures { IfOk result (λ image. image ≡ unguarded guarded) }
{
    let words = whole_words(alloc, &guarded.words, last)?;
    Ok(Image {
        period: guarded.period,
        unroll: guarded.unroll,
        inputs: guarded.inputs,
        outs: guarded.outs,
        units: guarded.units,
        buses: guarded.buses,
        words,
    })
}

/// What a machine obeys of a guarded image, which without its stages is a valid image: for so many samples as its
/// latest stage says words of their own, and after these all of each word. Page `docs/MACHINE.md`, "Guarded words".
///
/// # Errors
///
/// `Memory` where no memory is left. The guarded image is dropped then.
pub fn unguard(alloc: Global, guarded: Guarded) -> Result<Unguarded, GuardFault>
    requires { IsValid (unguarded guarded) }
    ensures sound { IfOk result (λ parts. IsSound (code_after parts.prologue parts.image)) }
    ensures obeys { IfOk result (λ parts. micro_of (code_after parts.prologue parts.image) ≡ of_guarded guarded) }
    ensures inputs { IfOk result (λ parts. parts.image.inputs ≡ guarded.inputs) }
{
    let last = last_stage(&guarded.words);
    let prologue = prologue(alloc, &guarded, last)?;
    let image = whole_image(alloc, guarded, last)?;
    Ok(Unguarded { prologue, image })
}

impl GuardedMachine {
    /// A machine before the first cycle of a guarded image, which without its stages is a valid image.
    ///
    /// # Errors
    ///
    /// `Memory` where no memory is left. The guarded image is dropped then.
    pub fn load(alloc: Global, guarded: Guarded) -> Result<GuardedMachine, GuardFault>
        requires { IsValid (unguarded guarded) }
        ensures obeys { IfOk result (λ machine. micro_of machine.code ≡ of_guarded guarded) }
        ensures inputs { IfOk result (λ machine. inputs_of machine.code ≡ guarded.inputs) }
        ensures stands { IfOk result (λ machine. Stands (state_of machine) (of_guarded guarded) []) }
    {
        let parts = unguard(alloc, guarded)?;
        match Machine::load_after(alloc, parts.prologue, parts.image) {
            Ok(machine) => Ok(GuardedMachine { machine }),
            Err(_) => Err(GuardFault::Memory),
        }
    }

    /// Runs the cycles of a sample with a row of input words and puts its row of output words. At a conflict the
    /// machine stops at the start of its cycle, nothing is put, and every later call answers the same.
    pub fn sample(&mut self, row: &[i64], put: &mut [i64]) -> Result<(), Conflict>
        requires row { length row.now ≡ length (inputs_of self.old.code) }
        requires words { All IsOperand row.now }
        requires put { length put.old ≡ (micro_of self.old.code).outs }
        requires ready { IsSome self.old.conflict ⊎ IsAtSample self.old }
        ensures code { self.new.code ≡ self.old.code }
        ensures cycle { OnOk result (self.new.cycle ≡ self.old.cycle + (micro_of self.old.code).period) }
        ensures running { OnOk result (self.new.conflict ≡ None) }
        ensures stands { OnOk result (RanRows self.old self.new (sample_rows (micro_of self.old.code) row.now)) }
        ensures puts { OnOk result (IsOutputRow self.old row.now put.new) }
        ensures conflict { IfErr result (MeetsConflictInSample self.old row.now) }
        ensures stopped { IfErr result (StoppedAt self.old self.new row.now) }
        ensures stays { IfErr result (λ conflict. self.new.conflict ≡ Some conflict) }
        ensures kept { IfSome self.old.conflict (λ conflict. (result ≡ Err conflict) × (self.new ≡ self.old)) }
        ensures put_kept { OnErr result (put.new ≡ put.old) }
    {
        self.machine.sample(row, put)
    }

    /// How many samples were run.
    pub fn samples(&self) -> u64
        ensures { result ≡ self.now.cycle / (micro_of self.now.code).period }
    {
        self.machine.samples()
    }

    /// The width of each input word in bits, 0 for a truth value.
    pub fn inputs(&self) -> &[u8]
        ensures widths { result.now ≡ inputs_of self.now.code }
        ensures sound { IsSound self.now.code }
    {
        self.machine.inputs()
    }

    /// How many output words there are.
    pub fn outs(&self) -> usize
        ensures count { result ≡ (micro_of self.now.code).outs }
        ensures sound { IsSound self.now.code }
    {
        self.machine.outs()
    }

    /// Puts what the output latches hold at the start of the cycle that comes.
    pub fn latches(&self, put: &mut [i64])
        requires { length put.old ≡ (micro_of self.now.code).outs }
        ensures { AreLatches self.now put.new }
    {
        self.machine.latches(put)
    }
}
