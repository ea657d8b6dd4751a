//! What runs rows of samples, one a step.
ghost use Rattle.std.specs.Prelude.{◌≡◌, ◌<◌, ◌≤◌, ◌+◌, ◌^◌, ℕ, ℤ, List, [], ◌∷◌, ◌++◌, length, OnOk, IfErr};
ghost use Rattle.lists.specs.Rows.{Rows};
ghost use Rattle.micro_image.specs.declared.conflict.Conflict.{Conflict as ConflictValue};

use micro_image::Conflict;

/// A machine or an evaluator: it takes a row of input words and puts a row of output words, or meets a conflict.
pub trait Engine {
    /// The row is one of its input rows.
    ghost accepts: { Self → List ℤ → Type 0 };

    /// How many output words it has.
    ghost width: { Self → ℕ };

    /// How many samples it ran, where it can run only so many; else 0.
    ghost age: { Self → ℕ };

    /// It has no conflict, and is at the start of a sample.
    ghost ready: { Self → Type 0 };

    /// They run the same microprogram or graph.
    ghost same: { Self → Self → Type 0 };

    /// From the first it becomes the second by running these rows, and it puts these.
    ghost ran: { Self → Rows → Rows → Self → Type 0 };

    /// Over these rows it puts these.
    ghost gives: { Self → Rows → Rows → Type 0 };

    /// In the last of these rows the first meets the conflict first, and the second keeps it.
    ghost meets: { Self → Rows → ConflictValue → Self → Type 0 };

    /// How many output words there are.
    fn outs(&self) -> usize
        requires { ready self.now }
        ensures outs { result ≡ width self.now }
        ensures most { result ≤ 16 }
        ensures some { 1 ≤ result };

    /// Runs a sample.
    fn step(&mut self, row: &[i64], put: &mut [i64]) -> Result<(), Conflict>
        requires ready { ready self.old }
        requires young { age self.old < 2 ^ 48 }
        requires row { accepts self.old row.now }
        requires put { length put.old ≡ width self.old }
        ensures same { same self.old self.new }
        ensures ready { OnOk result (ready self.new) }
        ensures age { OnOk result (age self.new ≤ age self.old + 1) }
        ensures accepts { OnOk result ((other : List ℤ) → accepts self.old other → accepts self.new other) }
        ensures width { width self.new ≡ width self.old }
        ensures ran { OnOk result (ran self.old (row.now ∷ []) (put.new ∷ []) self.new) }
        ensures meets { IfErr result (λ conflict. meets self.old (row.now ∷ []) conflict self.new) };

    ghost same_self: { (engine : Self) → same engine engine };

    ghost same_on: { (old mid new : Self) → same old mid → same mid new → same old new };

    ghost none_ran: { (engine : Self) → ran engine [] [] engine };

    ghost ran_on: { (old mid new : Self) (rows puts more others : Rows)
        → ran old rows puts mid → ran mid more others new → ran old (rows ++ more) (puts ++ others) new };

    ghost ran_gives: { (old new : Self) (rows puts : Rows) → ran old rows puts new → gives old rows puts };

    ghost meets_later: { (old mid new : Self) (rows puts more : Rows) (conflict : ConflictValue)
        → ran old rows puts mid → meets mid more conflict new → meets old (rows ++ more) conflict new };
}
