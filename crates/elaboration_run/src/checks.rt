//! The values of manifest constants of actions in a turn of the loops.

ghost use Rattle.std.specs.Prelude.{◌≡◌, ◌-◌, ◌<◌, ◌^◌, length, IfOk};
ghost use Rattle.element_rules.specs.ElementRules as rules;
ghost use Rattle.elaboration_code.specs.Numbers.{number_value};
ghost use Rattle.elaboration_code.specs.Loops.{IsInside, AreInside};
ghost use Rattle.elaboration_code.specs.Private.Strides.{size_of, AreStrided};
ghost use Rattle.elaboration_code.specs.Actions as run;
ghost use Rattle.elaboration_code.specs.Actions.{Gives, GivesValue, value_or, check_of, index_of, place_of};
ghost use Rattle.elaboration_code.specs.Actions.{element_of, sample_of, bound_of};

use elaboration_code::{Bound, Check, Number, Sample, Subscript, Target};
use element_rules::PlacedFault;

/// The nearest sample before sample 0 that may have an initial value.
const MIN_SAMPLE: u32 = 1;

/// The farthest one.
const MAX_SAMPLE: u32 = 1023;

/// The value of a check's number is there and in its range.
pub(crate) fn run_check(
    check: &Check,
    turns: &[i32],
    stack: &mut Vec<i32>,
) -> Result<(), PlacedFault>
    requires { IsInside (length turns.now) check.now.number }
    ensures { Gives tt result (check_of turns.now check.now) }
{
    match check.number.value(turns, stack)? {
        None => Err(PlacedFault::Index(check.at)),
        Some(value) => {
            let value = i64::from(value);
            if check.least <= value && value <= check.most {
                Ok(())
            } else {
                Err(check.outside)
            }
        }
    }
}

/// The value of a manifest constant.
fn value(number: &Number, at: u32, turns: &[i32], stack: &mut Vec<i32>) -> Result<i32, PlacedFault>
    requires { IsInside (length turns.now) number.now }
    ensures { GivesValue result (value_or at (number_value turns.now number.now)) }
{
    match number.value(turns, stack)? {
        None => Err(PlacedFault::Index(at)),
        Some(value) => Ok(value),
    }
}

fn index_below(dim: u32, value: i32) -> Option<u32>
    ensures { result ≡ rules.index_below dim value }
{
    let index = u32::try_from(value).ok()?;
    if index < dim { Some(index) } else { None }
}

/// The value of a subscript, which is below its dim.
fn index(sub: &Subscript, turns: &[i32], stack: &mut Vec<i32>) -> Result<u32, PlacedFault>
    requires { IsInside (length turns.now) sub.now.number }
    ensures value { GivesValue result (index_of turns.now sub.now) }
    ensures below { IfOk result (λ index. index < sub.now.dim) }
{
    let value = value(&sub.number, sub.at, turns, stack)?;
    match index_below(sub.dim, value) {
        Some(index) => Ok(index),
        None => Err(PlacedFault::Bounds(sub.at)),
    }
}

/// The row-major place that subscripts pick.
fn place(subs: &[Subscript], turns: &[i32], stack: &mut Vec<i32>) -> Result<u64, PlacedFault>
    requires strided { AreStrided subs.now }
    requires inside { AreInside (length turns.now) subs.now }
    ensures value { GivesValue result (place_of turns.now subs.now) }
    ensures within { IfOk result (λ place. place < size_of subs.now) }
    ensures small { IfOk result (λ place. place < 2 ^ 64 - 2 ^ 32) }
{
    match subs {
        [] => Ok(0),
        [sub, rest @ ..] => {
            let index = index(sub, turns, stack)?;
            let rest = place(rest, turns, stack)?;
            Ok(u64::from(index) * u64::from(sub.stride) + rest)
        }
    }
}

/// The number of an element.
pub(crate) fn element(
    target: &Target,
    turns: &[i32],
    stack: &mut Vec<i32>,
) -> Result<u64, PlacedFault>
    requires { AreInside (length turns.now) target.now.subs }
    ensures { GivesValue result (element_of turns.now target.now.first target.now.subs) }
{
    let place = place(&target.subs, turns, stack)?;
    Ok(u64::from(target.first) + place)
}

fn sample_in(value: i32) -> Option<u32>
    ensures { result ≡ run.sample_in value }
{
    let sample = u32::try_from(value).ok()?;
    if MIN_SAMPLE <= sample && sample <= MAX_SAMPLE {
        Some(sample)
    } else {
        None
    }
}

/// How many samples before sample 0 an initial value is for.
pub(crate) fn sample(
    sample: &Sample,
    turns: &[i32],
    stack: &mut Vec<i32>,
) -> Result<u32, PlacedFault>
    requires { IsInside (length turns.now) sample.now.number }
    ensures { GivesValue result (sample_of turns.now sample.now) }
{
    let value = value(&sample.number, sample.at, turns, stack)?;
    match sample_in(value) {
        Some(sample) => Ok(sample),
        None => Err(PlacedFault::Delay(sample.at)),
    }
}

pub(crate) fn bound(bound: &Bound, turns: &[i32], stack: &mut Vec<i32>) -> Result<i32, PlacedFault>
    requires { IsInside (length turns.now) bound.now.number }
    ensures { GivesValue result (bound_of turns.now bound.now) }
{
    value(&bound.number, bound.at, turns, stack)
}
