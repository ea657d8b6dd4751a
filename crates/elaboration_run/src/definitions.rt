//! The definitions of the elements of an instance so far.

ghost use Rattle.std.specs.Prelude.{◌≡◌, ◌+◌};
ghost use Rattle.elaboration_code.specs.Actions as run;
ghost use Rattle.elaboration_code.specs.Actions.{Gives, are_defined, all_defined};
ghost use Rattle.elaboration_run.specs.Private.States.{definitions_of};

use elaboration_code::Signal;
use element_rules::PlacedFault;
use indexmap::IndexSet;
use std::alloc::Global;

/// Which elements of an instance are given or defined, and which have an initial value for which sample.
#[derive(Drop)]
pub(crate) struct Definitions {
    /// How many elements are given. These are the first ones.
    given: u32,
    defined: IndexSet<u64>,
    presets: IndexSet<(u64, u32)>,
}

impl Definitions {
    /// No element is defined, and the first ones are given.
    pub(crate) fn at_first(alloc: Global, given: u32) -> Definitions
        ensures { definitions_of result ≡ run.at_first given }
    {
        Definitions {
            given,
            defined: IndexSet::new(alloc),
            presets: IndexSet::new(alloc),
        }
    }
}

/// The number of an element, counted from the first one of its declaration.
fn element_at(first: u32, place: u32) -> u64
    ensures { result ≡ first + place }
{
    u64::from(first) + u64::from(place)
}

/// Defines the element at a number.
pub(crate) fn define(
    definitions: &mut Definitions,
    element: u64,
    at: u32,
) -> Result<(), PlacedFault>
    ensures { Gives (definitions_of definitions.new) result
        (run.define_at element at (definitions_of definitions.old)) }
{
    if element < u64::from(definitions.given) || !definitions.defined.insert(element)? {
        return Err(PlacedFault::DefinedTwice(at));
    }
    Ok(())
}

pub(crate) fn define_all(
    definitions: &mut Definitions,
    first: u32,
    count: u32,
    at: u32,
) -> Result<(), PlacedFault>
    ensures { Gives (definitions_of definitions.new) result
        (run.define_from first count at (definitions_of definitions.old)) }
{
    for k in 0..count {
        define(definitions, element_at(first, k), at)?;
    }
    Ok(())
}

/// Gives the element at a number an initial value for a sample.
pub(crate) fn preset(
    definitions: &mut Definitions,
    element: u64,
    sample: u32,
    at: u32,
) -> Result<(), PlacedFault>
    ensures { Gives (definitions_of definitions.new) result
        (run.preset_at element sample at (definitions_of definitions.old)) }
{
    if !definitions.presets.insert((element, sample))? {
        return Err(PlacedFault::DefinedTwice(at));
    }
    Ok(())
}

/// The element at a number is defined.
fn check_defined(
    definitions: &Definitions,
    element: u64,
    at: u32,
    place: u32,
) -> Result<(), PlacedFault>
    ensures { result ≡ run.is_defined_at (definitions_of definitions.now) element at place }
{
    if element < u64::from(definitions.given) || definitions.defined.contains(&element) {
        Ok(())
    } else {
        Err(PlacedFault::NotDefined { at, place })
    }
}

/// Each element of a signal is defined.
fn check_signal(definitions: &Definitions, signal: &Signal) -> Result<(), PlacedFault>
    ensures { result ≡ are_defined (definitions_of definitions.now) signal.now }
{
    for k in 0..signal.count {
        check_defined(definitions, element_at(signal.first, k), signal.at, k)?;
    }
    Ok(())
}

/// Each element of the signals is defined.
pub(crate) fn check_all_defined(
    definitions: &Definitions,
    signals: &[Signal],
) -> Result<(), PlacedFault>
    ensures { result ≡ all_defined (definitions_of definitions.now) signals.now }
{
    for signal in signals {
        check_signal(definitions, signal)?;
    }
    Ok(())
}
