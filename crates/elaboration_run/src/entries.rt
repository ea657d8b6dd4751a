//! An instance is entered: its load is counted, and its elements are listed.

ghost use Rattle.std.specs.Prelude.{◌≡◌, ◌+◌, ◌<◌, ◌≤◌, ◌++◌, length, OnOk, IfOk};
ghost use Rattle.elaboration_code.specs.Actions as run;
ghost use Rattle.elaboration_code.specs.Actions.{Gives, signal_elements};
ghost use Rattle.elaboration_code.specs.Bodies.{view_body};
ghost use Rattle.elaboration_run.specs.Private.States.{walked_of};

use crate::walked::Walked;
use elaboration_code::{Body, Signal};
use element_rules::{Element, Instance, PlacedFault};
use lists::List;
use std::alloc::AllocError;

/// The most load of a program.
const MAX_LOAD: u32 = 8192;

/// Adds to the load of the program.
pub(crate) fn count(walked: &mut Walked, load: u32, at: u32) -> Result<(), PlacedFault>
    ensures gives { Gives (walked_of walked.new) result (run.count_in load at (walked_of walked.old)) }
    ensures sum { OnOk result (walked.new.load ≡ walked.old.load + load) }
    ensures same { walked.new.instances ≡ walked.old.instances }
{
    match walked.load.checked_add(load) {
        Some(load) if load <= MAX_LOAD => {
            walked.load = load;
            Ok(())
        }
        _ => Err(PlacedFault::TooLarge(at)),
    }
}

/// Appends the elements of a signal.
fn put_signal(
    elements: &mut List<Element>,
    inst: u32,
    decl: u32,
    count: u32,
) -> Result<(), AllocError>
    ensures { OnOk result (elements.new ≡ elements.old ++ run.places_of inst decl count) }
{
    for place in 0..count {
        elements.push(Element { inst, decl, place })?;
    }
    Ok(())
}

/// Appends the elements of an instance.
fn put_elements(
    elements: &mut List<Element>,
    inst: u32,
    signals: &[Signal],
) -> Result<(), AllocError>
    requires { length signals.now ≤ 8192 }
    ensures { OnOk result (elements.new ≡ elements.old ++ signal_elements inst 0 signals.now) }
{
    for d in 0..signals.len() {
        put_signal(elements, inst, d as u32, signals[d].count)?;
    }
    Ok(())
}

fn put_instance(
    walked: &mut Walked,
    instance: Instance,
    number: u32,
    signals: &[Signal],
) -> Result<(), AllocError>
    requires number { number ≡ length walked.old.instances }
    requires room { number < walked.old.load }
    requires signals { length signals.now ≤ 8192 }
    ensures { OnOk result (walked_of walked.new ≡ run.with_instance
        instance.func instance.parent instance.site instance.turns signals.now (walked_of walked.old)) }
{
    walked.instances.push(instance)?;
    put_elements(&mut walked.elements, number, signals)
}

/// Enters an instance with these signals, and gives its number.
pub(crate) fn enter_instance(
    walked: &mut Walked,
    instance: Instance,
    body: &Body,
) -> Result<u32, PlacedFault>
    ensures walked { Gives (walked_of walked.new) result
        (run.entered_in (view_body body.now) instance.func instance.parent instance.site instance.turns
        (walked_of walked.old)) }
    ensures number { IfOk result (λ number. number ≡ length walked.old.instances) }
{
    count(walked, body.count, body.at)?;
    let number = walked.instances.len() as u32;
    put_instance(walked, instance, number, &body.signals)?;
    Ok(number)
}
