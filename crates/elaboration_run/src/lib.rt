//! The walk over the instances of a program: each does the actions of its function.
//!
//! A loop may be inside thousands of turns and have none of its own, so the functions are looked at before, and loops
//! without turns are left out.
#![tactic(auto)]

mod checks;
mod definitions;
mod empty_loops;
mod entries;
mod function;
mod functions;
mod groups;
mod instances;
mod lanes;
mod parts;
mod turn_blocks;
mod turns;
mod walked;

ghost use Rattle.std.specs.Prelude.{◌≡◌, map, option_map};
ghost use Rattle.elaboration_code.specs.Actions.{GivesValue, HasMeaning};
ghost use Rattle.elaboration_code.specs.Bodies.{view_body};
ghost use Rattle.elaboration_code.specs.ItemActions.{run_bodies};
ghost use Rattle.elaboration_run.specs.Private.Functions.{view_of_top};

use elaboration_code::Body;
use element_rules::{Elements, PlacedFault};
use function::Function;
use functions::functions;
use instances::{Inside, enter};
use std::alloc::Global;
use walked::Walked;

/// The most instances of which each is inside the one before: an instance is inside 64 calls at most.
const MAX_NESTED: u32 = 65;

/// The walk over the instances of functions that were looked at.
fn walk_functions(
    alloc: Global,
    functions: &[Option<Function>],
    main: u32,
) -> Result<Elements, PlacedFault>
    requires { HasMeaning (run_bodies (map view_of_top functions.now) main) }
    ensures { GivesValue result (run_bodies (map view_of_top functions.now) main) }
{
    let mut walked = Walked::new(alloc);
    let inside = Inside {
        alloc,
        functions,
        calls: MAX_NESTED,
        number: 0,
    };
    enter(inside, main, 0, &[], &mut walked)?;
    Ok(Elements {
        instances: walked.instances,
        elements: walked.elements,
    })
}

/// The instances and elements that the walk comes to from the function at the position `main` on, or the first fault
/// on it. The bodies are those of the functions, by their positions among the tables and functions.
pub fn walk(alloc: Global, bodies: &[Option<Body>], main: u32) -> Result<Elements, PlacedFault>
    requires { HasMeaning (run_bodies (map (option_map view_body) bodies.now) main) }
    ensures { GivesValue result (run_bodies (map (option_map view_body) bodies.now) main) }
{
    let functions = functions(alloc, bodies)?;
    walk_functions(alloc, &functions, main)
}
