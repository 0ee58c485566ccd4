//! What plain walks over the steps of a text find.

ghost use Rattle.std.specs.Prelude.{◌≡◌, suc, map, [], ◌∷◌, ◌++◌, OnOk, IfOk};
ghost use Rattle.std.specs.List.{list_any};
ghost use Rattle.lowered_tree.specs.Shapes.{step_of, steps_of};
ghost use Rattle.main_translation.specs.main_file.MainItems.{stops_from};
ghost use Rattle.main_translation.specs.Contents as spec;
ghost use Rattle.library_functions.specs.Described.{described};
ghost use Rattle.unit_translation.specs.UnitContents.{temporaries_kept};
ghost use Rattle.unit_contents.specs.ContentsOf.{AreCalls, computed_in, listing_of};

use crate::contents::{Calls, Listing};
use crate::steps::{begins_output, begun_unit, computes, ends_output, stops_run, takes_item};
use library_functions::{LibraryFunction, library_functions};
use lowered_tree::Step;
use std::alloc::{AllocError, Global};

/// How many temporaries there are where a number is the greatest. Fails where the next has no number.
fn counted(number: usize) -> Result<usize, AllocError>
    ensures { IfOk result (λ count. count ≡ suc number) }
{
    number.checked_add(1).ok_or(AllocError)
}

/// How many temporaries there are where no step but this one keeps, computes or gets a value. Fails where a temporary has no number.
#[tactic(auto, unfolding(unit_translation::specs::UnitContents::temporaries_kept))]
fn temporaries_by(step: &Step) -> Result<usize, AllocError>
    ensures { IfOk result (λ count. count ≡ temporaries_kept (step_of step.now ∷ [])) }
{
    match step {
        Step::Keep(number, _) => counted(*number),
        Step::Compute(number, _, _) => counted(*number),
        Step::CallFor(number, _, _) => counted(*number),
        _ => Ok(0),
    }
}

/// How many temporaries the steps have. Fails where a temporary has no number.
pub(crate) fn temporaries_kept(steps: &[Step]) -> Result<usize, AllocError>
    ensures { IfOk result (λ count. count ≡ temporaries_kept (steps_of steps.now)) }
{
    let mut count = 0;
    for step in steps {
        count = temporaries_by(step)?.max(count);
    }
    Ok(count)
}

/// The positions of the steps that pass a string.
pub(crate) fn string_positions(alloc: Global, steps: &[Step]) -> Result<Vec<usize>, AllocError>
    ensures { IfOk result (λ positions. positions.items ≡ stops_from 0 (steps_of steps.now)) }
{
    let mut positions = Vec::new(alloc);
    for (position, step) in steps.iter().enumerate() {
        if stops_run(step) {
            positions.push(position)?;
        }
    }
    Ok(positions)
}

/// Adds the control list of an output that the step at a position begins, if it begins one.
fn add_listing(lists: &mut Vec<Listing>, step: usize, unit: Option<i32>) -> Result<(), AllocError>
    ensures { OnOk result (map listing_of lists.new.items ≡ map listing_of lists.old.items ++ spec.listing_by step unit) }
{
    if let Some(unit) = unit {
        lists.push(Listing { step, unit })?;
    }
    Ok(())
}

/// The control lists of the outputs that the steps begin.
pub(crate) fn listings(alloc: Global, steps: &[Step]) -> Result<Vec<Listing>, AllocError>
    ensures { IfOk result (λ lists. map listing_of lists.items ≡ spec.listings_from 0 (steps_of steps.now)) }
{
    let mut lists = Vec::new(alloc);
    for (position, step) in steps.iter().enumerate() {
        add_listing(&mut lists, position, begun_unit(step))?;
    }
    Ok(lists)
}

/// Whether any step computes by a function of the library.
fn any_computes(one: &LibraryFunction, steps: &[Step]) -> bool
    ensures { result ≡ list_any (spec.computes (described one.now)) (steps_of steps.now) }
{
    steps.iter().any(|step| computes(one, step))
}

/// Adds a function of the library, where steps compute by it.
fn add_function(
    found: &mut Vec<LibraryFunction>,
    one: &LibraryFunction,
    steps: &[Step],
) -> Result<(), AllocError>
    ensures { OnOk result (map described found.new.items ≡ map described found.old.items ++ computed_in (steps_of steps.now) (described one.now ∷ [])) }
{
    if any_computes(one, steps) {
        found.push(*one)?;
    }
    Ok(())
}

/// Those of some functions of the library by which steps compute.
fn computed_in(
    alloc: Global,
    functions: &[LibraryFunction],
    steps: &[Step],
) -> Result<Vec<LibraryFunction>, AllocError>
    ensures { IfOk result (λ found. map described found.items ≡ computed_in (steps_of steps.now) (map described functions.now)) }
{
    let mut found = Vec::new(alloc);
    for one in functions {
        add_function(&mut found, one, steps)?;
    }
    Ok(found)
}

/// Which functions of the library the steps call.
pub(crate) fn calls_of(alloc: Global, steps: &[Step]) -> Result<Calls, AllocError>
    ensures { IfOk result (AreCalls (steps_of steps.now)) }
{
    Ok(Calls {
        starts: steps.iter().any(begins_output),
        takes: steps.iter().any(takes_item),
        finishes: steps.iter().any(ends_output),
        stops: steps.iter().any(stops_run),
        functions: computed_in(alloc, library_functions(), steps)?,
    })
}
