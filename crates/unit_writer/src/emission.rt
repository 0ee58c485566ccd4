//! The items of what a unit keeps of its dummy arrays, and of its steps, in their order. Sections 5.5.1, 10 to 12 and 15; C89, 3.6.

ghost use Rattle.std.specs.Option.{option_flatten};
ghost use Rattle.std.specs.Prelude.{◌≡◌, ◌++◌, [], IfOk, Some, drop, map, option_map, slice_get};
ghost use Rattle.c_tree.specs.declared.expression.CExpr.TheVariants as expr;
ghost use Rattle.item_emitter.specs.Knowing.{known_of};
ghost use Rattle.lowered_tree.specs.Shapes.{steps_of};
ghost use Rattle.named_items.specs.Items.{assign_by};
ghost use Rattle.named_mains.specs.NamedMains.{items_from};
ghost use Rattle.named_units.specs.NamedUnits.{bound_items_from, items_behind};
ghost use Rattle.unit_item_laws.specs.AgreeingUnits.{bound_step};
ghost use Rattle.unit_writer.specs.Functions.{kinds_at};
ghost use Rattle.unit_writer.specs.ToldUnits.{bound_told};

use crate::bounds::bound_name;
use crate::heading::KeptBound;
use c_tree::expression::{CExpr, Text};
use item_emitter::{Known, emit_step, value};
use lowered_text::Kept;
use lowered_tree::Step;
use named_items::Item;
use std::alloc::{AllocError, Global};

/// What a temporary keeps before a step.
fn kept_before(kinds: &[Option<Kept>], position: usize) -> Option<Kept>
    ensures { result ≡ option_flatten (slice_get kinds.now position) }
{
    match kinds.get(position) {
        Some(kept) => *kept,
        None => None,
    }
}

/// An assignment to an object by its name, where the value has an expression.
#[tactic(auto, unfolding(named_items::specs::Items::assign_by))]
fn assignment(name: Text, source: Option<CExpr>) -> Option<Item>
    ensures { result ≡ assign_by (Some (expr.Name name)) source }
{
    match source {
        Some(source) => Some(Item::Assign(CExpr::Name(name), source)),
        None => None,
    }
}

/// The item by which a bound is kept; none where its value has no expression.
#[tactic(auto, unfolding(unit_item_laws::specs::AgreeingUnits::bound_step))]
fn bound_item(alloc: Global, known: &Known, one: &KeptBound) -> Result<Option<Item>, AllocError>
    ensures { IfOk result (λ item. item ≡ bound_step (known_of known.now) (bound_told one.now)) }
{
    let name = bound_name(alloc, one)?;
    let source = value(alloc, known, &one.value)?;
    Ok(assignment(name, source))
}

/// The items by which bounds are kept; none where one of them has none.
fn bound_items(
    alloc: Global,
    known: &Known,
    bounds: &[KeptBound],
) -> Result<Option<Vec<Item>>, AllocError>
    ensures { IfOk result (λ found. option_map (λ items. items.items) found ≡ bound_items_from (known_of known.now) (map bound_told bounds.now) (Some [])) }
{
    let mut items = Vec::new(alloc);
    for one in bounds {
        let Some(item) = bound_item(alloc, known, one)? else {
            return Ok(None);
        };
        items.push(item)?;
    }
    Ok(Some(items))
}

/// The items of steps from a position on, behind others; none where a step is not emitted.
fn step_items(
    alloc: Global,
    known: &Known,
    kinds: &[Option<Kept>],
    mut items: Vec<Item>,
    start: usize,
    steps: &[Step],
) -> Result<Option<Vec<Item>>, AllocError>
    ensures { IfOk result (λ found. option_map (λ all. all.items) found
        ≡ option_map (λ later. items.items ++ later) (items_from (known_of known.now) (kinds_at kinds.now) start (steps_of (drop start steps.now)))) }
{
    for position in start..steps.len() {
        let kept = kept_before(kinds, position);
        let Some(item) = emit_step(alloc, known, kept, position, &steps[position])? else {
            return Ok(None);
        };
        items.push(item)?;
    }
    Ok(Some(items))
}

/// The items by which bounds are kept, and of the steps behind those that stand for them; none where one of them has none.
///
/// # Errors
///
/// Want of memory, or a dimension that has no number.
pub(crate) fn items_of(
    alloc: Global,
    known: &Known,
    kinds: &[Option<Kept>],
    bounds: &[KeptBound],
    steps: &[Step],
) -> Result<Option<Vec<Item>>, AllocError>
    ensures { IfOk result (λ found. option_map (λ items. items.items) found ≡ items_behind (known_of known.now) (kinds_at kinds.now) (map bound_told bounds.now) (steps_of steps.now)) }
{
    let kept = bound_items(alloc, known, bounds)?;
    match kept {
        Some(items) => step_items(alloc, known, kinds, items, bounds.len(), steps),
        None => Ok(None),
    }
}
