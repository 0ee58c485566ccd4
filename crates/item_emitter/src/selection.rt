//! The `switch` of a computed GO TO, of an assigned one, and behind a CALL with alternate returns. ANSI X3.9-1978, sections 11.2, 11.3 and 15.6.2.3; C89,
//! 3.6.4.2.

ghost use Rattle.std.specs.Prelude.{◌≡◌, ◌+◌, suc, IfOk};
ghost use Rattle.lowered_tree.specs.l_core.Pures.{Temporary};
ghost use Rattle.lowered_tree.specs.Shapes.{pure_of};
ghost use Rattle.item_emitter.specs.Knowing.{known_of};
ghost use Rattle.item_emission.specs.NamedEmission as spec;

use crate::known::Known;
use crate::positions::{following, onward};
use crate::values::{place, temporary, value};
use c_tree::expression::CExpr;
use lowered_tree::Pure;
use named_items::{Case, Item};
use plain_data::Items;
use std::alloc::{AllocError, Global};

/// A case by its number. Fails where there is no constant for that.
fn case(number: usize, position: usize) -> Result<Case, AllocError>
    ensures { IfOk result (λ case. case ≡ spec.case_to number position) }
{
    if number <= 2147483647 {
        Ok(Case {
            number: number as i32,
            position,
        })
    } else {
        Err(AllocError)
    }
}

/// The cases of a `switch` before so many jumps.
fn cases(alloc: Global, position: usize, count: usize) -> Result<Vec<Case>, AllocError>
    ensures { IfOk result (λ cases. cases.items ≡ spec.cases_from 1 (suc position) count) }
{
    let mut row = Vec::new(alloc);
    for passed in 0..count {
        let number = following(passed)?;
        let place = onward(position, passed)?;
        let next = case(number, place)?;
        row.push(next)?;
    }
    Ok(row)
}

/// A `switch`, where what it goes by has an expression.
#[tactic(auto, unfolding(item_emission::specs::NamedEmission::select_step))]
fn selection(number: Option<CExpr>, cases: Vec<Case>, otherwise: usize) -> Option<Item>
    ensures { result ≡ spec.select_step number cases.items otherwise }
{
    match number {
        Some(number) => Some(Item::Select(number, Items::from_vec(cases), otherwise)),
        None => None,
    }
}

/// A number picks one of so many jumps behind it, or none.
pub(crate) fn select(
    alloc: Global,
    known: &Known,
    position: usize,
    source: &Pure,
    count: usize,
) -> Result<Option<Item>, AllocError>
    ensures { IfOk result (λ i. i ≡ spec.select_step (spec.value_expr (known_of known.now) (pure_of source.now)) (spec.cases_from 1 (suc position) count) (suc position + count)) }
{
    let otherwise = onward(position, count)?;
    let cases = cases(alloc, position, count)?;
    let number = value(alloc, known, source)?;
    Ok(selection(number, cases, otherwise))
}

/// The number in a temporary picks one of so many jumps behind it, or none.
#[tactic(auto, unfolding(item_emission::specs::NamedEmission::value_expr))]
pub(crate) fn branch_by(
    alloc: Global,
    known: &Known,
    position: usize,
    number: usize,
    count: usize,
) -> Result<Option<Item>, AllocError>
    ensures { IfOk result (λ i. i ≡ spec.select_step (spec.value_expr (known_of known.now) (Temporary number)) (spec.cases_from 1 (suc position) count) (suc position + count)) }
{
    let otherwise = onward(position, count)?;
    let cases = cases(alloc, position, count)?;
    let held = temporary(alloc, known, number)?;
    Ok(selection(held, cases, otherwise))
}

/// The cases of a `switch` before a jump to each of some labels, by the labels.
fn label_cases(alloc: Global, position: usize, labels: &[u32]) -> Result<Vec<Case>, AllocError>
    ensures { IfOk result (λ cases. cases.items ≡ spec.label_cases (suc position) labels.now) }
{
    let mut row = Vec::new(alloc);
    for (passed, label) in labels.iter().enumerate() {
        let place = onward(position, passed)?;
        let next = case(*label as usize, place)?;
        row.push(next)?;
    }
    Ok(row)
}

/// A label that a place holds picks the jump to it behind.
#[tactic(auto, unfolding(item_emission::specs::NamedEmission::switch_step))]
pub(crate) fn switch(
    alloc: Global,
    known: &Known,
    position: usize,
    source: &Pure,
    labels: &[u32],
) -> Result<Option<Item>, AllocError>
    ensures { IfOk result (λ i. i ≡ spec.switch_step position labels.now (spec.place_expr (known_of known.now) (pure_of source.now))) }
{
    let otherwise = onward(position, labels.len())?;
    let cases = label_cases(alloc, position, labels)?;
    let held = place(alloc, known, source)?;
    Ok(selection(held, cases, otherwise))
}
