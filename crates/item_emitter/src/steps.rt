//! Items of steps. ANSI X3.9-1978, sections 10 and 11; C89, 3.6.

ghost use Rattle.std.specs.Prelude.{◌≡◌, ◌+◌, ◌-◌, pos, suc, true, Some, option_map, IfOk};
ghost use Rattle.named_items.specs.declared.item.Item.TheVariants as item;
ghost use Rattle.named_items.specs.Items.{assign_by};
ghost use Rattle.lowered_tree.specs.Shapes.{pure_of, pures_of, step_of, acting_of};
ghost use Rattle.lowered_text.specs.Texts.{kinds_of};
ghost use Rattle.item_emitter.specs.Knowing.{known_of};
ghost use Rattle.item_emission.specs.NamedEmission as spec;

use crate::arithmetic::count;
use crate::calls::acting;
use crate::known::Known;
use crate::library::compute;
use crate::positions::{following, onward};
use crate::procedures::{back, back_by, call, call_for};
use crate::selection::{branch_by, select, switch};
use crate::stops::stop;
use crate::values::{place, temporary, value};
use c_tree::expression::CExpr;
use lowered_text::Kept;
use lowered_tree::{Pure, Step};
use named_items::Item;
use std::alloc::{AllocError, Global};

/// An assignment, where the place and the value have expressions.
#[tactic(auto, unfolding(named_items::specs::Items::assign_by))]
fn assignment(target: Option<CExpr>, source: Option<CExpr>) -> Option<Item>
    ensures { result ≡ assign_by target source }
{
    match (target, source) {
        (Some(target), Some(source)) => Some(Item::Assign(target, source)),
        (Some(_), None) => None,
        (None, _) => None,
    }
}

/// A test, where it has an expression.
#[tactic(auto, unfolding(item_emission::specs::NamedEmission::branch_step))]
fn branch(test: Option<CExpr>, on: usize, off: usize) -> Option<Item>
    ensures { result ≡ spec.branch_step test on off }
{
    match test {
        Some(test) => Some(Item::Branch(test, on, off)),
        None => None,
    }
}

/// The number of a label; none where it is too large for one.
#[tactic(auto, unfolding(item_emission::specs::NamedEmission::constant_expr))]
fn label_number(label: u32) -> Option<CExpr>
    ensures { result ≡ spec.constant_expr (pos label) }
{
    count(u64::from(label))
}

/// A place gets a value.
fn put(
    alloc: Global,
    known: &Known,
    target: &Pure,
    source: &Pure,
) -> Result<Option<Item>, AllocError>
    ensures { IfOk result (λ i. i ≡ assign_by (spec.place_expr (known_of known.now) (pure_of target.now)) (spec.value_expr (known_of known.now) (pure_of source.now))) }
{
    let target = place(alloc, known, target)?;
    let source = value(alloc, known, source)?;
    Ok(assignment(target, source))
}

/// A place gets a label.
fn put_label(
    alloc: Global,
    known: &Known,
    target: &Pure,
    label: u32,
) -> Result<Option<Item>, AllocError>
    ensures { IfOk result (λ i. i ≡ assign_by (spec.place_expr (known_of known.now) (pure_of target.now)) (spec.constant_expr (pos label))) }
{
    let target = place(alloc, known, target)?;
    Ok(assignment(target, label_number(label)))
}

/// A temporary gets a value.
fn keep(
    alloc: Global,
    known: &Known,
    number: usize,
    source: &Pure,
) -> Result<Option<Item>, AllocError>
    ensures { IfOk result (λ i. i ≡ assign_by (spec.temporary_expr (known_of known.now) number) (spec.value_expr (known_of known.now) (pure_of source.now))) }
{
    let target = temporary(alloc, known, number)?;
    let source = value(alloc, known, source)?;
    Ok(assignment(target, source))
}

/// A test that goes on, or passes so many steps.
fn unless(
    alloc: Global,
    known: &Known,
    position: usize,
    test: &Pure,
    passed: usize,
) -> Result<Option<Item>, AllocError>
    ensures { IfOk result (λ i. i ≡ spec.branch_step (spec.value_expr (known_of known.now) (pure_of test.now)) (suc position) (suc position + passed)) }
{
    let on = following(position)?;
    let off = onward(position, passed)?;
    let test = value(alloc, known, test)?;
    Ok(branch(test, on, off))
}

/// A test that goes so many steps back, or on.
fn again_if(
    alloc: Global,
    known: &Known,
    position: usize,
    test: &Pure,
    back: usize,
) -> Result<Option<Item>, AllocError>
    ensures { IfOk result (λ i. i ≡ spec.branch_step (spec.value_expr (known_of known.now) (pure_of test.now)) (position - back) (suc position)) }
{
    let off = following(position)?;
    let test = value(alloc, known, test)?;
    Ok(branch(test, position.saturating_sub(back), off))
}

/// A jump over so many steps.
fn skip(position: usize, passed: usize) -> Result<Option<Item>, AllocError>
    ensures { IfOk result (λ i. i ≡ Some (item.Jump (suc position + passed))) }
{
    Ok(Some(Item::Jump(onward(position, passed)?)))
}

/// A jump to a label, if it has a step.
fn jump(known: &Known, label: u32) -> Option<Item>
    ensures { result ≡ option_map item.Jump ((known_of known.now).label label) }
{
    match known.label(label) {
        Some(position) => Some(Item::Jump(position)),
        None => None,
    }
}

/// The item of a step by its position, given what the step before it keeps in a temporary; none where the step is not emitted.
///
/// # Errors
///
/// Want of memory, or a position or a case that has no number.
#[tactic(auto, unfolding(item_emission::specs::NamedEmission::item_step))]
pub fn emit_step(
    alloc: Global,
    known: &Known,
    kept: Option<Kept>,
    position: usize,
    step: &Step,
) -> Result<Option<Item>, AllocError>
    ensures { IfOk result (λ i. i ≡ spec.item_step (known_of known.now) (kinds_of kept) position (step_of step.now)) }
{
    match step {
        Step::Put(target, source) => put(alloc, known, target, source),
        Step::PutLabel(target, label) => put_label(alloc, known, target, *label),
        Step::Keep(number, source) => keep(alloc, known, *number, source),
        Step::Compute(number, function, operands) => {
            compute(alloc, known, *number, *function, operands.as_slice())
        }
        Step::Unless(test, passed) => unless(alloc, known, position, test, *passed),
        Step::AgainIf(test, back) => again_if(alloc, known, position, test, *back),
        Step::Skip(passed) => skip(position, *passed),
        Step::Again(back) => Ok(Some(Item::Jump(position.saturating_sub(*back)))),
        Step::Jump(label) => Ok(jump(known, *label)),
        Step::Select(source, count) => select(alloc, known, position, source, *count),
        Step::JumpBy(source, labels) => {
            switch(alloc, known, position, source, labels.as_slice())
        }
        Step::Branch(number, count) => branch_by(alloc, known, position, *number, *count),
        Step::Way(label) => Ok(jump(known, *label)),
        Step::Pass => Ok(Some(Item::Nothing)),
        Step::Back => back(alloc, known),
        Step::BackBy(source) => back_by(alloc, known, source),
        Step::CallFor(number, callee, operands) => {
            call_for(alloc, known, *number, callee, operands.as_slice())
        }
        Step::CallSub(_, name, operands) => {
            call(alloc, known, name.as_slice(), operands.as_slice())
        }
        Step::Halt(text) => stop(alloc, text.as_slice()),
        Step::Acts(what, operands, passed) => acting(
            alloc,
            known,
            kept,
            position,
            what,
            operands.as_slice(),
            *passed,
        ),
        Step::PutText(_, _) => Ok(None),
    }
}
