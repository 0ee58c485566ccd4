//! The constants that are passed by their address. Sections 12.8 and 15.9; CSTR 149, on the run time library.

ghost use Rattle.std.specs.Prelude.{◌≡◌, fold, OnOk, IfOk, option_and_then};
ghost use Rattle.f_tree.specs.Facts.{Facts};
ghost use Rattle.lowered_tree.specs.Shapes.{datum_of, pure_of, pures_of, acting_of, step_of};
ghost use Rattle.c_emit.specs.Calls.{kind_number};
ghost use Rattle.main_translation.specs.Contents.{with_new, own_value, own_values, kind_value};
ghost use Rattle.unit_contents.specs.ContentsOf.{TellsNames, AreContentsOf, AreMoreConstants};
ghost use Rattle.unit_contents.specs.Parts as spec;

use crate::contents::Contents;
use crate::kinds::{item_type, kept_before};
use f_tree::Basic;
use lowered_text::{Kept, LoweredText};
use lowered_tree::{Acting, Literal, Pure, Step};
use name_facts::NameFacts;
use std::alloc::{AllocError, Global};
use std::collections::BTreeSet;

/// The value of an item that is a literal.
#[tactic(auto, unfolding(main_translation::specs::Contents::kind_value, crate::specs::Parts::literal_value))]
fn literal_value(literal: &Literal) -> Option<i32>
    ensures { kind_value result ≡ spec.literal_value (datum_of literal.now) }
{
    match literal {
        Literal::Integer(value) => Some(*value),
        Literal::Logical(true) => Some(1),
        Literal::Logical(false) => Some(0),
        Literal::Text(_) | Literal::Label(_) | Literal::Nothing => None,
    }
}

/// The value of an item that is a constant.
#[tactic(auto, using(crate::proofs::ConstantLaws::own_forms))]
fn own_value(item: &Pure) -> Option<i32>
    ensures { kind_value result ≡ own_value (pure_of item.now) }
{
    match item {
        Pure::Constant(literal) => literal_value(literal),
        _ => None,
    }
}

/// The number that the library has for a type.
#[tactic(auto, unfolding(c_emit::specs::Calls::kind_number))]
fn kind_number(basic: Option<Basic>) -> Option<i32>
    ensures { result ≡ option_and_then kind_number basic }
{
    match basic {
        Some(Basic::Integer) => Some(3),
        Some(Basic::Logical) => Some(8),
        Some(Basic::Character | Basic::Untyped) | None => None,
    }
}

/// Adds a value that is passed at its place, if none of those that are there is it.
#[tactic(auto, unfolding(main_translation::specs::Contents::with_new))]
fn add_value(values: &mut BTreeSet<i32>, value: i32) -> Result<(), AllocError>
    ensures { OnOk result (values.new.keys ≡ with_new values.old.keys value) }
{
    match values.insert(value) {
        Ok(_) => Ok(()),
        Err(_) => Err(AllocError),
    }
}

/// Adds a value that is passed, if there is one and none of those that are there is it.
#[tactic(auto, unfolding(main_translation::specs::Contents::kind_value))]
fn add_if(values: &mut BTreeSet<i32>, value: Option<i32>) -> Result<(), AllocError>
    ensures { OnOk result (values.new.keys ≡ fold with_new values.old.keys (kind_value value)) }
{
    match value {
        Some(value) => add_value(values, value),
        None => Ok(()),
    }
}

/// Adds what is passed for an item by its address.
fn add_item(
    values: &mut BTreeSet<i32>,
    table: &NameFacts,
    kept: Option<Kept>,
    item: &Pure,
) -> Result<(), AllocError>
    ensures { OnOk result ((c : Facts) → TellsNames table.now c → values.new.keys ≡ fold with_new values.old.keys (spec.item_values c kept (pure_of item.now))) }
{
    add_if(values, kind_number(item_type(table, kept, item)))?;
    add_value(values, 1)?;
    add_if(values, own_value(item))
}

/// Adds what is passed for the operands of a step that takes an item.
fn add_operands(
    values: &mut BTreeSet<i32>,
    table: &NameFacts,
    kept: Option<Kept>,
    operands: &[Pure],
) -> Result<(), AllocError>
    ensures { OnOk result ((c : Facts) → TellsNames table.now c → values.new.keys ≡ fold with_new values.old.keys (spec.list_values c kept (pures_of operands.now))) }
{
    match operands {
        [item] => add_item(values, table, kept, item),
        _ => Ok(()),
    }
}

/// Adds what is passed for an act of a transfer with its operands.
fn add_acting(
    values: &mut BTreeSet<i32>,
    table: &NameFacts,
    kept: Option<Kept>,
    acting: &Acting,
    operands: &[Pure],
) -> Result<(), AllocError>
    ensures { OnOk result ((c : Facts) → TellsNames table.now c
        → values.new.keys ≡ fold with_new values.old.keys (spec.acting_values c kept (acting_of acting.now) (pures_of operands.now))) }
{
    match acting {
        Acting::Takes => add_operands(values, table, kept, operands),
        _ => Ok(()),
    }
}

/// Adds the values of the operands of a function or of a subroutine that are constants.
fn add_own_values(values: &mut BTreeSet<i32>, operands: &[Pure]) -> Result<(), AllocError>
    ensures { OnOk result (values.new.keys ≡ fold with_new values.old.keys (own_values (pures_of operands.now))) }
{
    for operand in operands {
        add_if(values, own_value(operand))?;
    }
    Ok(())
}

/// Adds what a step passes by the address of a constant.
fn add_step(
    values: &mut BTreeSet<i32>,
    table: &NameFacts,
    kept: Option<Kept>,
    step: &Step,
) -> Result<(), AllocError>
    ensures { OnOk result ((c : Facts) → TellsNames table.now c → values.new.keys ≡ fold with_new values.old.keys (spec.step_values c kept (step_of step.now))) }
{
    match step {
        Step::Acts(acting, operands, _) => {
            add_acting(values, table, kept, acting, operands.as_slice())
        }
        Step::Compute(_, _, operands) => add_own_values(values, operands.as_slice()),
        Step::CallFor(_, _, operands) => add_own_values(values, operands.as_slice()),
        Step::CallSub(_, _, operands) => add_own_values(values, operands.as_slice()),
        _ => Ok(()),
    }
}

/// Adds the constants that the steps of a unit pass by their address to those of the units before it, given what its function has. The constants of a
/// file are what is there when this is done for each of its units, from an empty set on, in their order.
///
/// # Errors
///
/// Want of memory; some of the constants may be there then.
pub fn add_constants(
    constants: &mut BTreeSet<i32>,
    table: &NameFacts,
    text: &LoweredText,
    contents: &Contents,
) -> Result<(), AllocError>
    requires { AreContentsOf table.now text.now contents.now }
    ensures { OnOk result (AreMoreConstants table.now text.now constants.old.keys constants.new.keys) }
{
    let kinds = contents.kinds.as_slice();
    for (position, step) in text.steps.iter().enumerate() {
        add_step(constants, table, kept_before(kinds, position), step)?;
    }
    Ok(())
}

/// The constants of a file, each once, in ascending order.
///
/// # Errors
///
/// Want of memory.
pub fn listed_constants(alloc: Global, constants: &BTreeSet<i32>) -> Result<Vec<i32>, AllocError>
    ensures { IfOk result (λ list. list.items ≡ constants.now.keys) }
{
    let mut list = Vec::new(alloc);
    for value in constants.iter() {
        list.push(*value)?;
    }
    Ok(list)
}
