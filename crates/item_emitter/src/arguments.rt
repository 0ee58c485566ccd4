//! Actual arguments of procedures. ANSI X3.9-1978, sections 15.5.2, 15.6.2 and 15.9; C89, 3.3.2.2.

ghost use Rattle.std.specs.Prelude.{◌≡◌, option_map, IfOk};
ghost use Rattle.lowered_tree.specs.Shapes.{datum_of, pure_of, pures_of};
ghost use Rattle.item_emitter.specs.Knowing.{known_of};
ghost use Rattle.item_emitter.specs.Operands as operands;
ghost use Rattle.item_emission.specs.NamedEmission as spec;

use crate::calls::{address, cast, literal_held};
use crate::elements::{number_object, variable};
use crate::known::Known;
use crate::values::{place, temporary};
use c_tree::expression::CExpr;
use c_tree::types::{CastType, FunctionType};
use item_emission::Standing;
use lowered_tree::{Literal, Pure};
use named_items::Callee;
use plain_data::Items;
use std::alloc::{AllocError, Global};

/// The address of one number.
fn number_address(alloc: Global, standing: Standing, name: &[u8]) -> Result<CExpr, AllocError>
    ensures { IfOk result (λ e. e ≡ spec.address_expr (spec.scalar_expr standing name.now)) }
{
    let object = number_object(alloc, standing, name)?;
    address(alloc, object)
}

/// One number, as it is passed: by its address, and where a parameter points to it, by the parameter.
#[tactic(auto, unfolding(item_emission::specs::NamedEmission::scalar_passed))]
fn number_passed(alloc: Global, standing: Standing, name: &[u8]) -> Result<CExpr, AllocError>
    ensures { IfOk result (λ e. e ≡ spec.scalar_passed standing name.now) }
{
    match standing {
        Standing::Own => number_address(alloc, Standing::Own, name),
        Standing::Parameter => variable(alloc, name),
        Standing::Result => number_address(alloc, Standing::Result, name),
    }
}

/// A procedure, as a function whose result is not known.
#[tactic(auto, unfolding(item_emission::specs::NamedEmission::procedure_expr))]
fn procedure(alloc: Global, callee: &Callee) -> Result<CExpr, AllocError>
    ensures { IfOk result (λ e. e ≡ spec.procedure_expr callee.now) }
{
    let name = Items::from_slice(alloc, callee.name.as_slice())?;
    cast(
        alloc,
        CastType::Function(FunctionType::Unknown),
        CExpr::Name(name),
    )
}

/// A procedure by its name, where it may be passed.
#[tactic(auto, unfolding(item_emission::specs::NamedEmission::procedure_passed, crate::specs::Knowing::is_passed, crate::specs::Knowing::callee_in))]
fn procedure_passed(alloc: Global, known: &Known, name: &[u8]) -> Result<Option<CExpr>, AllocError>
    ensures { IfOk result (λ e. e ≡ spec.procedure_passed ((known_of known.now).is_procedure name.now) ((known_of known.now).routine name.now)) }
{
    match known.routine(name) {
        Some(routine) => {
            if routine.is_passed {
                Ok(Some(procedure(alloc, &routine.callee)?))
            } else {
                Ok(None)
            }
        }
        None => Ok(None),
    }
}

/// A name that stands alone: one number, an array, or a procedure.
#[tactic(auto, unfolding(item_emission::specs::NamedEmission::name_passed))]
fn name_passed(alloc: Global, known: &Known, name: &[u8]) -> Result<Option<CExpr>, AllocError>
    ensures { IfOk result (λ e. e ≡ spec.name_passed (known_of known.now) name.now) }
{
    if known.is_scalar(name) {
        Ok(Some(number_passed(alloc, known.standing(name), name)?))
    } else if known.is_array(name) {
        Ok(Some(variable(alloc, name)?))
    } else {
        procedure_passed(alloc, known, name)
    }
}

/// The address of what holds a value, where something does.
fn addressed(alloc: Global, holder: Option<CExpr>) -> Result<Option<CExpr>, AllocError>
    ensures { IfOk result (λ e. e ≡ option_map spec.address_expr holder) }
{
    match holder {
        Some(holder) => Ok(Some(address(alloc, holder)?)),
        None => Ok(None),
    }
}

/// An actual argument.
#[tactic(auto, using(crate::proofs::ArgumentForms::argument_forms))]
fn argument(alloc: Global, known: &Known, source: &Pure) -> Result<Option<CExpr>, AllocError>
    ensures { IfOk result (λ e. e ≡ spec.argument_expr (known_of known.now) (pure_of source.now)) }
{
    match source {
        Pure::Constant(value) => {
            let holder = literal_held(alloc, known, value)?;
            addressed(alloc, holder)
        }
        Pure::Temporary(number) => {
            let holder = temporary(alloc, known, *number)?;
            addressed(alloc, holder)
        }
        Pure::Name(name) => name_passed(alloc, known, name.as_slice()),
        Pure::ElementOf(_, _) => {
            let element = place(alloc, known, source)?;
            addressed(alloc, element)
        }
        Pure::Load(_) => Ok(None),
        Pure::AllOf(_) => Ok(None),
        Pure::FirstOf(_) => Ok(None),
        Pure::Substring(_, _, _, _) => Ok(None),
        Pure::Concatenated(_) => Ok(None),
        Pure::Prefixed(_, _) => Ok(None),
        Pure::Operated(_, _, _) => Ok(None),
        Pure::Applied(_, _) => Ok(None),
        Pure::Chosen(_, _, _) => Ok(None),
    }
}

/// Whether a value that is written is a label.
#[tactic(auto, unfolding(crate::specs::Operands::is_label_written))]
fn is_label_written(value: &Literal) -> bool
    ensures { result ≡ operands.is_label_written (datum_of value.now) }
{
    matches!(value, Literal::Label(_))
}

/// Whether an actual argument is the label of an alternate return.
#[tactic(auto, using(crate::proofs::ArgumentForms::label_forms))]
fn is_label(source: &Pure) -> bool
    ensures { result ≡ operands.is_label (pure_of source.now) }
{
    match source {
        Pure::Constant(value) => is_label_written(value),
        _ => false,
    }
}

/// Actual arguments one after the other, where all have expressions. A label is passed as nothing.
pub(crate) fn arguments(
    alloc: Global,
    known: &Known,
    sources: &[Pure],
) -> Result<Option<Vec<CExpr>>, AllocError>
    ensures { IfOk result (λ es. option_map (λ es. es.items) es ≡ spec.argument_exprs (known_of known.now) (pures_of sources.now)) }
{
    let mut row = Vec::new(alloc);
    for source in sources {
        if is_label(source) {
            continue;
        }
        match argument(alloc, known, source)? {
            Some(one) => row.push(one)?,
            None => return Ok(None),
        }
    }
    Ok(Some(row))
}
