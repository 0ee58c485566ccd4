//! Calls of the library for functions of numbers. ANSI X3.9-1978, sections 6.1.2.1 and 15.10; MIL-STD-1753; CSTR 149, on the run time library.

ghost use Rattle.std.specs.Prelude.{◌≡◌, map, option_map, IfOk};
ghost use Rattle.c_emit.specs.LibraryFunctions.{library_function};
ghost use Rattle.named_items.specs.declared.item.Item.TheVariants as item;
ghost use Rattle.named_items.specs.Items.{by_name};
ghost use Rattle.lowered_tree.specs.Shapes.{function_of, pure_of, pures_of};
ghost use Rattle.library_functions.specs.Described.{described};
ghost use Rattle.item_emitter.specs.Knowing.{known_of};
ghost use Rattle.item_emitter.specs.Operands as operands;
ghost use Rattle.item_emission.specs.NamedEmission as spec;

use crate::calls::{address, held, library_callee};
use crate::known::Known;
use crate::values::temporary;
use c_tree::expression::CExpr;
use library_functions::{LibraryFunction, library_function};
use lowered_tree::{Function, Pure};
use named_items::Item;
use plain_data::Items;
use std::alloc::{AllocError, Global};

/// The address of what holds an operand, where something does.
#[tactic(auto, unfolding(crate::specs::Operands::passed_expr))]
fn operand(alloc: Global, known: &Known, source: &Pure) -> Result<Option<CExpr>, AllocError>
    ensures { IfOk result (λ e. e ≡ operands.passed_expr (known_of known.now) (pure_of source.now)) }
{
    match held(alloc, known, source)? {
        Some(holder) => Ok(Some(address(alloc, holder)?)),
        None => Ok(None),
    }
}

/// The addresses of what holds the operands, where something holds each.
fn addresses(
    alloc: Global,
    known: &Known,
    sources: &[Pure],
) -> Result<Option<Vec<CExpr>>, AllocError>
    ensures { IfOk result (λ es. option_map (λ es. es.items) es ≡ operands.passed_exprs (known_of known.now) (pures_of sources.now)) }
{
    let mut row = Vec::new(alloc);
    for source in sources {
        match operand(alloc, known, source)? {
            Some(place) => row.push(place)?,
            None => return Ok(None),
        }
    }
    Ok(Some(row))
}

/// A call of a function of the library whose value is stored.
fn set_call(
    alloc: Global,
    target: CExpr,
    function: LibraryFunction,
    arguments: Vec<CExpr>,
) -> Result<Item, AllocError>
    ensures { IfOk result (λ i. i ≡ item.SetCall target (by_name (described function).name) arguments.items) }
{
    let callee = library_callee(alloc, function.name)?;
    Ok(Item::SetCall(target, callee, Items::from_vec(arguments)))
}

/// The call, where there are a place for its value, a function and arguments.
#[tactic(auto, unfolding(crate::specs::Operands::called))]
fn called(
    alloc: Global,
    target: Option<CExpr>,
    function: Option<LibraryFunction>,
    arguments: Option<Vec<CExpr>>,
) -> Result<Option<Item>, AllocError>
    ensures { IfOk result (λ i. i ≡ operands.called target (option_map described function) (option_map (λ es. es.items) arguments)) }
{
    match (target, function, arguments) {
        (Some(target), Some(function), Some(arguments)) => {
            Ok(Some(set_call(alloc, target, function, arguments)?))
        }
        (Some(_), Some(_), None) => Ok(None),
        (Some(_), None, _) => Ok(None),
        (None, _, _) => Ok(None),
    }
}

/// A temporary gets the value of a function of the library.
pub(crate) fn compute(
    alloc: Global,
    known: &Known,
    number: usize,
    function: Function,
    sources: &[Pure],
) -> Result<Option<Item>, AllocError>
    ensures { IfOk result (λ i. i ≡ spec.computed_step (spec.temporary_expr (known_of known.now) number) (library_function (function_of function)) (spec.held_exprs (known_of known.now) (pures_of sources.now))) }
{
    let target = temporary(alloc, known, number)?;
    let arguments = addresses(alloc, known, sources)?;
    called(alloc, target, library_function(function), arguments)
}
