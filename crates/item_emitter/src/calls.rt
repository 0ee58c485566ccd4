//! Calls of the library for list-directed output and STOP. ANSI X3.9-1978, sections 11.12, 12.8 and 13.6.

ghost use Rattle.std.specs.Prelude.{◌≡◌, ◌++◌, ◌∷◌, [], pos, map, Some, option_and_then, IfOk};
ghost use Rattle.c_tree.specs.declared.expression.CExpr.TheVariants as expr;
ghost use Rattle.c_emit.specs.Calls.{kind_number};
ghost use Rattle.c_emit.specs.Calls as emit;
ghost use Rattle.c_tree.specs.declared.types.CastType.TheVariants as to;
ghost use Rattle.named_items.specs.declared.item.Item.TheVariants as item;
ghost use Rattle.named_items.specs.Items.{by_name};
ghost use Rattle.lowered_tree.specs.l_core.Pures as core;
ghost use Rattle.lowered_tree.specs.Shapes.{datum_of, pure_of, pures_of, word_of, controls_of, direction_of, layout_of, acting_of};
ghost use Rattle.item_emitter.specs.Operands as operands;
ghost use Rattle.lowered_text.specs.Texts.{kinds_of};
ghost use Rattle.item_emitter.specs.Knowing.{known_of};
ghost use Rattle.item_emission.specs.NamedEmission as spec;

use crate::arithmetic::prefixed;
use crate::known::Known;
use crate::types::type_in;
use crate::values::{place, temporary};
use c_names::{constant_name, control_list_name};
use c_tree::expression::{CExpr, UnaryOp};
use c_tree::types::CastType;
use f_tree::Basic;
use lowered_text::Kept;
use lowered_tree::{Acting, Controls, Direction, Layout, Literal, Pure, Word};
use named_items::{Callee, Item};
use plain_data::{Boxed, Items};
use std::alloc::{AllocError, Global};

/// The object of a constant.
#[tactic(auto, unfolding(item_emission::specs::NamedEmission::constant_object))]
fn constant_object(alloc: Global, value: i32) -> Result<CExpr, AllocError>
    ensures { IfOk result (λ e. e ≡ spec.constant_object value) }
{
    Ok(CExpr::Name(constant_name(alloc, value)?))
}

/// The address of an object.
pub(crate) fn address(alloc: Global, object: CExpr) -> Result<CExpr, AllocError>
    ensures { IfOk result (λ e. e ≡ spec.address_expr object) }
{
    prefixed(alloc, UnaryOp::Address, object)
}

/// A cast.
pub(crate) fn cast(alloc: Global, target: CastType, operand: CExpr) -> Result<CExpr, AllocError>
    ensures { IfOk result (λ e. e ≡ expr.Cast target operand) }
{
    Ok(CExpr::Cast(target, Boxed::new(alloc, operand)?))
}

/// The object of a constant, if it has one.
#[tactic(auto, unfolding(item_emission::specs::NamedEmission::constant_held, item_emission::specs::NamedEmission::expr_if))]
fn constant_held(alloc: Global, known: &Known, value: i32) -> Result<Option<CExpr>, AllocError>
    ensures { IfOk result (λ e. e ≡ spec.constant_held (known_of known.now) value) }
{
    if known.has(value) {
        Ok(Some(constant_object(alloc, value)?))
    } else {
        Ok(None)
    }
}

/// The object of a value that is written.
#[tactic(auto, unfolding(item_emission::specs::NamedEmission::datum_held))]
pub(crate) fn literal_held(
    alloc: Global,
    known: &Known,
    value: &Literal,
) -> Result<Option<CExpr>, AllocError>
    ensures { IfOk result (λ e. e ≡ spec.datum_held (known_of known.now) (datum_of value.now)) }
{
    match value {
        Literal::Integer(number) => constant_held(alloc, known, *number),
        Literal::Logical(true) => constant_held(alloc, known, 1),
        Literal::Logical(false) => constant_held(alloc, known, 0),
        Literal::Text(_) | Literal::Label(_) | Literal::Nothing => Ok(None),
    }
}

/// What holds a value: an object of a constant or of a temporary, or its place.
#[tactic(auto, using(crate::proofs::StepForms::held_forms))]
pub(crate) fn held(alloc: Global, known: &Known, source: &Pure) -> Result<Option<CExpr>, AllocError>
    ensures { IfOk result (λ e. e ≡ spec.held_expr (known_of known.now) (pure_of source.now)) }
{
    match source {
        Pure::Constant(value) => literal_held(alloc, known, value),
        Pure::Temporary(number) => temporary(alloc, known, *number),
        Pure::Load(source) => place(alloc, known, source.get()),
        Pure::Name(_) => Ok(None),
        Pure::AllOf(_) => Ok(None),
        Pure::ElementOf(_, _) => Ok(None),
        Pure::FirstOf(_) => Ok(None),
        Pure::Substring(_, _, _, _) => Ok(None),
        Pure::Concatenated(_) => Ok(None),
        Pure::Prefixed(_, _) => Ok(None),
        Pure::Operated(_, _, _) => Ok(None),
        Pure::Applied(_, _) => Ok(None),
        Pure::Chosen(_, _, _) => Ok(None),
    }
}

/// The number that the library has for a type.
#[tactic(auto, unfolding(c_emit::specs::Calls::kind_number))]
fn number_of_type(basic: Basic) -> Option<i32>
    ensures { result ≡ kind_number basic }
{
    match basic {
        Basic::Integer => Some(3),
        Basic::Logical => Some(8),
        Basic::Character | Basic::Untyped => None,
    }
}

/// A function of the library, which is called by its name.
pub(crate) fn library_callee(alloc: Global, name: &[u8]) -> Result<Callee, AllocError>
    ensures { IfOk result (λ callee. callee ≡ by_name name.now) }
{
    Ok(Callee {
        through: false,
        name: Items::from_slice(alloc, name)?,
    })
}

/// A call of a function of the library.
pub(crate) fn library_call(
    alloc: Global,
    name: &[u8],
    arguments: Vec<CExpr>,
) -> Result<Item, AllocError>
    ensures { IfOk result (λ i. i ≡ item.Call (by_name name.now) arguments.items) }
{
    let callee = library_callee(alloc, name)?;
    Ok(Item::Call(callee, Items::from_vec(arguments)))
}

/// Two expressions in a row.
pub(crate) fn pair(alloc: Global, one: CExpr, other: CExpr) -> Result<Vec<CExpr>, AllocError>
    ensures { IfOk result (λ es. es.items ≡ one ∷ other ∷ []) }
{
    let mut row = Vec::new(alloc);
    row.push(one)?;
    row.push(other)?;
    Ok(row)
}

/// The object of a control list, by its place from 0. Fails where its number is no number of the machine.
#[tactic(auto, unfolding(item_emission::specs::NamedEmission::list_object))]
fn list_object(alloc: Global, place: usize) -> Result<CExpr, AllocError>
    ensures { IfOk result (λ e. e ≡ spec.list_object place) }
{
    match place.checked_add(1) {
        Some(number) => Ok(CExpr::Name(control_list_name(alloc, number)?)),
        None => Err(AllocError),
    }
}

/// The address of the object of a control list, as the only argument.
fn list_argument(alloc: Global, place: usize) -> Result<Vec<CExpr>, AllocError>
    ensures { IfOk result (λ es. es.items ≡ spec.address_expr (spec.list_object place) ∷ []) }
{
    let object = list_object(alloc, place)?;
    let mut row = Vec::new(alloc);
    row.push(address(alloc, object)?)?;
    Ok(row)
}

/// The call that starts an output, by the place of its control list.
#[tactic(auto, unfolding(item_emission::specs::NamedEmission::start_call))]
fn start_call(alloc: Global, place: usize) -> Result<Item, AllocError>
    ensures { IfOk result (λ i. i ≡ spec.start_call place) }
{
    let arguments = list_argument(alloc, place)?;
    library_call(alloc, b"s_wsle", arguments)
}

/// The start of an output, where it is plain and has a control list.
#[tactic(auto, unfolding(item_emission::specs::NamedEmission::start_if))]
fn start_if(alloc: Global, plain: bool, place: Option<usize>) -> Result<Option<Item>, AllocError>
    ensures { IfOk result (λ i. i ≡ spec.start_if plain place) }
{
    match place {
        Some(place) => {
            if plain {
                Ok(Some(start_call(alloc, place)?))
            } else {
                Ok(None)
            }
        }
        None => Ok(None),
    }
}

/// Whether a word is that of a unit.
#[tactic(auto, unfolding(c_emit::specs::Calls::is_unit_alone))]
fn is_unit(word: Word) -> bool
    ensures { result ≡ emit.is_unit_alone (word_of word ∷ []) }
{
    match word {
        Word::Unit => true,
        Word::Format | Word::Status | Word::File => false,
        Word::FileStatus | Word::Access | Word::Form | Word::Blank => false,
    }
}

/// Whether a unit alone is written.
#[tactic(auto, using(crate::proofs::CallForms::word_forms))]
fn is_unit_alone(words: &[Word]) -> bool
    ensures { result ≡ emit.is_unit_alone (map word_of words.now) }
{
    match words {
        [] => false,
        [word] => is_unit(*word),
        [_, _, ..] => false,
    }
}

/// Whether a unit alone is written, and where control goes at an error or at an end is not.
#[tactic(auto, unfolding(c_emit::specs::Calls::is_plain))]
fn is_plain(controls: &Controls) -> bool
    ensures { result ≡ emit.is_plain (controls_of controls.now) }
{
    is_unit_alone(controls.words.as_slice())
        && controls.on_error.is_none()
        && controls.on_end.is_none()
}

/// The start of an output on a unit.
#[tactic(auto, using(crate::proofs::CallForms::start_ranged))]
fn start_on(
    alloc: Global,
    known: &Known,
    position: usize,
    controls: &Controls,
    unit: i32,
) -> Result<Option<Item>, AllocError>
    ensures { IfOk result (λ i. i ≡ operands.start_unit (known_of known.now) position (controls_of controls.now) (Some unit)) }
{
    let _unit = unit;
    start_if(alloc, is_plain(controls), known.list(position))
}

/// The integer that is written.
#[tactic(auto, unfolding(crate::specs::Operands::integer_in))]
fn literal_integer(value: &Literal) -> Option<i32>
    ensures { result ≡ operands.integer_in (core.Constant (datum_of value.now)) }
{
    match value {
        Literal::Integer(number) => Some(*number),
        Literal::Logical(_) => None,
        Literal::Text(_) => None,
        Literal::Label(_) => None,
        Literal::Nothing => None,
    }
}

/// The integer that a value is.
#[tactic(auto, unfolding(crate::specs::Operands::integer_in), using(lowered_tree::proofs::ShapeForms::pure_forms))]
fn integer_in(source: &Pure) -> Option<i32>
    ensures { result ≡ operands.integer_in (pure_of source.now) }
{
    match source {
        Pure::Constant(value) => literal_integer(value),
        Pure::Temporary(_) => None,
        Pure::Load(_) => None,
        Pure::Name(_) => None,
        Pure::AllOf(_) => None,
        Pure::ElementOf(_, _) => None,
        Pure::FirstOf(_) => None,
        Pure::Substring(_, _, _, _) => None,
        Pure::Concatenated(_) => None,
        Pure::Prefixed(_, _) => None,
        Pure::Operated(_, _, _) => None,
        Pure::Applied(_, _) => None,
        Pure::Chosen(_, _, _) => None,
    }
}

/// The start of an output on a unit, if one is written as a constant.
#[tactic(auto, unfolding(crate::specs::Operands::start_unit))]
fn start_unit(
    alloc: Global,
    known: &Known,
    position: usize,
    controls: &Controls,
    unit: Option<i32>,
) -> Result<Option<Item>, AllocError>
    ensures { IfOk result (λ i. i ≡ operands.start_unit (known_of known.now) position (controls_of controls.now) unit) }
{
    match unit {
        Some(unit) => start_on(alloc, known, position, controls, unit),
        None => Ok(None),
    }
}

/// The start of an output, by its operands.
#[tactic(auto, using(crate::proofs::CallForms::start_forms))]
fn start(
    alloc: Global,
    known: &Known,
    position: usize,
    controls: &Controls,
    row: &[Pure],
) -> Result<Option<Item>, AllocError>
    ensures { IfOk result (λ i. i ≡ spec.start_step (known_of known.now) position (controls_of controls.now) (pures_of row.now)) }
{
    match row {
        [] => Ok(None),
        [unit] => start_unit(alloc, known, position, controls, integer_in(unit)),
        [_, _, ..] => Ok(None),
    }
}

/// The start of a transfer, which is a list-directed output.
#[tactic(auto, unfolding(crate::specs::Operands::begin_step))]
fn begin(
    alloc: Global,
    known: &Known,
    position: usize,
    way: Direction,
    layout: Layout,
    controls: &Controls,
    row: &[Pure],
) -> Result<Option<Item>, AllocError>
    ensures { IfOk result (λ i. i ≡ operands.begin_step (known_of known.now) position (direction_of way) (layout_of layout) (controls_of controls.now) (pures_of row.now)) }
{
    match (way, layout) {
        (Direction::Output, Layout::Listed) => start(alloc, known, position, controls, row),
        (Direction::Output, Layout::Labelled(_)) => Ok(None),
        (Direction::Output, Layout::Computed) => Ok(None),
        (Direction::Output, Layout::Unformatted) => Ok(None),
        (Direction::Input, _) => Ok(None),
    }
}

/// The address of the object of a constant.
fn constant_address(alloc: Global, value: i32) -> Result<CExpr, AllocError>
    ensures { IfOk result (λ e. e ≡ spec.address_expr (spec.constant_object value)) }
{
    let object = constant_object(alloc, value)?;
    address(alloc, object)
}

/// The address of an item, as that of characters.
fn item_address(alloc: Global, holder: CExpr) -> Result<CExpr, AllocError>
    ensures { IfOk result (λ e. e ≡ expr.Cast to.Chars (spec.address_expr holder)) }
{
    let place = address(alloc, holder)?;
    cast(alloc, CastType::Chars, place)
}

/// The arguments that say where an item is and how long it is, behind others.
#[tactic(auto, using(std::proofs::lemmas::Grind::common_steps))]
fn with_item(alloc: Global, mut row: Vec<CExpr>, holder: CExpr) -> Result<Vec<CExpr>, AllocError>
    ensures { IfOk result (λ es. es.items ≡ row.items ++ expr.Cast to.Chars (spec.address_expr holder) ∷ expr.Cast to.Length expr.SizeInt ∷ []) }
{
    row.push(item_address(alloc, holder)?)?;
    row.push(cast(alloc, CastType::Length, CExpr::SizeInt)?)?;
    Ok(row)
}

/// The arguments that say of which type an item is, and that it is one.
fn kind_arguments(alloc: Global, number: i32) -> Result<Vec<CExpr>, AllocError>
    ensures { IfOk result (λ es. es.items ≡ spec.address_expr (spec.constant_object number) ∷ spec.address_expr (spec.constant_object (pos 1)) ∷ []) }
{
    let kind = constant_address(alloc, number)?;
    let count = constant_address(alloc, 1)?;
    pair(alloc, kind, count)
}

/// The arguments that pass an item.
fn item_arguments(alloc: Global, number: i32, holder: CExpr) -> Result<Vec<CExpr>, AllocError>
    ensures { IfOk result (λ es. es.items ≡ spec.address_expr (spec.constant_object number) ∷ spec.address_expr (spec.constant_object (pos 1)) ∷ expr.Cast to.Chars (spec.address_expr holder) ∷ expr.Cast to.Length expr.SizeInt ∷ []) }
{
    let row = kind_arguments(alloc, number)?;
    with_item(alloc, row, holder)
}

/// The call that passes an item.
#[tactic(auto, unfolding(item_emission::specs::NamedEmission::output_call))]
fn output_call(alloc: Global, number: i32, holder: CExpr) -> Result<Item, AllocError>
    ensures { IfOk result (λ i. i ≡ spec.output_call number holder) }
{
    let arguments = item_arguments(alloc, number, holder)?;
    library_call(alloc, b"do_lio", arguments)
}

/// An item, where the number of its type and 1 have objects.
#[tactic(auto, unfolding(item_emission::specs::NamedEmission::output_if))]
fn output_if(
    alloc: Global,
    there: bool,
    number: i32,
    holder: CExpr,
) -> Result<Option<Item>, AllocError>
    ensures { IfOk result (λ i. i ≡ spec.output_if there (spec.output_call number holder)) }
{
    if there {
        Ok(Some(output_call(alloc, number, holder)?))
    } else {
        Ok(None)
    }
}

/// An item, by the number of its type and by what holds it.
#[tactic(auto, unfolding(item_emission::specs::NamedEmission::output_by))]
fn output_by(
    alloc: Global,
    known: &Known,
    number: Option<i32>,
    holder: Option<CExpr>,
) -> Result<Option<Item>, AllocError>
    ensures { IfOk result (λ i. i ≡ spec.output_by (known_of known.now) number holder) }
{
    match (number, holder) {
        (Some(number), Some(holder)) => {
            let there = known.has(number) && known.has(1);
            output_if(alloc, there, number, holder)
        }
        (Some(_), None) => Ok(None),
        (None, _) => Ok(None),
    }
}

/// The number that the library has for a type, if there is one.
fn number_of(basic: Option<Basic>) -> Option<i32>
    ensures { result ≡ option_and_then kind_number basic }
{
    match basic {
        Some(basic) => number_of_type(basic),
        None => None,
    }
}

/// An item of an output, by its operands.
#[tactic(auto, using(crate::proofs::CallForms::output_forms))]
fn output(
    alloc: Global,
    known: &Known,
    kept: Option<Kept>,
    row: &[Pure],
) -> Result<Option<Item>, AllocError>
    ensures { IfOk result (λ i. i ≡ spec.output_step (known_of known.now) (kinds_of kept) (pures_of row.now)) }
{
    match row {
        [] => Ok(None),
        [source] => {
            let holder = held(alloc, known, source)?;
            output_by(
                alloc,
                known,
                number_of(type_in(known, kept, source)),
                holder,
            )
        }
        [_, _, ..] => Ok(None),
    }
}

/// The end of an output, by its operands, of which there are none.
#[tactic(auto, unfolding(item_emission::specs::NamedEmission::finish_step), using(crate::proofs::CallForms::finish_forms))]
fn finish(alloc: Global, row: &[Pure]) -> Result<Option<Item>, AllocError>
    ensures { IfOk result (λ i. i ≡ spec.finish_step (pures_of row.now)) }
{
    match row {
        [] => Ok(Some(library_call(alloc, b"e_wsle", Vec::new(alloc))?)),
        [_, ..] => Ok(None),
    }
}

/// The end of an output that passes no step.
#[tactic(auto, using(crate::proofs::CallForms::passed_forms))]
fn finish_at(alloc: Global, passed: usize, row: &[Pure]) -> Result<Option<Item>, AllocError>
    ensures { IfOk result (λ i. i ≡ operands.finish_at passed (pures_of row.now)) }
{
    if passed == 0 {
        finish(alloc, row)
    } else {
        Ok(None)
    }
}

/// The item of an act of a transfer, by its operands.
#[tactic(auto, using(crate::proofs::CallForms::acting_forms))]
pub(crate) fn acting(
    alloc: Global,
    known: &Known,
    kept: Option<Kept>,
    position: usize,
    what: &Acting,
    row: &[Pure],
    passed: usize,
) -> Result<Option<Item>, AllocError>
    ensures { IfOk result (λ i. i ≡ spec.acting_step (known_of known.now) (kinds_of kept) position (acting_of what.now) (pures_of row.now) passed) }
{
    match what {
        Acting::Starts(way, layout, controls) => {
            begin(alloc, known, position, *way, *layout, controls, row)
        }
        Acting::Takes => output(alloc, known, kept, row),
        Acting::Finishes => finish_at(alloc, passed, row),
        Acting::Auxiliary(_, _) => Ok(None),
    }
}
