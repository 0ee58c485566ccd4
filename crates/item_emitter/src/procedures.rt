//! Calls of procedures and their returns. ANSI X3.9-1978, sections 15.5, 15.6 and 15.8; C89, 3.3.2.2 and 3.6.6.4.

ghost use Rattle.std.specs.Prelude.{◌≡◌, option_map, IfOk};
ghost use Rattle.named_items.specs.Items as named;
ghost use Rattle.lowered_tree.specs.Shapes.{wanted_of, pure_of, pures_of};
ghost use Rattle.item_emitter.specs.Knowing.{known_of};
ghost use Rattle.item_emission.specs.NamedEmission as spec;

use crate::arguments::arguments;
use crate::known::Known;
use crate::values::{scalar, temporary, value};
use c_tree::expression::CExpr;
use f_tree::Basic;
use item_emission::Giving;
use lowered_tree::{Pure, Wanted};
use named_items::{Callee, Item};
use plain_data::Items;
use std::alloc::{AllocError, Global};

/// A function that is called, once more.
fn once_more(alloc: Global, callee: &Callee) -> Result<Callee, AllocError>
    ensures { IfOk result (λ same. same ≡ callee.now) }
{
    Ok(Callee {
        through: callee.through,
        name: Items::from_slice(alloc, callee.name.as_slice())?,
    })
}

/// The function that is called by a name, if there is one.
#[tactic(auto, unfolding(crate::specs::Knowing::callee_in))]
fn callee_of(alloc: Global, known: &Known, name: &[u8]) -> Result<Option<Callee>, AllocError>
    ensures { IfOk result (λ callee. callee ≡ (known_of known.now).routine name.now) }
{
    match known.routine(name) {
        Some(routine) => Ok(Some(once_more(alloc, &routine.callee)?)),
        None => Ok(None),
    }
}

/// A call whose value is not used, where there are a function and arguments.
#[tactic(auto, unfolding(item_emission::specs::NamedEmission::call_step, named_items::specs::Items::call_by))]
fn plain_call(callee: Option<Callee>, arguments: Option<Vec<CExpr>>) -> Option<Item>
    ensures { result ≡ spec.call_step callee (option_map (λ es. es.items) arguments) }
{
    match (callee, arguments) {
        (Some(callee), Some(arguments)) => Some(Item::Call(callee, Items::from_vec(arguments))),
        (Some(_), None) => None,
        (None, _) => None,
    }
}

/// A subroutine is called.
pub(crate) fn call(
    alloc: Global,
    known: &Known,
    name: &[u8],
    sources: &[Pure],
) -> Result<Option<Item>, AllocError>
    ensures { IfOk result (λ i. i ≡ spec.call_step ((known_of known.now).routine name.now) (spec.argument_exprs (known_of known.now) (pures_of sources.now))) }
{
    let callee = callee_of(alloc, known, name)?;
    let arguments = arguments(alloc, known, sources)?;
    Ok(plain_call(callee, arguments))
}

/// Whether a number or a truth value is wanted: that of a function, or the number of the alternate return of a subroutine.
#[tactic(auto, unfolding(item_emission::specs::NamedEmission::wants_number, c_emit::specs::Numbers::is_numeric))]
fn wants_number(want: Wanted) -> bool
    ensures { result ≡ spec.wants_number (wanted_of want) }
{
    match want {
        Wanted::Function(Basic::Integer, _) => true,
        Wanted::Function(Basic::Logical, _) => true,
        Wanted::Function(Basic::Character, _) => false,
        Wanted::Function(Basic::Untyped, _) => false,
        Wanted::Subroutine => true,
    }
}

/// A call whose value is stored, where there are a place for it and arguments.
#[tactic(auto, unfolding(named_items::specs::Items::set_call_by))]
fn stored_call(target: Option<CExpr>, callee: Callee, arguments: Option<Vec<CExpr>>) -> Option<Item>
    ensures { result ≡ named.set_call_by target callee (option_map (λ es. es.items) arguments) }
{
    match (target, arguments) {
        (Some(target), Some(arguments)) => {
            Some(Item::SetCall(target, callee, Items::from_vec(arguments)))
        }
        (Some(_), None) => None,
        (None, _) => None,
    }
}

/// A call whose value is stored, where a number is wanted.
#[tactic(auto, unfolding(item_emission::specs::NamedEmission::call_for_step))]
fn wanted_call(
    wanted: bool,
    target: Option<CExpr>,
    callee: Option<Callee>,
    arguments: Option<Vec<CExpr>>,
) -> Option<Item>
    ensures { result ≡ spec.call_for_step wanted target callee (option_map (λ es. es.items) arguments) }
{
    match (wanted, callee) {
        (true, Some(callee)) => stored_call(target, callee, arguments),
        (true, None) => None,
        (false, _) => None,
    }
}

/// A temporary gets what a function gives, or the number of the alternate return of a subroutine.
pub(crate) fn call_for(
    alloc: Global,
    known: &Known,
    number: usize,
    callee: &lowered_tree::Callee,
    sources: &[Pure],
) -> Result<Option<Item>, AllocError>
    ensures { IfOk result (λ i. i ≡ spec.call_for_step (spec.wants_number (wanted_of callee.now.want)) (spec.temporary_expr (known_of known.now) number) ((known_of known.now).routine callee.now.name) (spec.argument_exprs (known_of known.now) (pures_of sources.now))) }
{
    let target = temporary(alloc, known, number)?;
    let function = callee_of(alloc, known, callee.name.as_slice())?;
    let arguments = arguments(alloc, known, sources)?;
    Ok(wanted_call(wants_number(callee.want), target, function, arguments))
}

/// A return, where what it gives has an expression.
#[tactic(auto, unfolding(item_emission::specs::NamedEmission::return_step))]
fn returned(value: Option<CExpr>) -> Option<Item>
    ensures { result ≡ spec.return_step value }
{
    match value {
        Some(value) => Some(Item::Return(Some(value))),
        None => None,
    }
}

/// What END and RETURN give.
#[tactic(auto, using(crate::proofs::ArgumentForms::given_forms))]
fn given(alloc: Global, known: &Known, gives: &Giving) -> Result<Option<CExpr>, AllocError>
    ensures { IfOk result (λ e. e ≡ spec.given_expr (known_of known.now) gives.now) }
{
    match gives {
        Giving::Zero => Ok(Some(CExpr::Number(0))),
        Giving::Alternate => Ok(Some(CExpr::Number(0))),
        Giving::Value(name) => scalar(alloc, known, name.as_slice()),
        Giving::Nothing => Ok(None),
    }
}

/// END and RETURN.
pub(crate) fn back(alloc: Global, known: &Known) -> Result<Option<Item>, AllocError>
    ensures { IfOk result (λ i. i ≡ spec.return_step (spec.given_expr (known_of known.now) (known_of known.now).gives)) }
{
    let value = given(alloc, known, &known.gives)?;
    Ok(returned(value))
}

/// A return by the number of an alternate return, in a subroutine.
#[tactic(auto, unfolding(item_emission::specs::NamedEmission::alternate_step))]
fn alternate(gives: &Giving, value: Option<CExpr>) -> Option<Item>
    ensures { result ≡ spec.alternate_step gives.now value }
{
    match gives {
        Giving::Alternate => returned(value),
        Giving::Zero => None,
        Giving::Value(_) => None,
        Giving::Nothing => None,
    }
}

/// RETURN with the number of an alternate return.
pub(crate) fn back_by(
    alloc: Global,
    known: &Known,
    source: &Pure,
) -> Result<Option<Item>, AllocError>
    ensures { IfOk result (λ i. i ≡ spec.alternate_step (known_of known.now).gives (spec.value_expr (known_of known.now) (pure_of source.now))) }
{
    let value = value(alloc, known, source)?;
    Ok(alternate(&known.gives, value))
}
