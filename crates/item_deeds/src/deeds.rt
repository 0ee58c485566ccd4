//! What a flat item does in a function (C89, 3.6).

ghost use Rattle.std.specs.Prelude.{◌≡◌, ◌≤◌, ◌<◌, IfOk, ◌+◌, ◌^◌, List, Option, length};
ghost use Rattle.c_tree.specs.run_state.Units.{Units};
ghost use Rattle.c_tree.specs.Linking as linking;
ghost use Rattle.c_tree.specs.Objects as objects;
ghost use Rattle.c_tree.specs.Steps as steps;
ghost use Rattle.c_tree.specs.Steps.{View};
ghost use Rattle.c_tree.specs.simulation.Machine.{Goes};
ghost use Rattle.c_tree.specs.World.{Transfer};
ghost use Rattle.run_bytes.specs.Answers.{answered};
ghost use Rattle.run_bytes.specs.Layout.{Stores};
ghost use Rattle.linked_terms.specs.LinkedTerms.{term_of};
ghost use Rattle.linked_terms.specs.LinkedItems.{cases_of, flat_of};
ghost use Rattle.term_values.specs.Finds.{place_of_numbers};
ghost use Rattle.item_deeds.specs.Deeds.{IfDone, IfFound, view_of, world_of, IsTold, happening, happening_or, going, answering, branched, selected, returned, argument_count};
ghost use Rattle.item_deeds.specs.Calls.{item_call, deed_call, deed_call_or, KeepsObjects};
ghost use Rattle.item_deeds.specs.Forms.{SameForms};

use crate::calls::invoked;
use crate::cases::case_position;
use crate::views::{CallView, CallWants};
use c_tree::outcome::{CFault, CValue};
use c_tree::types::ResultType;
use linked_terms::{LinkedCases, LinkedItem, LinkedTerm};
use run_bytes::RunBytes;
use term_values::{NumberPlace, number_of, number_place, place_named, test_of, value_of};

/// What a flat item does.
#[derive(Clone, Copy, Debug, PartialEq, Eq)]
pub enum Deed {
    /// The function goes on.
    Goes(CallView),
    /// A function of the program is called.
    Calls {
        /// The view that waits.
        view: CallView,
        /// The number of the function.
        number: usize,
        /// How many arguments it is given.
        count: usize,
    },
    /// A function of the library is called, in one step.
    Library {
        /// The view at the call.
        view: CallView,
        /// What is done with its answer.
        wants: CallWants,
        /// Its number among those of the library.
        number: usize,
        /// How many arguments it is given.
        count: usize,
    },
    /// The function answers its caller.
    Answers(Option<i32>),
    /// The run breaks by a fault.
    Breaks(CFault),
}

/// A store at a place of numbers.
#[tactic(auto, unfolding(c_tree::specs::Objects::stored))]
fn put(run: &mut RunBytes, place: NumberPlace, value: CValue) -> Result<(), CFault>
    ensures { Stores (λ all. objects.stored all (place_of_numbers place) value) run.old run.new result }
{
    match value {
        CValue::Number(number) => run.put_number(place.object, place.offset, number),
        _ => Err(CFault::Kind),
    }
}

/// A store: its place, its value and the store, in this order.
#[tactic(auto, using(crate::proofs::FormLaws::form_laws))]
fn assigned(
    view: CallView,
    target: &LinkedTerm,
    value: &LinkedTerm,
    run: &mut RunBytes,
) -> Result<CallView, CFault>
    requires { view.position + 1 < 2 ^ 64 }
    ensures meaning { (units : Units) → (transfer : Option Transfer) →
        steps.assigned (view_of view) (world_of run.old units transfer) (term_of target.now) (term_of value.now) ≡ going (world_of run.new units transfer) result }
    ensures forms { SameForms run.old run.new }
{
    match number_place(run, target) {
        Some(place) => {
            let new = value_of(run, value)?;
            put(run, place, new)?;
        }
        None => {
            let place = place_named(run, target)?;
            let new = value_of(run, value)?;
            run.store(place.at, place.access, new)?;
        }
    }
    Ok(view.at(view.position + 1))
}

/// A test.
fn branched(
    view: CallView,
    test: &LinkedTerm,
    on: usize,
    off: usize,
    run: &RunBytes,
) -> Result<CallView, CFault>
    ensures { (units : Units) → (transfer : Option Transfer) →
        branched (view_of view) (world_of run.now units transfer) (term_of test.now) on off ≡ going (world_of run.now units transfer) result }
{
    if test_of(run, test)? {
        Ok(view.at(on))
    } else {
        Ok(view.at(off))
    }
}

/// A `switch`.
#[tactic(auto, unfolding(crate::specs::Deeds::selected))]
fn selected(
    view: CallView,
    value: &LinkedTerm,
    cases: &LinkedCases,
    otherwise: usize,
    run: &RunBytes,
) -> Result<CallView, CFault>
    ensures { (units : Units) → (transfer : Option Transfer) →
        selected (view_of view) (world_of run.now units transfer) (term_of value.now) (cases_of cases.now) otherwise ≡ going (world_of run.now units transfer) result }
{
    let number = number_of(run, value)?;
    Ok(view.at(case_position(number, cases, otherwise)))
}

/// What a function gives its caller by a value.
fn given_by(gives: ResultType, value: CValue) -> Result<Option<i32>, CFault>
    ensures { answered (λ answer. answer) result ≡ steps.given_by gives value }
{
    match (gives, value) {
        (ResultType::Void, _) => Ok(None),
        (_, CValue::Number(number)) => Ok(Some(number)),
        _ => Err(CFault::Kind),
    }
}

/// What a function gives its caller by the answer to its own call.
fn passed_on(gives: ResultType, answer: Option<i32>) -> Option<i32>
    ensures { result ≡ steps.passed_on gives answer }
{
    match gives {
        ResultType::Void => None,
        _ => answer,
    }
}

/// The return of a value.
#[tactic(auto, unfolding(crate::specs::Deeds::returned))]
fn returned(gives: ResultType, value: &LinkedTerm, run: &RunBytes) -> Result<Option<i32>, CFault>
    ensures { (units : Units) → (transfer : Option Transfer) →
        returned gives (world_of run.now units transfer) (term_of value.now) ≡ answering (world_of run.now units transfer) result }
{
    let value = value_of(run, value)?;
    given_by(gives, value)
}

/// A store of a number at a place of numbers. It answers whether it was done by the short way; if not, nothing changed.
#[tactic(auto, using(crate::proofs::FormLaws::form_laws))]
fn numbers_assigned(target: &LinkedTerm, value: &LinkedTerm, run: &mut RunBytes) -> bool
    ensures meaning { IfDone result ((view : View) → (units : Units) → (transfer : Option Transfer) →
        steps.assigned view (world_of run.old units transfer) (term_of target.now) (term_of value.now) ≡ Goes (record view { position = view.position + 1 }) (world_of run.new units transfer)) (run.new ≡ run.old) }
    ensures forms { SameForms run.old run.new }
{
    let Some(place) = number_place(run, target) else {
        return false;
    };
    match value_of(run, value) {
        Ok(new) => match put(run, place, new) {
            Ok(()) => true,
            Err(_) => false,
        },
        Err(_) => false,
    }
}

/// The position at which a function goes on behind an item that calls nothing, where the short way finds it: then the item is done, and
/// the view is the same but for its position. Else nothing is done, and `perform` tells what the item does.
#[tactic(auto, using(crate::proofs::DeedLaws::deed_laws, crate::proofs::FormLaws::form_laws))]
pub fn next_position(position: usize, item: &LinkedItem, run: &mut RunBytes) -> Option<usize>
    requires { position + 1 < 2 ^ 64 }
    ensures meaning { IfFound result (λ next. (function : linking.Function) → (view : View) → view.position ≡ position → (units : Units) → (transfer : Option Transfer) →
        steps.deed function view (world_of run.old units transfer) (flat_of item.now) ≡ Goes (record view { position = next }) (world_of run.new units transfer)) (run.new ≡ run.old) }
    ensures forms { SameForms run.old run.new }
{
    match item {
        LinkedItem::Assign { target, value } => {
            if numbers_assigned(target, value, run) {
                Some(position + 1)
            } else {
                None
            }
        }
        LinkedItem::Branch { test, on, off } => match test_of(run, test) {
            Ok(true) => Some(*on),
            Ok(false) => Some(*off),
            Err(_) => None,
        },
        LinkedItem::Jump(next) => Some(*next),
        LinkedItem::Nothing => Some(position + 1),
        _ => None,
    }
}

/// What an item does, or its fault.
#[tactic(auto, using(crate::proofs::FormLaws::form_laws, crate::proofs::DeedLaws::deed_laws))]
fn performed(
    own: usize,
    gives: ResultType,
    view: CallView,
    item: &LinkedItem,
    run: &mut RunBytes,
    buffer: &mut [CValue],
) -> Result<Deed, CFault>
    requires position { view.position + 1 < 2 ^ 64 }
    requires room { argument_count item.now ≤ length buffer.old }
    ensures told { IfOk result (IsTold view.position (length buffer.new)) }
    ensures meaning { (function : linking.Function) → function.own ≡ own → function.result ≡ gives → (units : Units) → (transfer : Option Transfer) →
        steps.deed function (view_of view) (world_of run.old units transfer) (flat_of item.now) ≡ happening_or (world_of run.new units transfer) buffer.new result }
    ensures calls { item_call own run.old (flat_of item.now) ≡ deed_call_or buffer.new result }
    ensures objects { IfOk result (KeepsObjects run.old run.new) }
    ensures forms { SameForms run.old run.new }
{
    match item {
        LinkedItem::Assign { target, value } => Ok(Deed::Goes(assigned(view, target, value, run)?)),
        LinkedItem::Branch { test, on, off } => {
            Ok(Deed::Goes(branched(view, test, *on, *off, run)?))
        }
        LinkedItem::Select {
            value,
            cases,
            otherwise,
        } => Ok(Deed::Goes(selected(view, value, cases, *otherwise, run)?)),
        LinkedItem::Jump(position) => Ok(Deed::Goes(view.at(*position))),
        LinkedItem::Invoke {
            answer,
            callee,
            arguments,
        } => invoked(own, view, answer, callee, arguments.as_slice(), run, buffer),
        LinkedItem::Return(None) => Ok(Deed::Answers(None)),
        LinkedItem::Return(Some(value)) => Ok(Deed::Answers(returned(gives, value, run)?)),
        LinkedItem::ReturnAnswer => Ok(Deed::Answers(passed_on(gives, view.answer))),
        LinkedItem::Nothing => Ok(Deed::Goes(view.at(view.position + 1))),
    }
}

/// What a flat item does in a function that gives its caller such a value, in a program that has `own` functions. The buffer has room for
/// the arguments of the item. Whatever the units are and whichever transfer is in progress, they stay as they are. A function of the library
/// that the deed calls is the one that the item calls, with the same arguments, and the objects are as they were before the item.
pub fn perform(
    own: usize,
    gives: ResultType,
    view: CallView,
    item: &LinkedItem,
    run: &mut RunBytes,
    buffer: &mut [CValue],
) -> Deed
    requires position { view.position + 1 < 2 ^ 64 }
    requires room { argument_count item.now ≤ length buffer.old }
    ensures told { IsTold view.position (length buffer.new) result }
    ensures meaning { (function : linking.Function) → function.own ≡ own → function.result ≡ gives → (units : Units) → (transfer : Option Transfer) →
        steps.deed function (view_of view) (world_of run.old units transfer) (flat_of item.now) ≡ happening (world_of run.new units transfer) buffer.new result }
    ensures calls { item_call own run.old (flat_of item.now) ≡ deed_call buffer.new result }
    ensures objects { KeepsObjects run.old run.new result }
    ensures forms { SameForms run.old run.new }
{
    match performed(own, gives, view, item, run, buffer) {
        Ok(deed) => deed,
        Err(fault) => Deed::Breaks(fault),
    }
}
