//! Calls, once their target, their function and their arguments have values (C89, 3.3.2.2).

ghost use Rattle.std.specs.Prelude.{◌≡◌, ◌≤◌, ℕ, IfOk, List, Option, length, take};
ghost use Rattle.c_tree.specs.declared.outcome.CValue.{CValue};
ghost use Rattle.c_tree.specs.Steps as steps;
ghost use Rattle.c_tree.specs.World.{World};
ghost use Rattle.run_bytes.specs.Answers.{answered};
ghost use Rattle.linked_terms.specs.LinkedTerms.{terms_of};
ghost use Rattle.linked_terms.specs.LinkedItems.{callee_of, use_of};
ghost use Rattle.item_deeds.specs.Deeds.{wants_of, view_of, IsTold, happening, happening_or};
ghost use Rattle.item_deeds.specs.Calls.{value_call, invoked_call, deed_call, deed_call_or};

use crate::argument_values::put_values;
use crate::deeds::Deed;
use crate::views::{CallView, CallWants};
use c_tree::outcome::{CFault, CValue};
use linked_terms::{LinkedCallee, LinkedTerm, LinkedUse};
use run_bytes::RunBytes;
use term_values::{place_named, value_of};

/// What is done with the answer to a call, whose target is settled before it.
fn wanted(run: &RunBytes, how: &LinkedUse) -> Result<CallWants, CFault>
    ensures { answered wants_of result ≡ steps.wanted run.now (use_of how.now) }
{
    match how {
        LinkedUse::Ignored => Ok(CallWants::Nothing),
        LinkedUse::Kept(target) => match place_named(run, target) {
            Ok(place) => Ok(CallWants::Value(place)),
            Err(fault) => Err(fault),
        },
        LinkedUse::Returned => Ok(CallWants::Answer),
    }
}

/// The function that a call names.
fn function_named(run: &RunBytes, callee: &LinkedCallee) -> Result<CValue, CFault>
    ensures { answered (λ value. value) result ≡ steps.callee_of run.now (callee_of callee.now) }
{
    match callee {
        LinkedCallee::Direct(number) => Ok(CValue::Function(*number)),
        LinkedCallee::Through(term) => value_of(run, term),
    }
}

/// A call of a function of a program that has `own` of them; those of the library have the numbers behind them.
fn called(own: usize, view: CallView, wants: CallWants, function: CValue, count: usize) -> Deed
    ensures meaning { (world : World) → (values : List CValue) → steps.called own (view_of view) world (wants_of wants) function (take count values) ≡ happening world values result }
    ensures calls { (values : List CValue) → value_call own (wants_of wants) (take count values) function ≡ deed_call values result }
    ensures told { (room : ℕ) → count ≤ room → IsTold view.position room result }
{
    match function {
        CValue::Function(number) if number < own => Deed::Calls {
            view: CallView { wants, ..view },
            number,
            count,
        },
        CValue::Function(number) => Deed::Library {
            view,
            wants,
            number: number - own,
            count,
        },
        _ => Deed::Breaks(CFault::Kind),
    }
}

/// A call: its target, its function and its arguments, in this order.
pub(crate) fn invoked(
    own: usize,
    view: CallView,
    how: &LinkedUse,
    callee: &LinkedCallee,
    arguments: &[LinkedTerm],
    run: &RunBytes,
    buffer: &mut [CValue],
) -> Result<Deed, CFault>
    requires { length arguments.now ≤ length buffer.old }
    ensures told { IfOk result (IsTold view.position (length buffer.new)) }
    ensures meaning { (world : World) → world.objects ≡ run.now →
        steps.invoked own (view_of view) world (use_of how.now) (callee_of callee.now) (terms_of arguments.now) ≡ happening_or world buffer.new result }
    ensures calls { invoked_call own run.now (use_of how.now) (callee_of callee.now) (terms_of arguments.now) ≡ deed_call_or buffer.new result }
{
    let wants = wanted(run, how)?;
    let function = function_named(run, callee)?;
    put_values(run, arguments, buffer)?;
    Ok(called(own, view, wants, function, arguments.len()))
}
