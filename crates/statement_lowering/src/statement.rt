//! Statements by their forms.

ghost use Rattle.std.specs.Prelude.{◌≡◌, true};
ghost use Rattle.statement_lowering.specs.StatementForms as form;
ghost use Rattle.statement_lowering.specs.LoweredStatements.{is_lowered_statement};
ghost use Rattle.statement_lowering.specs.StatementOutcomes.{IsOutcome};

use crate::around::{Around, within};
use crate::assignments::{lower_assignment, lower_label_assignment};
use crate::auxiliaries::lower_auxiliary;
use crate::branches::{
    lower_assigned_go, lower_end, lower_go, lower_pick, lower_return, lower_stop,
};
use crate::calls::lower_call;
use crate::conditions::{lower_arm, lower_guard, lower_sign, lower_while};
use crate::loops::lower_loop;
use crate::transfers::lower_transfer;
use expression_lowering::LowerError;
use f_tree::Body;
use lowered_tree::Step;
use name_facts::NameFacts;
use std::alloc::Global;

/// What takes no step.
fn pass(table: &NameFacts, around: Around, steps: &mut Vec<Step>) -> Result<(), LowerError>
    ensures { IsOutcome table.now around true form.passing steps.old.items steps.new.items result }
{
    Ok(())
}

/// The labels to which a GO TO by a variable may go: those of its list, or without one those that ASSIGN statements name. Section 11.3.
#[tactic(auto, unfolding(crate::specs::StatementForms::written_or))]
fn labels_to_go<'a>(written: &'a [u32], assigned: &'a [u32]) -> &'a [u32]
    ensures { result.now ≡ form.written_or written.now assigned.now }
{
    if written.is_empty() {
        assigned
    } else {
        written
    }
}

/// Appends the steps of a statement, given what its names are, what stands around it, and which labels the ASSIGN statements of its unit
/// name.
///
/// # Errors
///
/// `NotLowered` where the statement has a form that is not lowered: no step is appended then. `NoMemory` where memory has run out, or no number
/// is left for a temporary.
pub fn lower_statement(
    alloc: Global,
    table: &NameFacts,
    around: Around,
    assigned: &[u32],
    body: &Body,
    steps: &mut Vec<Step>,
) -> Result<(), LowerError>
    ensures { IsOutcome table.now around (is_lowered_statement table.now body.now) (form.forms_of assigned.now body.now) steps.old.items steps.new.items result }
{
    match body {
        Body::Assign(target, e) => lower_assignment(alloc, table, around, target, e, steps),
        Body::AssignLabel(label, name) => {
            let variable = name.as_slice();
            lower_label_assignment(alloc, table, around, *label, variable, steps)
        }
        Body::Goto(label) => lower_go(table, around, *label, steps),
        Body::GotoList(labels, e) => {
            let picked = labels.as_slice();
            lower_pick(alloc, table, around, picked, e, steps)
        }
        Body::GotoName(name, labels) => {
            let holder = name.as_slice();
            let written = labels.as_slice();
            let allowed = labels_to_go(written, assigned);
            lower_assigned_go(alloc, table, around, holder, allowed, steps)
        }
        Body::IfSign(e, below, at, above) => {
            lower_sign(alloc, table, around, e, *below, *at, *above, steps)
        }
        Body::IfOne(e, statement) => {
            let mut under = Vec::new(alloc);
            let inner = statement.get();
            let around_inner = within(around);
            let lowered = lower_statement(alloc, table, around_inner, assigned, inner, &mut under);
            lower_guard(alloc, table, around, e, lowered, under, steps)
        }
        Body::IfThen(e) | Body::ElseIf(e) => lower_arm(alloc, table, around, e, steps),
        Body::DoWhile(_, e) => lower_while(alloc, table, around, e, steps),
        Body::Return(e) => lower_return(alloc, table, around, e, steps),
        Body::Stop(text) => {
            let text = text.as_slice();
            lower_stop(alloc, table, around, text, steps)
        }
        Body::End => lower_end(table, around, steps),
        Body::Do(_, control) => lower_loop(alloc, table, around, control, steps),
        Body::Call(name, es) => {
            let called = name.as_slice();
            let arguments = es.as_slice();
            lower_call(alloc, table, around, called, arguments, steps)
        }
        Body::Transfer(way, controls, items) => {
            let words = controls.as_slice();
            let list = items.as_slice();
            lower_transfer(alloc, table, around, *way, words, list, steps)
        }
        Body::Auxiliary(which, controls) => {
            let words = controls.as_slice();
            lower_auxiliary(alloc, table, around, *which, words, steps)
        }
        Body::Header(_, _, _) | Body::Declare(_, _) => pass(table, around, steps),
        Body::Dimension(_) | Body::Common(_) => pass(table, around, steps),
        Body::Equivalence(_) | Body::Implicit(_) => pass(table, around, steps),
        Body::ImplicitNone | Body::Parameter(_) => pass(table, around, steps),
        Body::External(_) | Body::Intrinsic(_) => pass(table, around, steps),
        Body::Save(_) | Body::Init(_) => pass(table, around, steps),
        Body::Format(_) | Body::Entry(_, _) => pass(table, around, steps),
        Body::Else | Body::EndIf => pass(table, around, steps),
        Body::EndDo | Body::Continue => pass(table, around, steps),
        Body::Include(_) => pass(table, around, steps),
    }
}
