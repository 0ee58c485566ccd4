//! Statements, linked (C89, 3.6).

ghost use Rattle.std.specs.Prelude.{◌+◌, [], ◌∷◌, length};
ghost use Rattle.c_tree.specs.Flat as flat;
ghost use Rattle.c_tree.specs.FlatForm as form;
ghost use Rattle.first_names.specs.FirstNames.{first_of};
ghost use Rattle.expression_linker.specs.NamesInScope.{scope_of};
ghost use Rattle.flat_linker.specs.Parts.{guarded, skipped, tested_at, turns};
ghost use Rattle.flat_linker.specs.PutItems.{Puts, PutsBody};

use crate::cases::{cases_at, put_case_jumps, put_jump};
use crate::items::{
    put, put_assignment, put_branch, put_call, put_kept_call, put_next, put_return, put_select,
};
use crate::sizes::{plus, statements_size};
use crate::written::Written;
use c_tree::expression::{CCall, CExpr};
use c_tree::statement::{CCase, CNext, CStmt};
use expression_linker::{LinkFail, NameScope};
use first_names::FirstNames;
use linked_terms::{LinkedItem, LinkedUse};
use std::alloc::Global;

/// What the names and the labels in a function's statements stand for.
#[derive(Drop)]
pub(crate) struct Known<'a> {
    pub(crate) alloc: Global,
    pub(crate) scope: &'a NameScope<'a>,
    pub(crate) labels: &'a FirstNames<'a, usize>,
}

/// Puts a return of what a call gives.
fn put_return_call(known: &Known<'_>, out: &mut Written, call: &CCall) -> Result<(), LinkFail>
    ensures { PutsBody result (form.return_call call.now) (scope_of known.now.scope.now) (first_of known.now.labels.now) out.old out.new }
{
    put_call(known.alloc, known.scope, out, LinkedUse::Returned, call)?;
    put(out, LinkedItem::ReturnAnswer)
}

/// Puts a `switch`.
fn put_switch(
    known: &Known<'_>,
    out: &mut Written,
    value: &CExpr,
    cases: &[CCase],
) -> Result<(), LinkFail>
    ensures { PutsBody result (form.switch value.now cases.now) (scope_of known.now.scope.now) (first_of known.now.labels.now) out.old out.new }
{
    let first = plus(out.items.len(), 1)?;
    let otherwise = plus(first, cases.len())?;
    let places = cases_at(known.alloc, first, cases)?;
    put_select(known.alloc, known.scope, out, value, places, otherwise)?;
    put_case_jumps(known.labels, out, cases)
}

/// Puts a test of statements that stand behind it, and so many items that are passed too where it does not hold.
fn put_test(
    known: &Known<'_>,
    out: &mut Written,
    test: &CExpr,
    arm: &[CStmt],
    gap: usize,
) -> Result<(), LinkFail>
    ensures { PutsBody result (tested_at test.now (length out.old.items) (form.body_of_all arm.now).size gap) (scope_of known.now.scope.now) (first_of known.now.labels.now) out.old out.new }
{
    let on = plus(out.items.len(), 1)?;
    let behind = plus(on, statements_size(arm)?)?;
    let off = plus(behind, gap)?;
    put_branch(known.alloc, known.scope, out, test, on, off)
}

/// Puts a jump behind statements that stand behind it.
fn put_jump_behind(out: &mut Written, arm: &[CStmt]) -> Result<(), LinkFail>
    ensures { Puts result (flat.Jump (length out.old.items + 1 + (form.body_of_all arm.now).size) ∷ []) 0 1 out.old out.new }
{
    let first = plus(out.items.len(), 1)?;
    let behind = plus(first, statements_size(arm)?)?;
    put(out, LinkedItem::Jump(behind))
}

/// Puts a statement.
#[cycle(statement)]
fn put_statement(known: &Known<'_>, out: &mut Written, one: &CStmt) -> Result<(), LinkFail>
    ensures { PutsBody result (form.body one.now) (scope_of known.now.scope.now) (first_of known.now.labels.now) out.old out.new }
{
    match one {
        CStmt::Set(target, value) => {
            put_assignment(known.alloc, known.scope, out, target, value)
        }
        CStmt::SetCall(target, call) => put_kept_call(known.alloc, known.scope, out, target, call),
        CStmt::Call(call) => put_call(known.alloc, known.scope, out, LinkedUse::Ignored, call),
        CStmt::Empty => put(out, LinkedItem::Nothing),
        CStmt::Block(list) => put_statements(known, out, list.as_slice()),
        CStmt::Label(_, inner) => put_statement(known, out, inner.get()),
        CStmt::Goto(label) => put_jump(known.labels, out, label.as_slice()),
        CStmt::Return(value) => put_return(known.alloc, known.scope, out, value),
        CStmt::ReturnCall(call) => put_return_call(known, out, call),
        CStmt::If(test, first, other) => match other {
            None => put_arm(known, out, first.as_slice(), test, 0),
            Some(second) => {
                put_arm(known, out, first.as_slice(), test, 1)?;
                put_other_arm(known, out, second.as_slice())
            }
        },
        CStmt::Switch(value, cases) => put_switch(known, out, value, cases.as_slice()),
        CStmt::For(variable, first, test, after, turn) => {
            put_for(known, out, turn.as_slice(), variable, first, test, after)
        }
        CStmt::DoWhile(turn, test) => put_do_while(known, out, turn.as_slice(), test),
    }
}

/// Puts a test with what it guards: behind it there are so many items that are passed too where the test does not hold.
#[cycle(statement)]
fn put_arm(
    known: &Known<'_>,
    out: &mut Written,
    arm: &[CStmt],
    test: &CExpr,
    gap: usize,
) -> Result<(), LinkFail>
    ensures { PutsBody result (guarded test.now (form.body_of_all arm.now) gap) (scope_of known.now.scope.now) (first_of known.now.labels.now) out.old out.new }
{
    put_test(known, out, test, arm, gap)?;
    put_statements(known, out, arm)
}

/// Puts a jump behind statements, and the statements.
#[cycle(statement)]
fn put_other_arm(known: &Known<'_>, out: &mut Written, arm: &[CStmt]) -> Result<(), LinkFail>
    ensures { PutsBody result (skipped (form.body_of_all arm.now)) (scope_of known.now.scope.now) (first_of known.now.labels.now) out.old out.new }
{
    put_jump_behind(out, arm)?;
    put_statements(known, out, arm)
}

/// Puts a `for`.
#[cycle(statement)]
fn put_for(
    known: &Known<'_>,
    out: &mut Written,
    turn: &[CStmt],
    variable: &CExpr,
    first: &CExpr,
    test: &CExpr,
    after: &CNext,
) -> Result<(), LinkFail>
    ensures { PutsBody result (form.for_loop variable.now first.now test.now after.now (form.body_of_all turn.now)) (scope_of known.now.scope.now) (first_of known.now.labels.now) out.old out.new }
{
    put_assignment(known.alloc, known.scope, out, variable, first)?;
    put_turns(known, out, turn, test, after)
}

/// Puts a `for` behind its first assignment.
#[cycle(statement)]
fn put_turns(
    known: &Known<'_>,
    out: &mut Written,
    turn: &[CStmt],
    test: &CExpr,
    after: &CNext,
) -> Result<(), LinkFail>
    ensures { PutsBody result (turns test.now (form.body_of_all turn.now) after.now) (scope_of known.now.scope.now) (first_of known.now.labels.now) out.old out.new }
{
    let start = out.items.len();
    put_arm(known, out, turn, test, 2)?;
    put_next(known.alloc, known.scope, out, after)?;
    put(out, LinkedItem::Jump(start))
}

/// Puts a `do`.
#[cycle(statement)]
fn put_do_while(
    known: &Known<'_>,
    out: &mut Written,
    turn: &[CStmt],
    test: &CExpr,
) -> Result<(), LinkFail>
    ensures { PutsBody result (form.do_while (form.body_of_all turn.now) test.now) (scope_of known.now.scope.now) (first_of known.now.labels.now) out.old out.new }
{
    let start = out.items.len();
    put_statements(known, out, turn)?;
    let off = plus(out.items.len(), 1)?;
    put_branch(known.alloc, known.scope, out, test, start, off)
}

/// Puts statements.
#[cycle(statement)]
#[tactic(auto, using(std::proofs::lemmas::Grind::common_steps))]
pub(crate) fn put_statements(
    known: &Known<'_>,
    out: &mut Written,
    list: &[CStmt],
) -> Result<(), LinkFail>
    ensures { PutsBody result (form.body_of_all list.now) (scope_of known.now.scope.now) (first_of known.now.labels.now) out.old out.new }
{
    for one in list {
        put_statement(known, out, one)?;
    }
    Ok(())
}
