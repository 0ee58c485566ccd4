//! Which statements mention one of some names (C89, 3.6).

ghost use Rattle.std.specs.Prelude.{◌≡◌, ◌||◌};
ghost use Rattle.c_tree.specs.FlatForm.{whole_body};
ghost use Rattle.c_tree.specs.Linking.{any_of};
ghost use Rattle.expression_linker.specs.Mentions.{has};
ghost use Rattle.body_mentions.specs.Mentioned.{in_expression, in_call, in_next, in_returned, in_statement, in_statements};

use c_tree::expression::{CCall, CExpr};
use c_tree::statement::{CNext, CStmt};
use expression_linker::{call_mentions, expression_mentions};
use first_names::FirstNames;

/// Whether one of two holds.
fn either(first: bool, second: bool) -> bool
    ensures { result ≡ (first || second) }
{
    first || second
}

/// Whether an expression mentions one of some names.
#[tactic(auto, unfolding(crate::specs::Mentioned::in_expression))]
fn in_expression(names: &FirstNames<'_, ()>, e: &CExpr) -> bool
    ensures { result ≡ in_expression names.now e.now }
{
    expression_mentions(names, e)
}

/// Whether one of two expressions does.
fn in_two(names: &FirstNames<'_, ()>, first: &CExpr, second: &CExpr) -> bool
    ensures { result ≡ (in_expression names.now first.now || in_expression names.now second.now) }
{
    either(in_expression(names, first), in_expression(names, second))
}

/// Whether a call does.
#[tactic(auto, unfolding(crate::specs::Mentioned::in_call))]
fn in_call(names: &FirstNames<'_, ()>, call: &CCall) -> bool
    ensures { result ≡ in_call names.now call.now }
{
    call_mentions(names, call)
}

/// Whether what a `for` does after each turn mentions one of some names.
#[tactic(auto, using(crate::proofs::MentionEquations::next_equations))]
fn in_next(names: &FirstNames<'_, ()>, next: &CNext) -> bool
    ensures { result ≡ in_next names.now next.now }
{
    match next {
        CNext::Up(variable) => in_expression(names, variable),
        CNext::Down(variable) => in_expression(names, variable),
        CNext::Add(variable, amount) => in_two(names, variable, amount),
    }
}

/// Whether what is returned does.
#[tactic(auto, using(crate::proofs::MentionEquations::next_equations))]
fn in_returned(names: &FirstNames<'_, ()>, value: &Option<CExpr>) -> bool
    ensures { result ≡ in_returned names.now value.now }
{
    match value {
        None => false,
        Some(e) => in_expression(names, e),
    }
}

/// Whether a statement mentions one of some names.
#[cycle(statement)]
#[tactic(auto, using(crate::proofs::MentionEquations::statement_equations, std::proofs::lemmas::Grind::common_steps))]
fn in_statement(names: &FirstNames<'_, ()>, statement: &CStmt) -> bool
    ensures { result ≡ in_statement names.now statement.now }
{
    match statement {
        CStmt::Set(target, value) => in_two(names, target, value),
        CStmt::SetCall(target, call) => either(in_expression(names, target), in_call(names, call)),
        CStmt::Call(call) => in_call(names, call),
        CStmt::Empty => false,
        CStmt::Block(inner) => in_statements(names, inner.as_slice()),
        CStmt::Label(_, inner) => in_statement(names, inner.get()),
        CStmt::Goto(_) => false,
        CStmt::Return(value) => in_returned(names, value),
        CStmt::ReturnCall(call) => in_call(names, call),
        CStmt::If(test, first, other) => {
            let begun = either(
                in_expression(names, test),
                in_statements(names, first.as_slice()),
            );
            match other {
                None => begun,
                Some(second) => either(begun, in_statements(names, second.as_slice())),
            }
        }
        CStmt::Switch(value, _) => in_expression(names, value),
        CStmt::For(variable, first, test, next, turn) => either(
            either(in_two(names, variable, first), in_expression(names, test)),
            either(in_statements(names, turn.as_slice()), in_next(names, next)),
        ),
        CStmt::DoWhile(turn, test) => either(
            in_statements(names, turn.as_slice()),
            in_expression(names, test),
        ),
    }
}

/// Whether one of some statements does.
#[cycle(statement)]
#[tactic(auto, using(crate::proofs::MentionEquations::list_equations, std::proofs::lemmas::Grind::common_steps))]
fn in_statements(names: &FirstNames<'_, ()>, list: &[CStmt]) -> bool
    ensures { result ≡ in_statements names.now list.now }
{
    for statement in list {
        if in_statement(names, statement) {
            return true;
        }
    }
    false
}

/// Whether the body of a function mentions one of some names.
#[tactic(auto, using(crate::proofs::MentionEquations::body_equations))]
pub fn mentions_one(names: &FirstNames<'_, ()>, body: &[CStmt]) -> bool
    ensures { result ≡ any_of (has names.now) (whole_body body.now).items.names }
{
    in_statements(names, body)
}
