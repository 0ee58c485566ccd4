//! The strings in statements (C89, 3.6).

ghost use Rattle.std.specs.Prelude.{◌≡◌, ◌++◌, OnOk};
ghost use Rattle.c_tree.specs.FlatForm.{whole_body};
ghost use Rattle.expression_linker.specs.StringsSeen.{texts};
ghost use Rattle.body_strings.specs.Strings.{of_expression, of_call, of_next, of_returned, of_statement, of_statements};

use c_tree::expression::{CCall, CExpr};
use c_tree::statement::{CNext, CStmt};
use expression_linker::{put_call_strings, put_strings};
use std::alloc::AllocError;

/// Puts the strings of an expression behind others.
#[tactic(auto, unfolding(crate::specs::Strings::of_expression))]
fn put_expression<'a>(out: &mut Vec<&'a [u8]>, e: &'a CExpr) -> Result<(), AllocError>
    ensures { OnOk result (texts out.new.items ≡ texts out.old.items ++ of_expression e.now) }
{
    put_strings(out, e)
}

/// Puts those of a call behind others.
#[tactic(auto, unfolding(crate::specs::Strings::of_call))]
fn put_call<'a>(out: &mut Vec<&'a [u8]>, call: &'a CCall) -> Result<(), AllocError>
    ensures { OnOk result (texts out.new.items ≡ texts out.old.items ++ of_call call.now) }
{
    put_call_strings(out, call)
}

/// Puts those of what a `for` does after each turn behind others.
#[tactic(auto, using(crate::proofs::StringEquations::next_equations, std::proofs::lemmas::Grind::common_steps))]
fn put_next<'a>(out: &mut Vec<&'a [u8]>, next: &'a CNext) -> Result<(), AllocError>
    ensures { OnOk result (texts out.new.items ≡ texts out.old.items ++ of_next next.now) }
{
    match next {
        CNext::Up(variable) => put_expression(out, variable),
        CNext::Down(variable) => put_expression(out, variable),
        CNext::Add(variable, amount) => {
            put_expression(out, variable)?;
            put_expression(out, amount)
        }
    }
}

/// Puts those of the head of a `for`, before what it does after each turn, behind others.
#[tactic(auto, using(std::proofs::lemmas::Grind::common_steps))]
fn put_head<'a>(
    out: &mut Vec<&'a [u8]>,
    variable: &'a CExpr,
    first: &'a CExpr,
    test: &'a CExpr,
) -> Result<(), AllocError>
    ensures { OnOk result (texts out.new.items ≡ texts out.old.items ++ (of_expression variable.now ++ (of_expression first.now ++ of_expression test.now))) }
{
    put_expression(out, variable)?;
    put_expression(out, first)?;
    put_expression(out, test)
}

/// Puts those of what is returned behind others.
#[tactic(auto, using(crate::proofs::StringEquations::next_equations, std::proofs::lemmas::Grind::common_steps))]
fn put_returned<'a>(out: &mut Vec<&'a [u8]>, value: &'a Option<CExpr>) -> Result<(), AllocError>
    ensures { OnOk result (texts out.new.items ≡ texts out.old.items ++ of_returned value.now) }
{
    match value {
        None => Ok(()),
        Some(e) => put_expression(out, e),
    }
}

/// Puts the strings of a statement behind others.
#[cycle(statement)]
#[tactic(auto, using(crate::proofs::StringEquations::statement_equations, std::proofs::lemmas::Grind::common_steps))]
fn put_statement<'a>(out: &mut Vec<&'a [u8]>, statement: &'a CStmt) -> Result<(), AllocError>
    ensures { OnOk result (texts out.new.items ≡ texts out.old.items ++ of_statement statement.now) }
{
    match statement {
        CStmt::Set(target, value) => {
            put_expression(out, target)?;
            put_expression(out, value)
        }
        CStmt::SetCall(target, call) => {
            put_expression(out, target)?;
            put_call(out, call)
        }
        CStmt::Call(call) => put_call(out, call),
        CStmt::Empty => Ok(()),
        CStmt::Block(inner) => put_statements(out, inner.as_slice()),
        CStmt::Label(_, inner) => put_statement(out, inner.get()),
        CStmt::Goto(_) => Ok(()),
        CStmt::Return(value) => put_returned(out, value),
        CStmt::ReturnCall(call) => put_call(out, call),
        CStmt::If(test, first, other) => {
            put_expression(out, test)?;
            put_statements(out, first.as_slice())?;
            match other {
                None => Ok(()),
                Some(second) => put_statements(out, second.as_slice()),
            }
        }
        CStmt::Switch(value, _) => put_expression(out, value),
        CStmt::For(variable, first, test, next, turn) => {
            put_head(out, variable, first, test)?;
            put_statements(out, turn.as_slice())?;
            put_next(out, next)
        }
        CStmt::DoWhile(turn, test) => {
            put_statements(out, turn.as_slice())?;
            put_expression(out, test)
        }
    }
}

/// Puts those of statements behind others.
#[cycle(statement)]
#[tactic(auto, using(crate::proofs::StringEquations::list_equations, std::proofs::lemmas::Grind::common_steps))]
fn put_statements<'a>(out: &mut Vec<&'a [u8]>, list: &'a [CStmt]) -> Result<(), AllocError>
    ensures { OnOk result (texts out.new.items ≡ texts out.old.items ++ of_statements list.now) }
{
    for statement in list {
        put_statement(out, statement)?;
    }
    Ok(())
}

/// Puts the strings of the body of a function behind others.
#[tactic(auto, using(crate::proofs::StringEquations::body_equations))]
pub fn put_body_strings<'a>(out: &mut Vec<&'a [u8]>, body: &'a [CStmt]) -> Result<(), AllocError>
    ensures { OnOk result (texts out.new.items ≡ texts out.old.items ++ (whole_body body.now).items.strings) }
{
    put_statements(out, body)
}
