//! Statements.
ghost use Rattle.std.specs.Prelude.{◌≡◌, ◌++◌, ◌+◌, ◌<◌, ◌^◌, OnOk, IfOk, codes};
ghost use Rattle.c_text.specs.Expressions.{bare, printed_call};
ghost use Rattle.c_text.specs.Printed.{indent, target, line, assignment, printed_return, returned_call, case_line, printed_next, if_head, for_start, for_head, while_end, printed_switch, printed_stmt, printed_stmts};

use crate::expression::{print_at, print_bare, print_call};
use crate::level::Level;
use crate::out::{print_indent, print_number};
use crate::phrase::{Phrase, letters};
use c_tree::expression::{CCall, CExpr};
use c_tree::statement::{CCase, CNext, CStmt};
use std::alloc::AllocError;

/// The next deeper level. An error says that the text would be too deep for any memory.
fn deeper(depth: usize) -> Result<usize, AllocError>
    ensures { IfOk result (λ inner. inner ≡ depth + 1) }
{
    depth.checked_add(1).ok_or(AllocError)
}

/// Appends the end of a line.
fn end_line(out: &mut Vec<u8>) -> Result<(), AllocError>
    ensures { OnOk result (out.new.items ≡ out.old.items ++ codes "\n") }
{
    out.extend_from_slice(b"\n")
}

/// Appends a line of fixed text at a level.
#[tactic(auto, unfolding(crate::specs::Printed::line))]
fn print_line(depth: usize, text: &[u8], out: &mut Vec<u8>) -> Result<(), AllocError>
    ensures { OnOk result (out.new.items ≡ out.old.items ++ line depth text.now) }
{
    print_indent(depth, out)?;
    out.extend_from_slice(text)?;
    end_line(out)
}

/// Appends what is assigned and its sign.
fn print_target(to: &CExpr, out: &mut Vec<u8>) -> Result<(), AllocError>
    ensures { OnOk result (out.new.items ≡ out.old.items ++ (target to.now ++ codes " = ")) }
{
    print_at(Level::Unary, to, out)?;
    out.extend_from_slice(b" = ")
}

/// Appends an assignment of a value.
#[tactic(auto, unfolding(crate::specs::Printed::line, crate::specs::Printed::assignment))]
fn print_set(to: &CExpr, value: &CExpr, depth: usize, out: &mut Vec<u8>) -> Result<(), AllocError>
    ensures { OnOk result (out.new.items ≡ out.old.items ++ line depth (assignment to.now (bare value.now))) }
{
    print_indent(depth, out)?;
    print_target(to, out)?;
    print_bare(value, out)?;
    out.extend_from_slice(b";\n")
}

/// Appends an assignment of what a call gives.
#[tactic(auto, unfolding(crate::specs::Printed::line, crate::specs::Printed::assignment))]
fn print_set_call(
    to: &CExpr,
    call: &CCall,
    depth: usize,
    out: &mut Vec<u8>,
) -> Result<(), AllocError>
    ensures { OnOk result (out.new.items ≡ out.old.items ++ line depth (assignment to.now (printed_call call.now))) }
{
    print_indent(depth, out)?;
    print_target(to, out)?;
    print_call(call, out)?;
    out.extend_from_slice(b";\n")
}

/// Appends a call as a statement.
#[tactic(auto, unfolding(crate::specs::Printed::line))]
fn print_call_line(call: &CCall, depth: usize, out: &mut Vec<u8>) -> Result<(), AllocError>
    ensures { OnOk result (out.new.items ≡ out.old.items ++ line depth (printed_call call.now ++ codes ";")) }
{
    print_indent(depth, out)?;
    print_call(call, out)?;
    out.extend_from_slice(b";\n")
}

/// Appends a jump to a label.
#[tactic(auto, unfolding(crate::specs::Printed::line))]
fn print_goto(label: &[u8], depth: usize, out: &mut Vec<u8>) -> Result<(), AllocError>
    ensures { OnOk result (out.new.items ≡ out.old.items ++ line depth (codes "goto " ++ (label.now ++ codes ";"))) }
{
    print_indent(depth, out)?;
    out.extend_from_slice(b"goto ")?;
    out.extend_from_slice(label)?;
    out.extend_from_slice(b";\n")
}

/// Appends a return, with its value where it has one.
#[tactic(auto, unfolding(crate::specs::Printed::line, crate::specs::Printed::printed_return))]
fn print_return(value: &Option<CExpr>, depth: usize, out: &mut Vec<u8>) -> Result<(), AllocError>
    ensures { OnOk result (out.new.items ≡ out.old.items ++ line depth (printed_return value.now)) }
{
    print_indent(depth, out)?;
    match value {
        None => out.extend_from_slice(b"return;\n"),
        Some(value) => {
            out.extend_from_slice(letters(Phrase::Return))?;
            print_bare(value, out)?;
            out.extend_from_slice(b";\n")
        }
    }
}

/// Appends a return of what a call gives.
#[tactic(auto, unfolding(crate::specs::Printed::line, crate::specs::Printed::returned_call))]
fn print_return_call(call: &CCall, depth: usize, out: &mut Vec<u8>) -> Result<(), AllocError>
    ensures { OnOk result (out.new.items ≡ out.old.items ++ line depth (returned_call call.now)) }
{
    print_indent(depth, out)?;
    out.extend_from_slice(letters(Phrase::Return))?;
    print_call(call, out)?;
    out.extend_from_slice(b";\n")
}

/// Appends a case of a switch as a line.
#[tactic(auto, unfolding(crate::specs::Printed::case_line))]
fn print_case(case: &CCase, depth: usize, out: &mut Vec<u8>) -> Result<(), AllocError>
    ensures { OnOk result (out.new.items ≡ out.old.items ++ case_line depth case.now) }
{
    print_indent(depth, out)?;
    out.extend_from_slice(b"case ")?;
    print_number(case.number, out)?;
    out.extend_from_slice(letters(Phrase::CaseGoto))?;
    out.extend_from_slice(case.label.as_slice())?;
    out.extend_from_slice(b";\n")
}

/// Appends a switch.
#[tactic(auto, using(std::proofs::lemmas::Grind::common_steps), unfolding(crate::specs::Printed::line, crate::specs::Printed::switch_head, crate::specs::Printed::printed_switch))]
fn print_switch(
    value: &CExpr,
    cases: &[CCase],
    depth: usize,
    out: &mut Vec<u8>,
) -> Result<(), AllocError>
    ensures { OnOk result (out.new.items ≡ out.old.items ++ printed_switch value.now cases.now depth) }
{
    let inner = deeper(depth)?;
    print_indent(depth, out)?;
    out.extend_from_slice(letters(Phrase::Switch))?;
    print_bare(value, out)?;
    out.extend_from_slice(b") {\n")?;
    for case in cases {
        print_case(case, inner, out)?;
    }
    print_line(depth, b"}", out)
}

/// Appends what a `for` does after each turn.
#[tactic(auto, unfolding(crate::specs::Printed::printed_next))]
fn print_next(next: &CNext, out: &mut Vec<u8>) -> Result<(), AllocError>
    ensures { OnOk result (out.new.items ≡ out.old.items ++ printed_next next.now) }
{
    match next {
        CNext::Up(to) => {
            out.extend_from_slice(b"++")?;
            print_at(Level::Unary, to, out)
        }
        CNext::Down(to) => {
            out.extend_from_slice(b"--")?;
            print_at(Level::Unary, to, out)
        }
        CNext::Add(to, value) => {
            print_at(Level::Unary, to, out)?;
            out.extend_from_slice(b" += ")?;
            print_bare(value, out)
        }
    }
}

/// Appends the first line of an `if`.
#[tactic(auto, unfolding(crate::specs::Printed::line, crate::specs::Printed::if_head))]
fn print_if_head(test: &CExpr, depth: usize, out: &mut Vec<u8>) -> Result<(), AllocError>
    ensures { OnOk result (out.new.items ≡ out.old.items ++ line depth (if_head test.now)) }
{
    print_indent(depth, out)?;
    out.extend_from_slice(b"if (")?;
    print_bare(test, out)?;
    out.extend_from_slice(b") {\n")
}

/// Appends a `for` up to its test.
#[tactic(auto, unfolding(crate::specs::Printed::for_start))]
fn print_for_start(to: &CExpr, first: &CExpr, out: &mut Vec<u8>) -> Result<(), AllocError>
    ensures { OnOk result (out.new.items ≡ out.old.items ++ for_start to.now first.now) }
{
    out.extend_from_slice(b"for (")?;
    print_target(to, out)?;
    print_bare(first, out)?;
    out.extend_from_slice(b"; ")
}

/// Appends the first line of a `for`.
#[tactic(auto, unfolding(crate::specs::Printed::line, crate::specs::Printed::for_head))]
fn print_for_head(
    to: &CExpr,
    first: &CExpr,
    test: &CExpr,
    turn: &CNext,
    depth: usize,
    out: &mut Vec<u8>,
) -> Result<(), AllocError>
    ensures { OnOk result (out.new.items ≡ out.old.items ++ line depth (for_head to.now first.now test.now turn.now)) }
{
    print_indent(depth, out)?;
    print_for_start(to, first, out)?;
    print_bare(test, out)?;
    out.extend_from_slice(b"; ")?;
    print_next(turn, out)?;
    out.extend_from_slice(b") {\n")
}

/// Appends the last line of a `do`.
#[tactic(auto, unfolding(crate::specs::Printed::line, crate::specs::Printed::while_end))]
fn print_while_end(test: &CExpr, depth: usize, out: &mut Vec<u8>) -> Result<(), AllocError>
    ensures { OnOk result (out.new.items ≡ out.old.items ++ line depth (while_end test.now)) }
{
    print_indent(depth, out)?;
    out.extend_from_slice(letters(Phrase::While))?;
    print_bare(test, out)?;
    out.extend_from_slice(b");\n")
}

/// Appends the name of a label as a line, in column 1.
fn print_label(name: &[u8], out: &mut Vec<u8>) -> Result<(), AllocError>
    ensures { OnOk result (out.new.items ≡ out.old.items ++ (name.now ++ codes ":\n")) }
{
    out.extend_from_slice(name)?;
    out.extend_from_slice(b":\n")
}

/// Appends a statement at a level.
#[cycle(statement)]
#[tactic(auto, using(crate::proofs::StatementEquations::statements, std::proofs::lemmas::Grind::common_steps))]
fn print_stmt(one: &CStmt, depth: usize, out: &mut Vec<u8>) -> Result<(), AllocError>
    ensures { OnOk result (out.new.items ≡ out.old.items ++ printed_stmt one.now depth) }
{
    match one {
        CStmt::Set(to, value) => print_set(to, value, depth, out),
        CStmt::SetCall(to, call) => print_set_call(to, call, depth, out),
        CStmt::Call(call) => print_call_line(call, depth, out),
        CStmt::Empty => print_line(depth, b";", out),
        CStmt::Block(inner) => {
            print_line(depth, b"{", out)?;
            print_inner(inner.as_slice(), depth, out)?;
            print_line(depth, b"}", out)
        }
        CStmt::Label(name, inner) => {
            print_label(name.as_slice(), out)?;
            print_stmt(inner.get(), depth, out)
        }
        CStmt::Goto(label) => print_goto(label.as_slice(), depth, out),
        CStmt::Return(value) => print_return(value, depth, out),
        CStmt::ReturnCall(call) => print_return_call(call, depth, out),
        CStmt::If(test, first, other) => {
            print_if_head(test, depth, out)?;
            print_inner(first.as_slice(), depth, out)?;
            match other {
                None => print_line(depth, b"}", out),
                Some(second) => {
                    print_line(depth, letters(Phrase::Else), out)?;
                    print_inner(second.as_slice(), depth, out)?;
                    print_line(depth, b"}", out)
                }
            }
        }
        CStmt::Switch(value, cases) => print_switch(value, cases.as_slice(), depth, out),
        CStmt::For(to, first, test, turn, inner) => {
            print_for_head(to, first, test, turn, depth, out)?;
            print_inner(inner.as_slice(), depth, out)?;
            print_line(depth, b"}", out)
        }
        CStmt::DoWhile(inner, test) => {
            print_line(depth, b"do {", out)?;
            print_inner(inner.as_slice(), depth, out)?;
            print_while_end(test, depth, out)
        }
    }
}

/// Appends the statements of a block, one level deeper than the block.
#[cycle(statement)]
#[tactic(auto, using(std::proofs::lemmas::Grind::common_steps))]
fn print_inner(list: &[CStmt], depth: usize, out: &mut Vec<u8>) -> Result<(), AllocError>
    ensures { OnOk result (out.new.items ≡ out.old.items ++ printed_stmts list.now (depth + 1)) }
{
    let inner = deeper(depth)?;
    for one in list {
        print_stmt(one, inner, out)?;
    }
    Ok(())
}

/// Appends the statements of a function, one level deep.
pub(crate) fn print_body(list: &[CStmt], out: &mut Vec<u8>) -> Result<(), AllocError>
    ensures { OnOk result (out.new.items ≡ out.old.items ++ printed_stmts list.now 1) }
{
    print_inner(list, 0, out)
}
