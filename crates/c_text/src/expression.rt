//! Expressions and calls.
ghost use Rattle.std.specs.Prelude.{◌≡◌, ◌++◌, OnOk};
ghost use Rattle.c_text.specs.Expressions.{own_level, doubles, reads_as_one, bare, printed_at, prefixed, arguments, callee, printed_call};

use crate::level::{Level, extreme_word, op_level, op_word, prefix_word, right_level};
use crate::out::{print_number, print_string};
use crate::types::cast_word;
use c_tree::expression::{CCall, CExpr, UnaryOp};
use std::alloc::AllocError;

/// How closely an expression binds.
#[tactic(auto, using(crate::proofs::Equations::expressions))]
fn own_level(e: &CExpr) -> Level
    ensures { result ≡ own_level e.now }
{
    match e {
        CExpr::Choose(_, _, _) => Level::Choice,
        CExpr::Binary(op, _, _) => op_level(*op),
        CExpr::Unary(_, _) | CExpr::Cast(_, _) => Level::Unary,
        CExpr::Index(_, _) | CExpr::Field(_, _) => Level::Postfix,
        CExpr::Number(_) | CExpr::Str(_) | CExpr::Name(_) => Level::Primary,
        CExpr::SizeInt | CExpr::MaxMin(_, _, _) | CExpr::Abs(_) => Level::Primary,
    }
}

/// Whether two signs read as one where no blank stands between them.
fn doubles(op: UnaryOp, inner: UnaryOp) -> bool
    ensures { result ≡ doubles op inner }
{
    match op {
        UnaryOp::Minus => matches!(inner, UnaryOp::Minus),
        UnaryOp::Address => matches!(inner, UnaryOp::Address),
        UnaryOp::Not | UnaryOp::Deref => false,
    }
}

/// Whether the operand of a sign begins with the same sign, so that the two would read as one.
#[tactic(auto, using(crate::proofs::Equations::signs))]
fn reads_as_one(op: UnaryOp, e: &CExpr) -> bool
    ensures { result ≡ reads_as_one op e.now }
{
    match e {
        CExpr::Unary(inner, _) => doubles(op, *inner),
        CExpr::Number(_) | CExpr::Str(_) | CExpr::Name(_) | CExpr::SizeInt => false,
        CExpr::Cast(_, _) | CExpr::Binary(_, _, _) | CExpr::Choose(_, _, _) => false,
        CExpr::Index(_, _) | CExpr::Field(_, _) => false,
        CExpr::MaxMin(_, _, _) | CExpr::Abs(_) => false,
    }
}

/// Appends an expression, in parentheses where it binds less closely than its place asks.
#[cycle(expression)]
#[tactic(auto, using(std::proofs::lemmas::Grind::common_steps), unfolding(crate::specs::Expressions::printed_at))]
pub(crate) fn print_at(place: Level, e: &CExpr, out: &mut Vec<u8>) -> Result<(), AllocError>
    ensures { OnOk result (out.new.items ≡ out.old.items ++ printed_at place e.now) }
{
    if place.admits(own_level(e)) {
        print_bare(e, out)
    } else {
        out.push(b'(')?;
        print_bare(e, out)?;
        out.extend_from_slice(b")")
    }
}

/// Appends an expression without parentheses round it.
#[cycle(expression)]
#[tactic(auto, using(crate::proofs::Equations::expressions, std::proofs::lemmas::Grind::common_steps))]
pub(crate) fn print_bare(e: &CExpr, out: &mut Vec<u8>) -> Result<(), AllocError>
    ensures { OnOk result (out.new.items ≡ out.old.items ++ bare e.now) }
{
    match e {
        CExpr::Number(number) => print_number(*number, out),
        CExpr::Str(bytes) => print_string(bytes.as_slice(), out),
        CExpr::Name(name) => out.extend_from_slice(name.as_slice()),
        CExpr::Unary(op, e) => print_prefixed(*op, e.get(), out),
        CExpr::Cast(of, e) => {
            out.push(b'(')?;
            out.extend_from_slice(cast_word(*of))?;
            out.push(b')')?;
            print_at(Level::Unary, e.get(), out)
        }
        CExpr::Binary(op, a, b) => {
            print_at(op_level(*op), a.get(), out)?;
            out.extend_from_slice(op_word(*op))?;
            print_at(right_level(*op), b.get(), out)
        }
        CExpr::Choose(e, a, b) => {
            print_at(Level::Disjunction, e.get(), out)?;
            out.extend_from_slice(b" ? ")?;
            print_bare(a.get(), out)?;
            out.extend_from_slice(b" : ")?;
            print_bare(b.get(), out)
        }
        CExpr::Index(e, i) => {
            print_at(Level::Postfix, e.get(), out)?;
            out.push(b'[')?;
            print_bare(i.get(), out)?;
            out.extend_from_slice(b"]")
        }
        CExpr::Field(e, name) => {
            print_at(Level::Postfix, e.get(), out)?;
            out.push(b'.')?;
            out.extend_from_slice(name.as_slice())
        }
        CExpr::SizeInt => out.extend_from_slice(b"sizeof(integer)"),
        CExpr::MaxMin(which, a, b) => {
            out.extend_from_slice(extreme_word(*which))?;
            print_bare(a.get(), out)?;
            out.extend_from_slice(b", ")?;
            print_bare(b.get(), out)?;
            out.extend_from_slice(b")")
        }
        CExpr::Abs(e) => {
            out.extend_from_slice(b"abs(")?;
            print_bare(e.get(), out)?;
            out.extend_from_slice(b")")
        }
    }
}

/// Appends a sign and its operand.
#[cycle(expression)]
#[tactic(auto, using(crate::proofs::Equations::expressions, std::proofs::lemmas::Grind::common_steps))]
fn print_prefixed(op: UnaryOp, e: &CExpr, out: &mut Vec<u8>) -> Result<(), AllocError>
    ensures { OnOk result (out.new.items ≡ out.old.items ++ prefixed op e.now) }
{
    out.extend_from_slice(prefix_word(op))?;
    if reads_as_one(op, e) {
        out.push(b' ')?;
    }
    print_at(Level::Unary, e, out)
}

/// Appends the arguments of a call, with a comma between each two.
#[tactic(auto, using(std::proofs::lemmas::Grind::common_steps))]
fn print_arguments(list: &[CExpr], out: &mut Vec<u8>) -> Result<(), AllocError>
    ensures { OnOk result (out.new.items ≡ out.old.items ++ arguments list.now) }
{
    let Some((first, later)) = list.split_first() else {
        return Ok(());
    };
    print_bare(first, out)?;
    for e in later {
        out.extend_from_slice(b", ")?;
        print_bare(e, out)?;
    }
    Ok(())
}

/// Appends what is called.
fn print_callee(through: bool, name: &[u8], out: &mut Vec<u8>) -> Result<(), AllocError>
    ensures { OnOk result (out.new.items ≡ out.old.items ++ callee through name.now) }
{
    if through {
        out.extend_from_slice(b"(*")?;
        out.extend_from_slice(name)?;
        out.extend_from_slice(b")")
    } else {
        out.extend_from_slice(name)
    }
}

/// Appends a call, without its semicolon.
pub(crate) fn print_call(call: &CCall, out: &mut Vec<u8>) -> Result<(), AllocError>
    ensures { OnOk result (out.new.items ≡ out.old.items ++ printed_call call.now) }
{
    print_callee(call.through, call.name.as_slice(), out)?;
    out.push(b'(')?;
    print_arguments(call.arguments.as_slice(), out)?;
    out.extend_from_slice(b")")
}
