//! Expressions, linked (C89, 3.3).

ghost use Rattle.std.specs.Prelude.{◌≡◌, ◌+◌, length, IfOk, OnOk};
ghost use Rattle.c_tree.specs.LinkedExpressions.{linked};
ghost use Rattle.linked_terms.specs.LinkedTerms.{term_of};
ghost use Rattle.expression_linker.specs.LinkedParts.{Links, is_unknown};
ghost use Rattle.expression_linker.specs.NamesInScope.{named_term, scope_of};

use crate::failure::LinkFail;
use crate::scope::NameScope;
use crate::things::NamedThing;
use c_tree::expression::CExpr;
use linked_terms::{LinkedTerm, field_name};
use plain_data::Boxed;
use run_bytes::AccessType;
use std::alloc::{AllocError, Global};

/// What a name stands for, as an expression.
#[tactic(auto, using(crate::proofs::TermForms::term_forms))]
fn term_named(thing: NamedThing) -> Result<LinkedTerm, LinkFail>
    ensures { Links term_of is_unknown result (named_term thing) }
{
    match thing {
        NamedThing::Constant(number) => Ok(LinkedTerm::Constant(number)),
        NamedThing::Variable { object, access } => Ok(LinkedTerm::Variable { object, access }),
        NamedThing::Array { object, access } => Ok(LinkedTerm::Array { object, access }),
        NamedThing::Routine(number) => Ok(LinkedTerm::Routine(number)),
        NamedThing::Missing => Err(LinkFail::Unknown),
    }
}

/// A name as an expression.
pub(crate) fn name(scope: &NameScope<'_>, name: &[u8]) -> Result<LinkedTerm, LinkFail>
    ensures { Links term_of is_unknown result (scope_of scope.now name.now) }
{
    term_named(scope.thing(name))
}

/// The number of the next string.
fn next_number(next: &mut usize) -> Result<usize, AllocError>
    ensures number { IfOk result (λ number. number ≡ next.old) }
    ensures next { OnOk result (next.new ≡ next.old + 1) }
{
    let number = *next;
    *next = number.checked_add(1).ok_or(AllocError)?;
    Ok(number)
}

/// An expression, whose strings have the numbers from `next` on.
///
/// # Errors
/// A name in it that stands for nothing, or want of memory.
#[cycle(term)]
#[tactic(auto, using(crate::proofs::TermForms::term_forms, crate::proofs::DraftForms::draft_forms))]
pub fn link_expression(
    alloc: Global,
    scope: &NameScope<'_>,
    next: &mut usize,
    e: &CExpr,
) -> Result<LinkedTerm, LinkFail>
    ensures term { Links term_of is_unknown result ((linked e.now).drawn (scope_of scope.now) next.old) }
    ensures next { OnOk result (next.new ≡ next.old + length (linked e.now).strings) }
{
    match e {
        CExpr::Number(number) => Ok(LinkedTerm::Constant(*number)),
        CExpr::Str(_) => Ok(LinkedTerm::Array {
            object: next_number(next)?,
            access: AccessType::Char,
        }),
        CExpr::Name(text) => name(scope, text.as_slice()),
        CExpr::Unary(op, operand) => {
            let operand = boxed(alloc, scope, next, operand.get())?;
            Ok(LinkedTerm::Prefixed(*op, operand))
        }
        CExpr::Cast(kind, operand) => {
            let operand = boxed(alloc, scope, next, operand.get())?;
            Ok(LinkedTerm::Cast(*kind, operand))
        }
        CExpr::Binary(op, left, right) => {
            let left = boxed(alloc, scope, next, left.get())?;
            let right = boxed(alloc, scope, next, right.get())?;
            Ok(LinkedTerm::Between(*op, left, right))
        }
        CExpr::Choose(test, first, second) => {
            let test = boxed(alloc, scope, next, test.get())?;
            let first = boxed(alloc, scope, next, first.get())?;
            let second = boxed(alloc, scope, next, second.get())?;
            Ok(LinkedTerm::Choice(test, first, second))
        }
        CExpr::Index(array, index) => {
            let array = boxed(alloc, scope, next, array.get())?;
            let index = boxed(alloc, scope, next, index.get())?;
            Ok(LinkedTerm::Element(array, index))
        }
        CExpr::Field(list, field) => {
            let list = boxed(alloc, scope, next, list.get())?;
            let name = field_name(alloc, field.as_slice())?;
            Ok(LinkedTerm::Field { list, name })
        }
        CExpr::SizeInt => Ok(LinkedTerm::Size),
        CExpr::MaxMin(which, left, right) => {
            let left = boxed(alloc, scope, next, left.get())?;
            let right = boxed(alloc, scope, next, right.get())?;
            Ok(LinkedTerm::Most(*which, left, right))
        }
        CExpr::Abs(operand) => {
            let operand = boxed(alloc, scope, next, operand.get())?;
            Ok(LinkedTerm::Magnitude(operand))
        }
    }
}

/// An expression as a part of another one.
#[cycle(term)]
fn boxed(
    alloc: Global,
    scope: &NameScope<'_>,
    next: &mut usize,
    e: &CExpr,
) -> Result<Boxed<LinkedTerm>, LinkFail>
    ensures term { Links term_of is_unknown result ((linked e.now).drawn (scope_of scope.now) next.old) }
    ensures next { OnOk result (next.new ≡ next.old + length (linked e.now).strings) }
{
    let term = link_expression(alloc, scope, next, e)?;
    Ok(Boxed::new(alloc, term)?)
}
