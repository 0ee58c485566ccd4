//! Statements of one item (C89, 3.6.3 and 3.6.6).

ghost use Rattle.std.specs.Prelude.{◌≡◌, [], ◌∷◌, pos, Some, IfOk};
ghost use Rattle.c_tree.specs.Terms.{Constant, Between};
ghost use Rattle.c_tree.specs.Flat as flat;
ghost use Rattle.c_tree.specs.Drafts.{drafted, joined};
ghost use Rattle.c_tree.specs.LinkedExpressions.{linked, linked_call};
ghost use Rattle.c_tree.specs.FlatForm as form;
ghost use Rattle.c_tree.specs.declared.expression.BinaryOp.TheVariants.{Add};
ghost use Rattle.linked_terms.specs.LinkedTerms.{term_of};
ghost use Rattle.linked_terms.specs.LinkedItems.{flat_of, use_of, cases_of};
ghost use Rattle.expression_linker.specs.LinkedParts.{Links, is_unknown};
ghost use Rattle.expression_linker.specs.NamesInScope.{scope_of};
ghost use Rattle.flat_linker.specs.PutItems.{Puts, PutsOne};

use crate::written::Written;
use c_tree::expression::{BinaryOp, CCall, CExpr};
use c_tree::statement::CNext;
use expression_linker::{LinkFail, LinkedCalling, NameScope, link_call, link_expression};
use linked_terms::{LinkedCases, LinkedItem, LinkedTerm, LinkedUse};
use plain_data::Boxed;
use std::alloc::{AllocError, Global};

/// Puts an item that has no strings.
pub(crate) fn put(out: &mut Written, item: LinkedItem) -> Result<(), LinkFail>
    ensures { Puts result (flat_of item ∷ []) 0 1 out.old out.new }
{
    out.items.push(item)?;
    Ok(())
}

/// Puts an assignment.
pub(crate) fn put_assignment(
    alloc: Global,
    scope: &NameScope<'_>,
    out: &mut Written,
    target: &CExpr,
    value: &CExpr,
) -> Result<(), LinkFail>
    ensures { PutsOne result (joined flat.Assign (linked target.now) (linked value.now)) (scope_of scope.now) out.old out.new }
{
    let target = link_expression(alloc, scope, &mut out.next, target)?;
    let value = link_expression(alloc, scope, &mut out.next, value)?;
    put(out, LinkedItem::Assign { target, value })
}

/// Puts a test with the positions where it goes on.
pub(crate) fn put_branch(
    alloc: Global,
    scope: &NameScope<'_>,
    out: &mut Written,
    test: &CExpr,
    on: usize,
    off: usize,
) -> Result<(), LinkFail>
    ensures { PutsOne result (drafted (λ term. flat.Branch term on off) (linked test.now)) (scope_of scope.now) out.old out.new }
{
    let test = link_expression(alloc, scope, &mut out.next, test)?;
    put(out, LinkedItem::Branch { test, on, off })
}

/// Puts a call, with what is done with its value.
pub(crate) fn put_call(
    alloc: Global,
    scope: &NameScope<'_>,
    out: &mut Written,
    answer: LinkedUse,
    call: &CCall,
) -> Result<(), LinkFail>
    ensures { PutsOne result (drafted (form.invoked (use_of answer)) (linked_call call.now)) (scope_of scope.now) out.old out.new }
{
    let LinkedCalling { callee, arguments } = link_call(alloc, scope, &mut out.next, call)?;
    put(
        out,
        LinkedItem::Invoke {
            answer,
            callee,
            arguments,
        },
    )
}

/// Puts a call whose value is stored.
pub(crate) fn put_kept_call(
    alloc: Global,
    scope: &NameScope<'_>,
    out: &mut Written,
    target: &CExpr,
    call: &CCall,
) -> Result<(), LinkFail>
    ensures { PutsOne result (form.set_call target.now call.now) (scope_of scope.now) out.old out.new }
{
    let target = link_expression(alloc, scope, &mut out.next, target)?;
    put_call(alloc, scope, out, LinkedUse::Kept(target), call)
}

/// Puts a return of a value.
fn put_value(
    alloc: Global,
    scope: &NameScope<'_>,
    out: &mut Written,
    value: &CExpr,
) -> Result<(), LinkFail>
    ensures { PutsOne result (drafted (λ term. flat.Return (Some term)) (linked value.now)) (scope_of scope.now) out.old out.new }
{
    let value = link_expression(alloc, scope, &mut out.next, value)?;
    put(out, LinkedItem::Return(Some(value)))
}

/// Puts a return, with its value where it has one.
pub(crate) fn put_return(
    alloc: Global,
    scope: &NameScope<'_>,
    out: &mut Written,
    value: &Option<CExpr>,
) -> Result<(), LinkFail>
    ensures { PutsOne result (form.returned value.now) (scope_of scope.now) out.old out.new }
{
    match value {
        None => put(out, LinkedItem::Return(None)),
        Some(value) => put_value(alloc, scope, out, value),
    }
}

/// An expression that stands once more, whose strings have the numbers from `next` on.
fn link_again(
    alloc: Global,
    scope: &NameScope<'_>,
    next: usize,
    e: &CExpr,
) -> Result<LinkedTerm, LinkFail>
    ensures { Links term_of is_unknown result ((linked e.now).drawn (scope_of scope.now) next) }
{
    let mut next = next;
    link_expression(alloc, scope, &mut next, e)
}

/// An operator between two operands.
#[tactic(auto, using(expression_linker::proofs::TermForms::term_forms))]
fn between(
    alloc: Global,
    op: BinaryOp,
    left: LinkedTerm,
    right: LinkedTerm,
) -> Result<LinkedTerm, AllocError>
    ensures { IfOk result (λ term. term_of term ≡ Between op (term_of left) (term_of right)) }
{
    Ok(LinkedTerm::Between(op, Boxed::new(alloc, left)?, Boxed::new(alloc, right)?))
}

/// The number 1.
#[tactic(auto, using(expression_linker::proofs::TermForms::term_forms))]
fn one() -> LinkedTerm
    ensures { term_of result ≡ Constant (pos 1) }
{
    LinkedTerm::Constant(1)
}

/// Puts an assignment of a variable that becomes one more or one less.
fn put_step(
    alloc: Global,
    scope: &NameScope<'_>,
    out: &mut Written,
    op: BinaryOp,
    variable: &CExpr,
) -> Result<(), LinkFail>
    ensures { PutsOne result (drafted (λ term. flat.Assign term (Between op term (Constant (pos 1)))) (linked variable.now)) (scope_of scope.now) out.old out.new }
{
    let left = link_again(alloc, scope, out.next, variable)?;
    let target = link_expression(alloc, scope, &mut out.next, variable)?;
    let value = between(alloc, op, left, one())?;
    put(out, LinkedItem::Assign { target, value })
}

/// Puts an assignment of a variable that becomes more by an amount.
fn put_sum(
    alloc: Global,
    scope: &NameScope<'_>,
    out: &mut Written,
    variable: &CExpr,
    amount: &CExpr,
) -> Result<(), LinkFail>
    ensures { PutsOne result (joined (λ term more. flat.Assign term (Between Add term more)) (linked variable.now) (linked amount.now)) (scope_of scope.now) out.old out.new }
{
    let left = link_again(alloc, scope, out.next, variable)?;
    let target = link_expression(alloc, scope, &mut out.next, variable)?;
    let right = link_expression(alloc, scope, &mut out.next, amount)?;
    let value = between(alloc, BinaryOp::Add, left, right)?;
    put(out, LinkedItem::Assign { target, value })
}

/// Puts what a `for` does after each turn.
pub(crate) fn put_next(
    alloc: Global,
    scope: &NameScope<'_>,
    out: &mut Written,
    after: &CNext,
) -> Result<(), LinkFail>
    ensures { PutsOne result (form.next_item after.now) (scope_of scope.now) out.old out.new }
{
    match after {
        CNext::Up(variable) => put_step(alloc, scope, out, BinaryOp::Add, variable),
        CNext::Down(variable) => put_step(alloc, scope, out, BinaryOp::Subtract, variable),
        CNext::Add(variable, amount) => put_sum(alloc, scope, out, variable, amount),
    }
}

/// Puts the test of a `switch` with its cases.
pub(crate) fn put_select(
    alloc: Global,
    scope: &NameScope<'_>,
    out: &mut Written,
    value: &CExpr,
    cases: LinkedCases,
    otherwise: usize,
) -> Result<(), LinkFail>
    ensures { PutsOne result (drafted (λ term. flat.Select term (cases_of cases) otherwise) (linked value.now)) (scope_of scope.now) out.old out.new }
{
    let value = link_expression(alloc, scope, &mut out.next, value)?;
    put(
        out,
        LinkedItem::Select {
            value,
            cases,
            otherwise,
        },
    )
}
