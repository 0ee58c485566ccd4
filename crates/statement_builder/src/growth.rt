//! What is done behind each turn of a loop: the variable grows. C89, 3.6.5.3.

ghost use Rattle.std.specs.Prelude.{◌≡◌};
ghost use Rattle.named_items.specs.Structured as spec;

use crate::alike::{are_alike, number_in};
use crate::parts::nothing;
use c_tree::expression::{BinaryOp, CExpr};
use c_tree::statement::CNext;
use named_items::Item;

/// The operands of an operator that adds.
#[tactic(auto, unfolding(named_items::specs::Structured::added_in))]
fn added_in(operator: BinaryOp, left: CExpr, right: CExpr) -> Option<(CExpr, CExpr)>
    ensures { result ≡ spec.added_in operator left right }
{
    match operator {
        BinaryOp::Add => Some((left, right)),
        _ => None,
    }
}

/// The two operands of a sum.
#[tactic(auto, using(named_items::proofs::Forms::place_forms))]
fn sum_in(e: CExpr) -> Option<(CExpr, CExpr)>
    ensures { result ≡ spec.sum_in e }
{
    match e {
        CExpr::Binary(operator, left, right) => {
            added_in(operator, left.into_inner(), right.into_inner())
        }
        other => nothing(other),
    }
}

/// Whether a number is there and is 1.
#[tactic(auto, unfolding(named_items::specs::Structured::is_one))]
fn is_one(number: Option<i32>) -> bool
    ensures { result ≡ spec.is_one number }
{
    match number {
        Some(number) => number == 1,
        None => false,
    }
}

/// The growth of a variable by an amount.
#[tactic(auto, unfolding(named_items::specs::Structured::next_by))]
fn next_by(variable: CExpr, amount: CExpr) -> CNext
    ensures { result ≡ spec.next_by variable amount }
{
    if is_one(number_in(&amount)) {
        CNext::Up(variable)
    } else {
        CNext::Add(variable, amount)
    }
}

/// The growth of a variable, where a place that is written alike is set to a sum that begins with it.
#[tactic(auto, unfolding(named_items::specs::Structured::next_from))]
fn next_from(variable: &CExpr, target: CExpr, sum: Option<(CExpr, CExpr)>) -> Option<CNext>
    ensures { result ≡ spec.next_from variable.now target sum }
{
    let (operand, amount) = sum?;
    if are_alike(variable, &target) && are_alike(variable, &operand) {
        Some(next_by(target, amount))
    } else {
        None
    }
}

/// What the item behind a turn does to the variable of the loop.
#[tactic(auto, unfolding(named_items::specs::Structured::next_for))]
pub(crate) fn next_for(variable: &CExpr, item: Option<Item>) -> Option<CNext>
    ensures { result ≡ spec.next_for variable.now item }
{
    match item {
        Some(Item::Assign(target, value)) => next_from(variable, target, sum_in(value)),
        _ => None,
    }
}
