//! Which names expressions and calls mention.

ghost use Rattle.std.specs.Prelude.{◌≡◌, ◌||◌};
ghost use Rattle.c_tree.specs.Linking.{any_of};
ghost use Rattle.c_tree.specs.LinkedExpressions as tree;
ghost use Rattle.expression_linker.specs.Mentions.{has};

use c_tree::expression::{CCall, CExpr};
use first_names::FirstNames;

/// Whether a name is one of some names.
fn has(names: &FirstNames<'_, ()>, name: &[u8]) -> bool
    ensures { result ≡ has names.now name.now }
{
    names.get(name).is_some()
}

/// Whether one of two holds.
fn either(first: bool, second: bool) -> bool
    ensures { result ≡ (first || second) }
{
    first || second
}

/// Whether an expression mentions one of some names.
pub fn expression_mentions(names: &FirstNames<'_, ()>, e: &CExpr) -> bool
    ensures { result ≡ any_of (has names.now) (tree.linked e.now).names }
{
    match e {
        CExpr::Number(_) => false,
        CExpr::Str(_) => false,
        CExpr::Name(name) => has(names, name.as_slice()),
        CExpr::Unary(_, operand) => expression_mentions(names, operand.get()),
        CExpr::Cast(_, operand) => expression_mentions(names, operand.get()),
        CExpr::Binary(_, left, right) => either(
            expression_mentions(names, left.get()),
            expression_mentions(names, right.get()),
        ),
        CExpr::Choose(test, first, second) => either(
            expression_mentions(names, test.get()),
            either(
                expression_mentions(names, first.get()),
                expression_mentions(names, second.get()),
            ),
        ),
        CExpr::Index(array, index) => either(
            expression_mentions(names, array.get()),
            expression_mentions(names, index.get()),
        ),
        CExpr::Field(operand, _) => expression_mentions(names, operand.get()),
        CExpr::SizeInt => false,
        CExpr::MaxMin(_, left, right) => either(
            expression_mentions(names, left.get()),
            expression_mentions(names, right.get()),
        ),
        CExpr::Abs(operand) => expression_mentions(names, operand.get()),
    }
}

/// Whether one of some expressions mentions one of some names.
#[tactic(auto, using(crate::proofs::MentionForms::list_forms))]
fn some_mentions(names: &FirstNames<'_, ()>, list: &[CExpr]) -> bool
    ensures { result ≡ any_of (has names.now) (tree.linked_all list.now).names }
{
    match list {
        [] => false,
        [first, later @ ..] => either(
            expression_mentions(names, first),
            some_mentions(names, later),
        ),
    }
}

/// Whether a call mentions one of some names.
pub fn call_mentions(names: &FirstNames<'_, ()>, call: &CCall) -> bool
    ensures { result ≡ any_of (has names.now) (tree.linked_call call.now).names }
{
    either(
        has(names, call.name.as_slice()),
        some_mentions(names, call.arguments.as_slice()),
    )
}
