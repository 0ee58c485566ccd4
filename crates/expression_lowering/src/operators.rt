//! Operators between two operands. Section 6.

ghost use Rattle.std.specs.Prelude.{◌≡◌};
ghost use Rattle.lowering.specs.Expressions as low;
ghost use Rattle.lowered_tree.specs.Shapes.{operator_of};
ghost use Rattle.expression_lowering.specs.Purposes.{purpose_of};
ghost use Rattle.expression_lowering.specs.LoweredForms as spec;

use crate::purpose::{Purpose, ahead};
use f_tree::BinaryOp;
use lowered_tree::Operator;

/// The form that an operator makes of its two operands.
#[derive(Clone, Copy, Debug, PartialEq, Eq)]
pub enum BinaryForm {
    /// A power, which is a function. Section 6.1.1.
    Power,
    /// An operator of lowered values.
    Operator(Operator),
    /// A concatenation. Section 6.2.
    Concatenation,
}

/// How two operands are lowered.
#[derive(Clone, Copy, Debug, PartialEq, Eq)]
pub enum Plan {
    /// A power: both are operands of a function.
    Power,
    /// An operator between two operands that are both valued.
    Between(Operator),
    /// `.AND.` or `.OR.`: the steps of the right operand are passed where the left one decides. Section 6.4.2.
    Guarded(Operator),
}

/// The form that an operator makes.
#[tactic(auto, unfolding(crate::specs::LoweredForms::form_of))]
pub(crate) fn form_of(op: BinaryOp) -> BinaryForm
    ensures { result ≡ spec.form_of op }
{
    match op {
        BinaryOp::Power => BinaryForm::Power,
        BinaryOp::Times => BinaryForm::Operator(Operator::Multiply),
        BinaryOp::Divide => BinaryForm::Operator(Operator::Divide),
        BinaryOp::Plus => BinaryForm::Operator(Operator::Add),
        BinaryOp::Minus => BinaryForm::Operator(Operator::Subtract),
        BinaryOp::Concatenate => BinaryForm::Concatenation,
        BinaryOp::Less => BinaryForm::Operator(Operator::IsLess),
        BinaryOp::LessOrEqual => BinaryForm::Operator(Operator::IsLessOrEqual),
        BinaryOp::Equal => BinaryForm::Operator(Operator::IsEqual),
        BinaryOp::NotEqual => BinaryForm::Operator(Operator::IsNotEqual),
        BinaryOp::Greater => BinaryForm::Operator(Operator::IsGreater),
        BinaryOp::GreaterOrEqual => BinaryForm::Operator(Operator::IsGreaterOrEqual),
        BinaryOp::And => BinaryForm::Operator(Operator::Both),
        BinaryOp::Or => BinaryForm::Operator(Operator::Either),
        BinaryOp::Equivalent => BinaryForm::Operator(Operator::Same),
        BinaryOp::NotEquivalent => BinaryForm::Operator(Operator::Different),
    }
}

/// Whether the left operand of an operator may leave the right one out. Section 6.4.2.
#[tactic(auto, unfolding(lowering::specs::Expressions::may_decide))]
pub(crate) fn may_decide(op: Operator) -> bool
    ensures { result ≡ low.may_decide (operator_of op) }
{
    matches!(op, Operator::Both | Operator::Either)
}

/// What the left operand is for, given whether the right one has a reference to a function.
#[tactic(auto, unfolding(crate::specs::LoweredForms::left_for))]
pub(crate) fn left_for(plan: Plan, refers: bool) -> Purpose
    ensures { purpose_of result ≡ spec.left_for plan refers }
{
    match plan {
        Plan::Guarded(_) => Purpose::ForUse,
        Plan::Between(_) => ahead(Purpose::ForUse, refers),
        Plan::Power => ahead(Purpose::ForReading, refers),
    }
}

/// What the right operand is for.
#[tactic(auto, unfolding(crate::specs::LoweredForms::right_for))]
pub(crate) fn right_for(plan: Plan) -> Purpose
    ensures { purpose_of result ≡ spec.right_for plan }
{
    match plan {
        Plan::Guarded(_) | Plan::Between(_) => Purpose::ForUse,
        Plan::Power => Purpose::ForReading,
    }
}

/// The first temporary of the right operand, given those that are free before the left one and behind it.
#[tactic(auto, unfolding(crate::specs::LoweredForms::start_for))]
pub(crate) fn start_for(plan: Plan, before: usize, behind: usize) -> usize
    ensures { result ≡ spec.start_for plan before behind }
{
    match plan {
        Plan::Guarded(_) => before,
        Plan::Between(_) | Plan::Power => behind,
    }
}
