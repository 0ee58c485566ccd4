//! DO. Section 11.10.

ghost use Rattle.std.specs.Prelude.{◌≡◌, ◌&&◌, ◌||◌, ◌++◌, ◌∷◌, [], true, IfOk, OnOk, None};
ghost use Rattle.f_tree.specs.Values.{Bytes};
ghost use Rattle.f_tree.specs.Terms.{refers};
ghost use Rattle.f_tree.specs.Facts.{Attribute};
ghost use Rattle.f_tree.specs.Reading.{read};
ghost use Rattle.f_tree.specs.Lines as lines;
ghost use Rattle.lowered_tree.specs.l_core.Pures as core;
ghost use Rattle.lowered_tree.specs.l_core.Steps as act;
ghost use Rattle.lowering.specs.Statements.{test_by, loop_test};
ghost use Rattle.lowered_tree.specs.Shapes.{datum_of, operator_of, pure_of, steps_of};
ghost use Rattle.expression_lowering.specs.declared.purpose.Aspect.TheVariants.{Value};
ghost use Rattle.expression_lowering.specs.TableNames.{AreFactsOf, is_lowered_value};
ghost use Rattle.expression_lowering.specs.Outcomes.{IsLoweredFor};
ghost use Rattle.statement_lowering.specs.StatementForms as form;
ghost use Rattle.statement_lowering.specs.LoweredStatements as spec;
ghost use Rattle.statement_lowering.specs.LoopTests as tests;
ghost use Rattle.statement_lowering.specs.StatementOutcomes.{IsOutcome, IsLoweredForm, IsLoweredStep};

use crate::appending::push_step;
use crate::around::Around;
use crate::assignments::ahead;
use crate::conditions::beside_zero;
use crate::copies::copy;
use expression_lowering::{LowerError, Lowered, Purpose, has_reference, is_lowered, lower_value};
use f_tree::Expr;
use f_tree::statements::LoopControl;
use lowered_tree::{Literal, Operator, Pure, Step};
use name_facts::NameFacts;
use plain_data::{Boxed, Items};
use std::alloc::{AllocError, Global};

/// Whether a constant is a number below 0.
#[tactic(auto, unfolding(crate::specs::LoopTests::sign_of))]
fn sign_of(literal: &Literal) -> Option<bool>
    ensures { result ≡ tests.sign_of (datum_of literal.now) }
{
    match literal {
        Literal::Integer(number) => Some(*number < 0),
        Literal::Logical(_) | Literal::Text(_) | Literal::Label(_) | Literal::Nothing => None,
    }
}

/// Whether a value is a number below 0, where it is a constant.
#[tactic(auto, unfolding(crate::specs::LoopTests::sign_if), using(lowered_tree::proofs::ShapeForms::pure_forms))]
fn sign_if(value: &Pure) -> Option<bool>
    ensures { result ≡ tests.sign_if (pure_of value.now) }
{
    match value {
        Pure::Constant(literal) => sign_of(literal),
        Pure::Temporary(_) | Pure::Load(_) | Pure::Name(_) | Pure::AllOf(_) => None,
        Pure::ElementOf(_, _) | Pure::FirstOf(_) | Pure::Substring(_, _, _, _) => None,
        Pure::Concatenated(_) | Pure::Prefixed(_, _) | Pure::Operated(_, _, _) => None,
        Pure::Applied(_, _) | Pure::Chosen(_, _, _) => None,
    }
}

/// The value of a variable.
#[tactic(auto, using(lowered_tree::proofs::ShapeForms::pure_forms))]
pub(crate) fn loaded(alloc: Global, name: &[u8]) -> Result<Pure, AllocError>
    ensures { IfOk result (λ p. pure_of p ≡ core.Load (core.Name name.now)) }
{
    let place = Pure::Name(Items::from_slice(alloc, name)?);
    Ok(Pure::Load(Boxed::new(alloc, place)?))
}

/// A variable beside the limit of its loop.
#[tactic(auto, using(lowered_tree::proofs::ShapeForms::pure_forms))]
fn beside_limit(alloc: Global, op: Operator, name: &[u8], limit: Pure) -> Result<Pure, AllocError>
    ensures { IfOk result (λ p. pure_of p ≡ core.Operated (operator_of op) (core.Load (core.Name name.now)) (pure_of limit)) }
{
    let value = loaded(alloc, name)?;
    Ok(Pure::Operated(op, Boxed::new(alloc, value)?, Boxed::new(alloc, limit)?))
}

/// One of two values by a condition.
#[tactic(auto, using(lowered_tree::proofs::ShapeForms::pure_forms))]
fn choose(alloc: Global, condition: Pure, one: Pure, other: Pure) -> Result<Pure, AllocError>
    ensures { IfOk result (λ p. pure_of p ≡ core.Chosen (pure_of condition) (pure_of one) (pure_of other)) }
{
    let condition = Boxed::new(alloc, condition)?;
    let one = Boxed::new(alloc, one)?;
    let other = Boxed::new(alloc, other)?;
    Ok(Pure::Chosen(condition, one, other))
}

/// The test of a loop that goes down, or up.
#[tactic(auto, unfolding(crate::specs::LoopTests::test_along))]
fn test_along(alloc: Global, is_down: bool, name: &[u8], limit: Pure) -> Result<Pure, AllocError>
    ensures { IfOk result (λ p. pure_of p ≡ tests.test_along is_down (core.Name name.now) (pure_of limit)) }
{
    if is_down {
        beside_limit(alloc, Operator::IsGreaterOrEqual, name, limit)
    } else {
        beside_limit(alloc, Operator::IsLessOrEqual, name, limit)
    }
}

/// The test of a loop by the sign that its step has.
#[tactic(auto, unfolding(crate::specs::LoopTests::test_either))]
fn test_either(alloc: Global, name: &[u8], limit: Pure, by: Pure) -> Result<Pure, AllocError>
    ensures { IfOk result (λ p. pure_of p ≡ tests.test_either (core.Name name.now) (pure_of limit) (pure_of by)) }
{
    let again = copy(alloc, &limit)?;
    let is_down = beside_zero(alloc, Operator::IsLess, by)?;
    let down = beside_limit(alloc, Operator::IsGreaterOrEqual, name, limit)?;
    let up = beside_limit(alloc, Operator::IsLessOrEqual, name, again)?;
    choose(alloc, is_down, down, up)
}

/// The test of a loop.
pub(crate) fn test(alloc: Global, name: &[u8], limit: Pure, by: Pure) -> Result<Pure, AllocError>
    ensures { IfOk result (λ p. pure_of p ≡ test_by (core.Name name.now) (pure_of limit) (pure_of by)) }
{
    match sign_if(&by) {
        Some(is_down) => test_along(alloc, is_down, name, limit),
        None => test_either(alloc, name, limit, by),
    }
}

/// Appends the first value of a loop's variable, and the test unless the range is run at least once.
#[tactic(auto, unfolding(lowering::specs::Statements::loop_test))]
fn push_loop(
    alloc: Global,
    around: Around,
    name: &[u8],
    first: Pure,
    limit: Pure,
    by: Pure,
    steps: &mut Vec<Step>,
) -> Result<(), AllocError>
    ensures { OnOk result (steps_of steps.new.items ≡ steps_of steps.old.items ++ act.Put (core.Name name.now) (pure_of first) ∷ loop_test around.once (test_by (core.Name name.now) (pure_of limit) (pure_of by)) around.room) }
{
    push_first(alloc, name, first, steps)?;
    if around.once {
        return Ok(());
    }
    let condition = test(alloc, name, limit, by)?;
    push_step(steps, Step::Unless(condition, around.room))
}

/// Appends the first value of a loop's variable.
#[tactic(auto, using(lowered_tree::proofs::ShapeForms::pure_forms))]
pub(crate) fn push_first(
    alloc: Global,
    name: &[u8],
    first: Pure,
    steps: &mut Vec<Step>,
) -> Result<(), AllocError>
    ensures { OnOk result (steps_of steps.new.items ≡ steps_of steps.old.items ++ act.Put (core.Name name.now) (pure_of first) ∷ []) }
{
    let place = Pure::Name(Items::from_slice(alloc, name)?);
    push_step(steps, Step::Put(place, first))
}

/// Appends the steps of an expression of a form that is lowered.
#[tactic(auto, unfolding(expression_lowering::specs::Outcomes::IsOutcome))]
pub(crate) fn value_for(
    alloc: Global,
    table: &NameFacts,
    purpose: Purpose,
    free: usize,
    e: &Expr,
    steps: &mut Vec<Step>,
) -> Result<Lowered, AllocError>
    ensures { IfOk result (IsLoweredFor table.now Value purpose free e.now steps.old.items steps.new.items) }
{
    match lower_value(alloc, table, purpose, free, e, steps) {
        Ok(value) => Ok(value),
        Err(_) => Err(AllocError),
    }
}

/// The step of a loop, which is 1 where none is written.
pub(crate) fn step_for(
    alloc: Global,
    table: &NameFacts,
    free: usize,
    step: &Option<Expr>,
    steps: &mut Vec<Step>,
) -> Result<Lowered, AllocError>
    ensures { IfOk result (IsLoweredStep table.now free step.now steps.old.items steps.new.items) }
{
    match step {
        None => Ok(Lowered {
            value: Pure::Constant(Literal::Integer(1)),
            free,
        }),
        Some(e) => value_for(alloc, table, Purpose::ForLater, free, e, steps),
    }
}

/// Whether an expression is lowered, where one is written.
#[tactic(auto, unfolding(crate::specs::LoweredStatements::optional_lowers))]
fn optional_lowers(table: &NameFacts, e: &Option<Expr>) -> bool
    ensures { result ≡ spec.optional_lowers table.now e.now }
{
    match e {
        None => true,
        Some(e) => is_lowered(table, e),
    }
}

/// Whether the control of a loop is lowered.
#[tactic(auto, unfolding(crate::specs::LoweredStatements::control_lowers))]
pub(crate) fn control_lowers(table: &NameFacts, control: &LoopControl) -> bool
    ensures { result ≡ spec.control_lowers table.now control.now }
{
    is_lowered(table, &control.first)
        && is_lowered(table, &control.limit)
        && optional_lowers(table, &control.step)
}

/// Whether the step of a loop has a reference to a function.
fn step_refers(table: &NameFacts, step: &Option<Expr>) -> bool
    requires { spec.optional_lowers table.now step.now ≡ true }
    ensures { (names : Bytes → Attribute) → AreFactsOf names table.now → result ≡ refers (lines.step_of names step.now) }
{
    match step {
        None => false,
        Some(e) => has_reference(table, e),
    }
}

/// Whether one of two holds.
fn either(one: bool, other: bool) -> bool
    ensures { result ≡ one || other }
{
    one || other
}

/// Whether the limit or the step of a loop has a reference to a function.
pub(crate) fn bounds_refer(table: &NameFacts, limit: &Expr, step: &Option<Expr>) -> bool
    requires limit { is_lowered_value table.now limit.now ≡ true }
    requires step { spec.optional_lowers table.now step.now ≡ true }
    ensures { (names : Bytes → Attribute) → AreFactsOf names table.now → result ≡ refers (read names limit.now).value || refers (lines.step_of names step.now) }
{
    let of_limit = has_reference(table, limit);
    let of_step = step_refers(table, step);
    either(of_limit, of_step)
}

/// Appends the steps of the control of a loop of a form that is lowered.
fn push_control(
    alloc: Global,
    table: &NameFacts,
    around: Around,
    control: &LoopControl,
    steps: &mut Vec<Step>,
) -> Result<(), AllocError>
    requires { spec.control_lowers table.now control.now ≡ true }
    ensures { OnOk result (IsLoweredForm table.now around (spec.control_lowers table.now control.now) (form.looping None control.now) steps.old.items steps.new.items) }
{
    let purpose = ahead(bounds_refer(table, &control.limit, &control.step));
    let first = value_for(alloc, table, purpose, around.free, &control.first, steps)?;
    let limit = value_for(
        alloc,
        table,
        Purpose::ForLater,
        first.free,
        &control.limit,
        steps,
    )?;
    let by = step_for(alloc, table, limit.free, &control.step, steps)?;
    push_loop(
        alloc,
        around,
        control.variable.as_slice(),
        first.value,
        limit.value,
        by.value,
        steps,
    )
}

/// DO. Section 11.10.
#[tactic(auto, unfolding(crate::specs::StatementOutcomes::IsOutcome))]
pub(crate) fn lower_loop(
    alloc: Global,
    table: &NameFacts,
    around: Around,
    control: &LoopControl,
    steps: &mut Vec<Step>,
) -> Result<(), LowerError>
    ensures { IsOutcome table.now around (spec.control_lowers table.now control.now) (form.looping None control.now) steps.old.items steps.new.items result }
{
    if !control_lowers(table, control) {
        return Err(LowerError::NotLowered);
    }
    match push_control(alloc, table, around, control, steps) {
        Ok(()) => Ok(()),
        Err(AllocError) => Err(LowerError::NoMemory),
    }
}
