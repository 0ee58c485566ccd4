//! Expressions lowered for those who have nothing but a tree and a table of the names.

ghost use Rattle.std.specs.Prelude.{◌≡◌, true};
ghost use Rattle.f_tree.specs.Values.{Bytes};
ghost use Rattle.f_tree.specs.Facts.{Attribute};
ghost use Rattle.f_tree.specs.Terms.{refers};
ghost use Rattle.f_tree.specs.Reading.{read};
ghost use Rattle.expression_lowering.specs.declared.purpose.Aspect.TheVariants.{Value, Actual};
ghost use Rattle.expression_lowering.specs.TableNames.{AreFactsOf, is_lowered_value};
ghost use Rattle.expression_lowering.specs.Outcomes.{IsOutcome};

use crate::answers::{LowerError, Lowered};
use crate::coverage::is_lowered;
use crate::expressions::lower;
use crate::purpose::{Aspect, Purpose};
use crate::references::refers;
use f_tree::Expr;
use lowered_tree::Step;
use name_facts::NameFacts;
use std::alloc::{AllocError, Global};

/// Appends the steps of an expression, if its form is lowered, and answers its value behind them.
#[tactic(auto, unfolding(crate::specs::Outcomes::IsOutcome))]
fn lower_if(
    alloc: Global,
    table: &NameFacts,
    aspect: Aspect,
    purpose: Purpose,
    free: usize,
    e: &Expr,
    steps: &mut Vec<Step>,
) -> Result<Lowered, LowerError>
    ensures { IsOutcome table.now aspect purpose free e.now steps.old.items steps.new.items result }
{
    if !is_lowered(table, e) {
        return Err(LowerError::NotLowered);
    }
    match lower(alloc, table, aspect, purpose, free, e, steps) {
        Ok(lowered) => Ok(lowered),
        Err(AllocError) => Err(LowerError::NoMemory),
    }
}

/// Appends the steps of an expression, given what its names are, what its value is for, and the first temporary that is free. Answers the value
/// behind the steps, and the first temporary that is free then.
///
/// # Errors
///
/// `NotLowered` where the expression has a form that is not lowered: no step is appended then. `NoMemory` where memory has run out, or no number
/// is left for a temporary.
pub fn lower_value(
    alloc: Global,
    table: &NameFacts,
    purpose: Purpose,
    free: usize,
    e: &Expr,
    steps: &mut Vec<Step>,
) -> Result<Lowered, LowerError>
    ensures { IsOutcome table.now Value purpose free e.now steps.old.items steps.new.items result }
{
    lower_if(alloc, table, Aspect::Value, purpose, free, e, steps)
}

/// The same for an expression as an actual argument, or as a place that gets a value: a variable, an array, an element or a procedure is itself.
/// Sections 10.1 and 15.9.3.
///
/// # Errors
///
/// As of `lower_value`.
pub fn lower_actual(
    alloc: Global,
    table: &NameFacts,
    purpose: Purpose,
    free: usize,
    e: &Expr,
    steps: &mut Vec<Step>,
) -> Result<Lowered, LowerError>
    ensures { IsOutcome table.now Actual purpose free e.now steps.old.items steps.new.items result }
{
    lower_if(alloc, table, Aspect::Actual, purpose, free, e, steps)
}

/// Whether an expression of a form that is lowered has a reference to a function.
pub fn has_reference(table: &NameFacts, e: &Expr) -> bool
    requires { is_lowered_value table.now e.now ≡ true }
    ensures { (names : Bytes → Attribute) → AreFactsOf names table.now → result ≡ refers (read names e.now).value }
{
    refers(table, e)
}
