//! Integers, conditions, and the variable of a loop with its values. Sections 11.5 to 11.10.

ghost use Rattle.std.specs.Prelude.{◌≡◌};
ghost use Rattle.statement_judge.specs.StatementSteps as spec;

use crate::site::Site;
use crate::targets::variable;
use expression_judge::{judge, with_wanted};
use f_tree::{Basic, Expr, Kind, LoopControl};
use refusal_order::lesser_of;

/// The least row of an expression where an integer is wanted.
#[tactic(auto, unfolding(crate::specs::StatementSteps::integer_by))]
pub(crate) fn integer(site: &Site, e: &Expr) -> Option<Kind>
    ensures { result ≡ spec.integer_by site.now e.now }
{
    with_wanted(Basic::Integer, judge(site.names, e))
}

/// The least row of a condition.
#[tactic(auto, unfolding(crate::specs::StatementSteps::condition_by))]
pub(crate) fn condition(site: &Site, e: &Expr) -> Option<Kind>
    ensures { result ≡ spec.condition_by site.now e.now }
{
    with_wanted(Basic::Logical, judge(site.names, e))
}

/// The least row of an integer that may be left out.
#[tactic(auto, unfolding(crate::specs::StatementSteps::optional_by))]
pub(crate) fn optional(site: &Site, e: &Option<Expr>) -> Option<Kind>
    ensures { result ≡ spec.optional_by site.now e.now }
{
    match e {
        Some(e) => integer(site, e),
        None => None,
    }
}

/// The least row of the variable of a loop, its first value, its limit and its step. Section 11.10.
#[tactic(auto, unfolding(crate::specs::StatementSteps::loop_by))]
pub(crate) fn loop_control(site: &Site, control: &LoopControl) -> Option<Kind>
    ensures { result ≡ spec.loop_by site.now control.now }
{
    let ends = lesser_of(integer(site, &control.limit), optional(site, &control.step));
    let values = lesser_of(integer(site, &control.first), ends);
    lesser_of(variable(site, control.variable.as_slice()), values)
}
