//! What is assigned to, and branches. Sections 10 and 11.

ghost use Rattle.std.specs.Prelude.{◌≡◌, None};
ghost use Rattle.statement_judge.specs.StatementSteps as spec;

use crate::site::Site;
use expression_judge::{Found, Operand, is_same_basic, judge_name, one_wanted};
use f_tree::{Basic, Kind};
use kind_order::unless;
use refusal_order::lesser_of;

/// The row that a branch to a label breaks.
#[tactic(auto, unfolding(crate::specs::StatementSteps::branch_found))]
pub(crate) fn branch(site: &Site, label: u32) -> Option<Kind>
    ensures { result ≡ spec.branch_found site.now label }
{
    unless(site.may_branch(label), Kind::LabelMissingOrTwice)
}

/// The least row of branches to labels.
#[tactic(auto, unfolding(crate::specs::StatementSteps::branches_onward))]
pub(crate) fn branches(site: &Site, labels: &[u32]) -> Option<Kind>
    ensures { result ≡ spec.branches_onward site.now None labels.now }
{
    let mut fault = None;
    for label in labels {
        fault = lesser_of(fault, branch(site, *label));
    }
    fault
}

/// The row that an operand breaks where a value is assigned to it.
#[tactic(auto, unfolding(crate::specs::StatementSteps::settable_found))]
fn settable(what: Operand) -> Option<Kind>
    ensures { result ≡ spec.settable_found what }
{
    match what {
        Operand::Place | Operand::Nothing => None,
        Operand::Array(_) => Some(Kind::NumberOfSubscripts),
        Operand::Value | Operand::ProcedureName => Some(Kind::NotAssignable),
        Operand::FunctionName | Operand::Exit(_) => Some(Kind::NotAssignable),
    }
}

/// The row that an operand with a type breaks where another type is wanted.
#[tactic(auto, unfolding(crate::specs::StatementSteps::typed_found))]
fn typed(what: Operand, own: Basic, basic: Basic) -> Option<Kind>
    ensures { result ≡ spec.typed_found what own basic }
{
    match what {
        Operand::Value | Operand::Place | Operand::Array(_) => {
            unless(is_same_basic(own, basic), Kind::OperandTypes)
        }
        Operand::ProcedureName | Operand::FunctionName => None,
        Operand::Exit(_) | Operand::Nothing => None,
    }
}

/// The least row of what gets a value of a type.
#[tactic(auto, unfolding(crate::specs::StatementSteps::target_found))]
pub(crate) fn target(basic: Basic, found: Found) -> Option<Kind>
    ensures { result ≡ spec.target_found basic found }
{
    let kind = lesser_of(settable(found.what), typed(found.what, found.basic, basic));
    lesser_of(found.fault, kind)
}

/// The least row of an integer variable that gets a value.
#[tactic(auto, unfolding(crate::specs::StatementSteps::variable_by))]
pub(crate) fn variable(site: &Site, name: &[u8]) -> Option<Kind>
    ensures { result ≡ spec.variable_by site.now name.now }
{
    target(Basic::Integer, judge_name(site.names, name))
}

/// The least row of an assignment, by its target and its value. Section 10.
#[tactic(auto, unfolding(crate::specs::StatementSteps::assigned_found))]
pub(crate) fn assigned(target: Found, value: Found) -> Option<Kind>
    ensures { result ≡ spec.assigned_found target value }
{
    let types = lesser_of(
        one_wanted(value.what),
        typed(target.what, value.basic, target.basic),
    );
    let behind = lesser_of(settable(target.what), lesser_of(value.fault, types));
    lesser_of(target.fault, behind)
}
