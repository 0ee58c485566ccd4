//! How statements stand to the blocks and the loops of their unit. Sections 11.6 to 11.10 and MIL-STD-1753.

ghost use Rattle.std.specs.Prelude.{◌≡◌};
ghost use Rattle.std.specs.Option.{option_copied};
ghost use Rattle.f_tree.specs.Lines.{mark_of};
ghost use Rattle.unit_lowering.specs.LineForms as spec;

use crate::numbered::statement_at;
use f_tree::statements::LoopControl;
use f_tree::{Body, Stmt};

/// How a statement stands in the nest of IF blocks.
#[derive(Clone, Copy, Debug, PartialEq, Eq)]
pub(crate) enum ArmForm {
    /// Another statement.
    Plain,
    /// IF .. THEN.
    Opens,
    /// ELSE IF .. THEN or ELSE.
    Arm,
    /// END IF.
    Closes,
}

/// The loop that a statement begins.
#[derive(Clone, Copy, Debug, PartialEq, Eq)]
pub(crate) enum LoopForm {
    /// That of a DO.
    Counted,
    /// That of a DO WHILE.
    Tested,
    /// None.
    Other,
}

/// How a statement stands in the nest of IF blocks.
#[tactic(auto, using(crate::proofs::FormLemmas::arm_forms))]
pub(crate) fn arm_form(body: &Body) -> ArmForm
    ensures { spec.mark_by result ≡ mark_of body.now }
{
    match body {
        Body::IfThen(_) => ArmForm::Opens,
        Body::ElseIf(_) | Body::Else => ArmForm::Arm,
        Body::EndIf => ArmForm::Closes,
        _ => ArmForm::Plain,
    }
}

/// The loop that a statement begins.
#[tactic(auto, using(crate::proofs::FormLemmas::loop_forms))]
pub(crate) fn loop_form(body: &Body) -> LoopForm
    ensures { result ≡ spec.form_in body.now }
{
    match body {
        Body::Do(_, _) => LoopForm::Counted,
        Body::DoWhile(_, _) => LoopForm::Tested,
        _ => LoopForm::Other,
    }
}

/// The control of a DO statement.
#[tactic(auto, using(crate::proofs::FormLemmas::control_forms))]
fn control_in(body: &Body) -> Option<&LoopControl>
    ensures { option_copied result ≡ spec.control_in body.now }
{
    match body {
        Body::Do(_, control) => Some(control),
        _ => None,
    }
}

/// The control of the DO statement at a place.
#[tactic(auto, unfolding(crate::specs::LineForms::control_at, crate::specs::LineForms::control_of_line))]
pub(crate) fn control_at(statements: &[Stmt], place: usize) -> Option<&LoopControl>
    ensures { option_copied result ≡ spec.control_at statements.now place }
{
    match statement_at(statements, place) {
        Some(statement) => control_in(&statement.body),
        None => None,
    }
}
