//! How a statement stands to loops. Section 11.10 and MIL-STD-1753.
#![tactic(auto)]

ghost use Rattle.std.specs.Prelude.{◌≡◌};
ghost use Rattle.loop_ranges.specs.LoopForms.{begun_by, form_of};

use f_tree::Body;

/// How a statement stands to loops.
#[derive(Clone, Copy, Debug, PartialEq, Eq)]
pub enum LoopForm {
    /// DO or DO WHILE up to the statement with a label.
    ToLabel(u32),
    /// DO or DO WHILE up to its END DO.
    ToEndDo,
    /// END DO.
    EndDo,
    /// Another statement.
    Other,
}

/// How a DO or DO WHILE stands to loops, given the label that it names.
#[tactic(auto, unfolding(crate::specs::LoopForms::begun_by))]
fn begun_by(label: Option<u32>) -> LoopForm
    ensures { result ≡ begun_by label }
{
    match label {
        Some(label) => LoopForm::ToLabel(label),
        None => LoopForm::ToEndDo,
    }
}

/// How a statement stands to loops.
#[tactic(auto, using(crate::proofs::FormLemmas::body_forms))]
pub fn loop_form(body: &Body) -> LoopForm
    ensures { result ≡ form_of body.now }
{
    match body {
        Body::Do(label, _) => begun_by(*label),
        Body::DoWhile(label, _) => begun_by(*label),
        Body::EndDo => LoopForm::EndDo,
        _ => LoopForm::Other,
    }
}
