//! Statements that a branch may go to, statements that may end a DO with a label, and FORMAT statements. Sections 11, 11.10 and 13.1.

ghost use Rattle.std.specs.Prelude.{◌≡◌, ℕ};
ghost use Rattle.f_tree.specs.Places.{has_label};
ghost use Rattle.declaration_rows.specs.UnitRows as rows;
ghost use Rattle.statements_judge.specs.UnitLabels.{is_format_label};

use f_tree::{Body, Stmt};

/// Whether a branch may go to a statement: to an executable one that is no ELSE IF and no ELSE. Section 11.
#[tactic(auto, unfolding(declaration_rows::specs::UnitRows::may_be_entered, f_tree::specs::Folds::folds_opened))]
pub(crate) fn may_be_entered(body: &Body) -> bool
    ensures { result ≡ rows.may_be_entered body.now }
{
    match body {
        Body::Assign(_, _) | Body::AssignLabel(_, _) | Body::Goto(_) => true,
        Body::GotoList(_, _) | Body::GotoName(_, _) | Body::IfSign(_, _, _, _) => true,
        Body::IfOne(_, _) | Body::IfThen(_) | Body::EndIf | Body::Do(_, _) => true,
        Body::DoWhile(_, _) | Body::EndDo | Body::Continue | Body::Call(_, _) => true,
        Body::Return(_) | Body::Stop(_) | Body::Transfer(_, _, _) => true,
        Body::Auxiliary(_, _) | Body::End => true,
        Body::Header(_, _, _) | Body::Declare(_, _) | Body::Dimension(_) => false,
        Body::Common(_) | Body::Equivalence(_) | Body::Implicit(_) => false,
        Body::ImplicitNone | Body::Parameter(_) | Body::External(_) => false,
        Body::Intrinsic(_) | Body::Save(_) | Body::Init(_) | Body::Format(_) => false,
        Body::Entry(_, _) | Body::ElseIf(_) | Body::Else | Body::Include(_) => false,
    }
}

/// Whether a statement may end a DO with a label. Section 11.10.
#[tactic(auto, unfolding(declaration_rows::specs::UnitRows::may_end_loop, f_tree::specs::Folds::folds_opened))]
pub(crate) fn may_end_loop(body: &Body) -> bool
    ensures { result ≡ rows.may_end_loop body.now }
{
    match body {
        Body::Assign(_, _) | Body::AssignLabel(_, _) | Body::GotoList(_, _) => true,
        Body::IfOne(_, _) | Body::EndDo | Body::Continue | Body::Call(_, _) => true,
        Body::Transfer(_, _, _) | Body::Auxiliary(_, _) => true,
        Body::Goto(_) | Body::GotoName(_, _) | Body::IfSign(_, _, _, _) => false,
        Body::IfThen(_) | Body::ElseIf(_) | Body::Else | Body::EndIf => false,
        Body::Do(_, _) | Body::DoWhile(_, _) | Body::Return(_) | Body::Stop(_) => false,
        Body::Header(_, _, _) | Body::Declare(_, _) | Body::Dimension(_) => false,
        Body::Common(_) | Body::Equivalence(_) | Body::Implicit(_) => false,
        Body::ImplicitNone | Body::Parameter(_) | Body::External(_) => false,
        Body::Intrinsic(_) | Body::Save(_) | Body::Init(_) | Body::Format(_) => false,
        Body::Entry(_, _) | Body::Include(_) | Body::End => false,
    }
}

/// The label of a FORMAT statement, none of another one. Section 13.1.
pub(crate) fn format_label(statement: &Stmt) -> Option<u32>
    ensures { (l : ℕ) → has_label result l ≡ is_format_label statement.now l }
{
    match &statement.body {
        Body::Format(_) => statement.label,
        _ => None,
    }
}
