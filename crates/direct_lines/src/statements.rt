//! Statements by their forms. Sections 10 to 12 and 15.

ghost use Rattle.std.specs.Prelude.{◌≡◌};
ghost use Rattle.std.specs.List.{list_all};
ghost use Rattle.f_tree.specs.Lines.{form_of};
ghost use Rattle.name_facts.specs.declaration_rows.NameRows.{given_names};
ghost use Rattle.lowering_laws.specs.Layout as law;
ghost use Rattle.name_facts.specs.GivenFacts.{AreNameFacts};
ghost use Rattle.direct_lines.specs.DirectStatements as spec;

use crate::assignments::is_direct_assignment;
use f_tree::{Body, ListItem, Stmt, Unit};
use name_facts::NameFacts;

/// Whether an item of a list is an expression, and no implied DO. Section 12.8.2.
#[tactic(auto, using(crate::proofs::StatementForms::item_forms))]
fn is_expression(item: &ListItem) -> bool
    ensures { result ≡ spec.is_expression item.now }
{
    match item {
        ListItem::Item(_) => true,
        ListItem::Loop(_, _) => false,
    }
}

/// Whether a list has no implied DO.
fn are_expressions(items: &[ListItem]) -> bool
    ensures { result ≡ list_all spec.is_expression items.now }
{
    items.iter().all(is_expression)
}

/// Whether a statement is one that a logical IF may guard, of a form that is lowered.
#[tactic(auto, using(crate::proofs::StatementForms::direct_forms))]
fn is_direct(unit: &Unit, table: &NameFacts, body: &Body) -> bool
    requires { AreNameFacts unit.now table.now }
    ensures { result ≡ law.is_direct (form_of (given_names unit.now) body.now) }
{
    match body {
        Body::Assign(target, _) => is_direct_assignment(unit, table, target),
        Body::IfOne(_, statement) => is_direct(unit, table, statement.get()),
        Body::Transfer(_, _, items) => are_expressions(items.as_slice()),
        Body::IfThen(_) | Body::ElseIf(_) => false,
        Body::Do(_, _) | Body::DoWhile(_, _) => false,
        Body::AssignLabel(_, _) | Body::Goto(_) | Body::GotoList(_, _) => true,
        Body::GotoName(_, _) | Body::IfSign(_, _, _, _) => true,
        Body::Call(_, _) | Body::Return(_) | Body::Stop(_) | Body::End => true,
        Body::Auxiliary(_, _) | Body::Else | Body::EndIf | Body::EndDo | Body::Continue => true,
        Body::Header(_, _, _) | Body::Declare(_, _) | Body::Dimension(_) => true,
        Body::Common(_) | Body::Equivalence(_) | Body::Implicit(_) => true,
        Body::ImplicitNone | Body::Parameter(_) | Body::External(_) => true,
        Body::Intrinsic(_) | Body::Save(_) | Body::Init(_) => true,
        Body::Format(_) | Body::Entry(_, _) | Body::Include(_) => true,
    }
}

/// Whether a statement is lowered as the law asks: it begins a block, an arm or a loop, or is a direct statement.
#[tactic(auto, using(crate::proofs::StatementForms::line_forms))]
pub(crate) fn is_direct_line(unit: &Unit, table: &NameFacts, body: &Body) -> bool
    requires { AreNameFacts unit.now table.now }
    ensures { result ≡ spec.is_direct_line (given_names unit.now) body.now }
{
    match body {
        Body::IfThen(_) | Body::ElseIf(_) => true,
        Body::Do(_, _) | Body::DoWhile(_, _) => true,
        _ => is_direct(unit, table, body),
    }
}

/// Whether a statement is END. Section 11.14.
pub(crate) fn is_end(statement: &Stmt) -> bool
    ensures { result ≡ spec.is_end statement.now }
{
    matches!(&statement.body, Body::End)
}
