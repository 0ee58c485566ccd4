//! Assignments, and definitions of statement functions. Sections 10 and 15.4.

ghost use Rattle.std.specs.Prelude.{◌≡◌};
ghost use Rattle.f_tree.specs.Lines as lines;
ghost use Rattle.name_facts.specs.declaration_rows.NameRows.{given_names};
ghost use Rattle.name_facts.specs.GivenFacts.{AreNameFacts};
ghost use Rattle.direct_lines.specs.Assignments as spec;

use crate::definitions::is_function;
use crate::references::has_reference;
use f_tree::{Basic, Class, Expr, Unit};
use name_facts::NameFacts;
use name_uses::assignments::applied_name;

/// Whether a type is CHARACTER.
#[tactic(auto, unfolding(f_tree::specs::Lines::is_character))]
fn is_character(basic: Basic) -> bool
    ensures { result ≡ lines.is_character basic }
{
    match basic {
        Basic::Character => true,
        Basic::Integer | Basic::Logical | Basic::Untyped => false,
    }
}

/// Whether an assignment to a target defines a statement function. Section 15.4.
#[tactic(auto, unfolding(crate::specs::Assignments::is_definition, crate::specs::Assignments::names_function))]
fn is_definition(table: &NameFacts, target: &Expr) -> bool
    ensures { result ≡ spec.is_definition table.now target.now }
{
    match applied_name(target) {
        Some(name) => is_function(table.class(name)),
        None => false,
    }
}

/// Whether a name alone is a variable or an array of type CHARACTER.
#[tactic(auto, unfolding(crate::specs::Assignments::variable_is_text))]
fn variable_is_text(class: Class, basic: Basic) -> bool
    ensures { result ≡ spec.variable_is_text class basic }
{
    match class {
        Class::Constant | Class::Procedure | Class::DummyProcedure => false,
        Class::StatementFunction | Class::Intrinsic => false,
        Class::Stored | Class::Dummy | Class::Result | Class::Unit => is_character(basic),
    }
}

/// Whether a name with a list is an element of type CHARACTER.
#[tactic(auto, unfolding(crate::specs::Assignments::element_is_text))]
fn element_is_text(class: Class, basic: Basic) -> bool
    ensures { result ≡ spec.element_is_text class basic }
{
    match class {
        Class::Result | Class::Procedure | Class::DummyProcedure => false,
        Class::StatementFunction | Class::Intrinsic => false,
        Class::Constant | Class::Stored | Class::Dummy | Class::Unit => is_character(basic),
    }
}

/// Whether the target of an assignment is a text.
#[tactic(auto, using(crate::proofs::TargetForms::text_forms))]
fn is_text_target(table: &NameFacts, target: &Expr) -> bool
    ensures { result ≡ spec.is_text_target table.now target.now }
{
    match target {
        Expr::Name(name) => {
            variable_is_text(table.class(name.as_slice()), table.basic(name.as_slice()))
        }
        Expr::Apply(name, _) => {
            element_is_text(table.class(name.as_slice()), table.basic(name.as_slice()))
        }
        Expr::Part(whole, _, _) => is_text_target(table, whole.get()),
        Expr::Int(_) | Expr::Logical(_) | Expr::Text(_) | Expr::Minus(_) => false,
        Expr::Plus(_) | Expr::Not(_) | Expr::Paren(_) | Expr::Binary(_, _, _) => false,
        Expr::AltReturn(_) | Expr::Bind(_, _) | Expr::Bound(_) => false,
    }
}

/// Whether an assignment to a target is lowered as the law asks: it defines a statement function, or sets a number, or sets a text in a place that
/// has a reference to a function.
pub(crate) fn is_direct_assignment(unit: &Unit, table: &NameFacts, target: &Expr) -> bool
    requires { AreNameFacts unit.now table.now }
    ensures { result ≡ spec.is_direct_assignment (given_names unit.now) target.now }
{
    if is_definition(table, target) {
        return true;
    }
    !is_text_target(table, target) || has_reference(unit, table, target, unit.statements.len(), &[])
}
