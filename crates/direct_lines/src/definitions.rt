//! The definitions of statement functions. Section 15.4.

ghost use Rattle.std.specs.Prelude.{◌≡◌, ◌≤◌, length, take, MatchOption};
ghost use Rattle.std.specs.List.{list_any, position};
ghost use Rattle.f_tree.specs.Uses.{heading_of};
ghost use Rattle.direct_lines.specs.Definitions as spec;
ghost use Rattle.direct_lines.specs.References.{is_function_class};

use f_tree::{Body, Class, Expr, Stmt, Unit};
use name_uses::assignments::{applied_name, name_alone};

/// Whether a class is that of statement functions.
#[tactic(auto, unfolding(crate::specs::References::is_function_class))]
pub(crate) fn is_function(class: Class) -> bool
    ensures { result ≡ is_function_class class }
{
    match class {
        Class::StatementFunction => true,
        Class::Constant | Class::Stored | Class::Dummy | Class::Result => false,
        Class::Procedure | Class::DummyProcedure | Class::Intrinsic | Class::Unit => false,
    }
}

/// Whether an expression is a name alone.
#[tactic(auto, unfolding(crate::specs::Definitions::is_name, crate::specs::Definitions::is_same))]
fn is_name(e: &Expr, name: &[u8]) -> bool
    ensures { result ≡ spec.is_name name.now e.now }
{
    match name_alone(e) {
        Some(alone) => alone == name,
        None => false,
    }
}

/// Whether a name is a dummy argument, by the arguments of a statement function in its definition.
pub(crate) fn is_dummy(dummies: &[Expr], name: &[u8]) -> bool
    ensures { result ≡ list_any (spec.is_name name.now) dummies.now }
{
    dummies.iter().any(|dummy| is_name(dummy, name))
}

/// Whether an expression is a name with a list.
#[tactic(auto, unfolding(crate::specs::Definitions::is_same))]
fn is_applied(e: &Expr, name: &[u8]) -> bool
    ensures { result ≡ spec.is_same name.now (heading_of e.now).applied }
{
    match applied_name(e) {
        Some(applied) => applied == name,
        None => false,
    }
}

/// Whether a statement assigns to a name with a list: if the name is that of a statement function, the statement defines it.
fn assigns_with_list(statement: &Stmt, name: &[u8]) -> bool
    ensures { result ≡ spec.assigns_with_list name.now statement.now }
{
    match &statement.body {
        Body::Assign(target, _) => is_applied(target, name),
        _ => false,
    }
}

/// The place from 0 of the first of statements that assigns to a name with a list.
fn first_definition(statements: &[Stmt], name: &[u8]) -> Option<usize>
    ensures { result ≡ position (spec.assigns_with_list name.now) statements.now }
{
    statements
        .iter()
        .position(|statement| assigns_with_list(statement, name))
}

/// The same before the statement at a place.
pub(crate) fn defined_before(unit: &Unit, place: usize, name: &[u8]) -> Option<usize>
    requires { place ≤ length unit.now.statements }
    ensures { result ≡ position (spec.assigns_with_list name.now) (take place unit.now.statements) }
{
    first_definition(&unit.statements.as_slice()[..place], name)
}

/// The list behind a name, where the expression is a name with a list.
#[tactic(auto, using(name_uses::proofs::Headings::heading_forms, crate::proofs::ArgumentForms::list_arguments))]
pub(crate) fn arguments(e: &Expr) -> Option<&[Expr]>
    ensures { MatchOption result ((heading_of e.now).applied ≡ None) (λ es. spec.names_alone es.now ≡ (heading_of e.now).arguments) }
{
    match e {
        Expr::Apply(_, es) => Some(es.as_slice()),
        Expr::Int(_) | Expr::Logical(_) | Expr::Text(_) | Expr::Name(_) => None,
        Expr::Part(..) | Expr::Minus(_) | Expr::Plus(_) | Expr::Not(_) => None,
        Expr::Paren(_) | Expr::Binary(..) | Expr::AltReturn(_) => None,
        Expr::Bind(..) | Expr::Bound(_) => None,
    }
}
