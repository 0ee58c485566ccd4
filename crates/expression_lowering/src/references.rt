//! Which expressions have a reference to a function.

ghost use Rattle.std.specs.Prelude.{◌≡◌, map, true};
ghost use Rattle.f_tree.specs.Reading as reading;
ghost use Rattle.name_facts.specs.GivenFacts.{fact_in};
ghost use Rattle.expression_lowering.specs.TableNames.{is_lowered_value, all_lower};
ghost use Rattle.expression_lowering.specs.LoweredForms as spec;

use crate::intrinsics::function_named;
use f_tree::Expr;
use f_tree::names::Class;
use name_facts::NameFacts;

/// Whether an intrinsic function is unknown by its name: then it is referred to as another function is.
#[tactic(auto, unfolding(crate::specs::LoweredForms::is_unknown))]
fn is_unknown(name: &[u8]) -> bool
    ensures { result ≡ spec.is_unknown (reading.function_named name.now) }
{
    function_named(name).is_none()
}

/// Whether a name with a list is a reference to a function.
#[tactic(auto, unfolding(crate::specs::LoweredForms::is_reference))]
fn is_reference(table: &NameFacts, name: &[u8]) -> bool
    ensures { result ≡ spec.is_reference name.now (fact_in table.now name.now).class }
{
    match table.class(name) {
        Class::Intrinsic => is_unknown(name),
        Class::Procedure | Class::DummyProcedure | Class::Result => true,
        Class::StatementFunction => true,
        Class::Constant | Class::Stored | Class::Dummy | Class::Unit => false,
    }
}

/// Whether an expression of a form that is lowered has a reference to a function.
#[cycle(refers)]
#[tactic(auto, using(crate::proofs::CoveredForms::covered_forms, crate::proofs::CoveredForms::covered_parts, crate::proofs::ReferenceForms::reference_forms))]
pub(crate) fn refers(table: &NameFacts, e: &Expr) -> bool
    requires { is_lowered_value table.now e.now ≡ true }
    ensures { result ≡ spec.has_reference table.now e.now }
{
    match e {
        Expr::Int(_) | Expr::Logical(_) | Expr::Text(_) => false,
        Expr::Name(_) | Expr::AltReturn(_) => false,
        Expr::Apply(name, es) => {
            is_reference(table, name.as_slice()) || any_refers(table, es.as_slice())
        }
        Expr::Minus(operand) | Expr::Plus(operand) => refers(table, operand.get()),
        Expr::Not(operand) | Expr::Paren(operand) => refers(table, operand.get()),
        Expr::Binary(_, left, right) => refers(table, left.get()) || refers(table, right.get()),
        Expr::Part(_, _, _) | Expr::Bind(_, _) | Expr::Bound(_) => unreachable!(),
    }
}

/// Whether any expression of a list has a reference to a function.
#[cycle(refers)]
#[tactic(auto, unfolding(crate::specs::LoweredForms::any_reference, crate::specs::TableNames::all_lower))]
pub(crate) fn any_refers(table: &NameFacts, es: &[Expr]) -> bool
    requires { all_lower (map (is_lowered_value table.now) es.now) ≡ true }
    ensures { result ≡ spec.any_reference table.now es.now }
{
    for e in es {
        if refers(table, e) {
            return true;
        }
    }
    false
}
