//! Which expressions have a reference to a function. Sections 15.2, 15.4, 15.5 and 15.10.

ghost use Rattle.std.specs.Prelude.{◌≡◌, ◌≤◌, length, map, option_map, take};
ghost use Rattle.f_tree.specs.Reading as reading;
ghost use Rattle.name_facts.specs.GivenFacts.{AreNameFacts};
ghost use Rattle.direct_lines.specs.References as spec;

use crate::definitions::{arguments, defined_before, is_dummy, is_function};
use expression_lowering::function_named;
use f_tree::{Body, Class, Expr, Unit};
use lowered_tree::Function;
use name_facts::NameFacts;
use plain_data::Boxed;

/// The class of a name, given the arguments of the statement function in whose definition it stands: its dummy arguments are expanded as statement
/// functions are.
#[tactic(auto, unfolding(crate::specs::References::class_in))]
fn class_in(table: &NameFacts, dummies: &[Expr], name: &[u8]) -> Class
    ensures { result ≡ spec.class_in table.now dummies.now name.now }
{
    if is_dummy(dummies, name) {
        return Class::StatementFunction;
    }
    table.class(name)
}

/// Whether an intrinsic function is unknown by its name: then it is referred to as another function is.
#[tactic(auto, unfolding(crate::specs::References::is_unknown))]
fn is_unknown(name: &[u8]) -> bool
    ensures { result ≡ spec.is_unknown (reading.function_named name.now) }
{
    function_named(name).is_none()
}

/// Whether a name with a list is a reference to a function, given its class.
#[tactic(auto, unfolding(crate::specs::References::is_reference))]
fn is_reference(class: Class, name: &[u8]) -> bool
    ensures { result ≡ spec.is_reference name.now class }
{
    match class {
        Class::Intrinsic => is_unknown(name),
        Class::Procedure | Class::DummyProcedure | Class::Result => true,
        Class::StatementFunction => true,
        Class::Constant | Class::Stored | Class::Dummy | Class::Unit => false,
    }
}

/// Whether a name is that of LEN, by what it is as an intrinsic function.
fn is_text_length(name: &[u8]) -> bool
    ensures { result ≡ spec.is_text_length (reading.function_named name.now) }
{
    match function_named(name) {
        Some(function) => matches!(function, Function::TextLength),
        None => false,
    }
}

/// Whether a name is that of LEN, given its class.
#[tactic(auto, unfolding(crate::specs::References::is_length))]
fn is_length(class: Class, name: &[u8]) -> bool
    ensures { result ≡ spec.is_length name.now class }
{
    match class {
        Class::Intrinsic => is_text_length(name),
        Class::Constant | Class::Stored | Class::Dummy | Class::Unit => false,
        Class::Procedure | Class::DummyProcedure | Class::Result => false,
        Class::StatementFunction => false,
    }
}

/// Whether a name with a list of so many expressions has them as its arguments: LEN has one, or none. Section 15.10.
#[tactic(auto, unfolding(crate::specs::References::has_arguments))]
fn has_arguments(class: Class, name: &[u8], count: usize) -> bool
    ensures { result ≡ spec.has_arguments name.now class count }
{
    !is_length(class, name) || count == 1
}

/// Whether an expression has a reference to a function, or to a statement function with its arguments. It stands in the definition of a statement
/// function with some arguments, or in another statement; the statement functions that it may name are those that are defined before a statement.
#[cycle(references)]
#[tactic(auto, using(crate::proofs::ReferenceForms::reference_forms))]
pub(crate) fn has_reference(
    unit: &Unit,
    table: &NameFacts,
    e: &Expr,
    place: usize,
    dummies: &[Expr],
) -> bool
    requires names { AreNameFacts unit.now table.now }
    requires place { place ≤ length unit.now.statements }
    ensures { result ≡ spec.has_reference (spec.known_by unit.now table.now (take place unit.now.statements) dummies.now) e.now }
{
    match e {
        Expr::Int(_) | Expr::Logical(_) | Expr::Text(_) => false,
        Expr::AltReturn(_) | Expr::Bound(_) => false,
        Expr::Name(name) => stands_for_reference(unit, table, name.as_slice(), place, dummies),
        Expr::Apply(name, es) => {
            applied_has_reference(unit, table, name.as_slice(), es.as_slice(), place, dummies)
        }
        Expr::Part(whole, from, to) => {
            has_reference(unit, table, whole.get(), place, dummies)
                || end_has_reference(unit, table, from, place, dummies)
                || end_has_reference(unit, table, to, place, dummies)
        }
        Expr::Minus(operand) | Expr::Plus(operand) => {
            has_reference(unit, table, operand.get(), place, dummies)
        }
        Expr::Not(operand) | Expr::Paren(operand) => {
            has_reference(unit, table, operand.get(), place, dummies)
        }
        Expr::Binary(_, left, right) => {
            has_reference(unit, table, left.get(), place, dummies)
                || has_reference(unit, table, right.get(), place, dummies)
        }
        Expr::Bind(_, _) => true,
    }
}

/// Whether a name with a list has a reference.
#[cycle(references)]
fn applied_has_reference(
    unit: &Unit,
    table: &NameFacts,
    name: &[u8],
    es: &[Expr],
    place: usize,
    dummies: &[Expr],
) -> bool
    requires names { AreNameFacts unit.now table.now }
    requires place { place ≤ length unit.now.statements }
    ensures { result ≡ spec.applied_refers (spec.known_by unit.now table.now (take place unit.now.statements) dummies.now) name.now es.now }
{
    let class = class_in(table, dummies, name);
    if is_reference(class, name) {
        return true;
    }
    has_arguments(class, name, es.len()) && any_has_reference(unit, table, es, place, dummies)
}

/// Whether the first or the last place of a substring has a reference, if it is written.
#[cycle(references)]
#[tactic(auto, unfolding(crate::specs::References::if_written))]
fn end_has_reference(
    unit: &Unit,
    table: &NameFacts,
    end: &Option<Boxed<Expr>>,
    place: usize,
    dummies: &[Expr],
) -> bool
    requires names { AreNameFacts unit.now table.now }
    requires place { place ≤ length unit.now.statements }
    ensures { result ≡ spec.if_written (option_map (spec.has_reference (spec.known_by unit.now table.now (take place unit.now.statements) dummies.now)) end.now) }
{
    match end {
        Some(e) => has_reference(unit, table, e.get(), place, dummies),
        None => false,
    }
}

/// Whether any expression of a list has a reference.
#[cycle(references)]
#[tactic(auto, unfolding(crate::specs::References::any))]
fn any_has_reference(
    unit: &Unit,
    table: &NameFacts,
    es: &[Expr],
    place: usize,
    dummies: &[Expr],
) -> bool
    requires names { AreNameFacts unit.now table.now }
    requires place { place ≤ length unit.now.statements }
    ensures { result ≡ spec.any (map (spec.has_reference (spec.known_by unit.now table.now (take place unit.now.statements) dummies.now)) es.now) }
{
    for e in es {
        if has_reference(unit, table, e, place, dummies) {
            return true;
        }
    }
    false
}

/// Whether a name that stands alone is that of a statement function whose expression has a reference. No unit that is accepted has such a name: where
/// one stands, its first definition is looked for anew.
#[cycle(references)]
fn stands_for_reference(
    unit: &Unit,
    table: &NameFacts,
    name: &[u8],
    place: usize,
    dummies: &[Expr],
) -> bool
    requires names { AreNameFacts unit.now table.now }
    requires place { place ≤ length unit.now.statements }
    ensures { result ≡ spec.stands_for_reference unit.now table.now (take place unit.now.statements) dummies.now name.now }
{
    if is_dummy(dummies, name) || !is_function(table.class(name)) {
        return false;
    }
    let Some(place) = defined_before(unit, place, name) else {
        return false;
    };
    let Body::Assign(target, e) = &unit.statements.as_slice()[place].body else {
        return false;
    };
    match arguments(target) {
        Some(dummies) => has_reference(unit, table, e, place, dummies),
        None => false,
    }
}
