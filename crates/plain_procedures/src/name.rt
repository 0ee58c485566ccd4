//! Whether a name is plain by its class: a number that is stored, a dummy argument, the result of a function, or what takes no storage.

ghost use Rattle.std.specs.Prelude.{◌≡◌};
ghost use Rattle.name_facts.specs.GivenFacts.{fact_in};
ghost use Rattle.unit_forms.specs.PlainProcedures as procedures;
ghost use Rattle.plain_procedures.specs.ToldProcedures as spec;

use bound_values::has_adjustable_bounds;
use f_tree::{Class, Dimension};
use name_facts::{NameFact, NameFacts};
use plain_names::{has_constant_bounds, has_plain_bounds, is_name, is_number, is_plain_variable};

/// Whether a class is that of dummy arguments. Section 15.9.2.
#[tactic(auto, unfolding(unit_forms::specs::PlainProcedures::is_dummy_class))]
pub(crate) fn is_dummy_class(class: Class) -> bool
    ensures { result ≡ procedures.is_dummy_class class }
{
    match class {
        Class::Dummy | Class::DummyProcedure => true,
        Class::Constant | Class::Stored | Class::Procedure | Class::Result => false,
        Class::StatementFunction | Class::Intrinsic | Class::Unit => false,
    }
}

/// Whether a class is that of the results of functions. Section 15.5.1.
#[tactic(auto, unfolding(unit_forms::specs::PlainProcedures::is_result_class))]
pub(crate) fn is_result_class(class: Class) -> bool
    ensures { result ≡ procedures.is_result_class class }
{
    match class {
        Class::Result => true,
        Class::Constant | Class::Stored | Class::Procedure | Class::Dummy => false,
        Class::DummyProcedure | Class::StatementFunction | Class::Intrinsic | Class::Unit => false,
    }
}

/// Whether a dummy argument is a variable of numbers, or an array of them whose bounds are constant but for a last one `*`, or are fixed by each call.
/// Sections 4.1, 5.1.1, 5.1.2 and 5.5.
#[tactic(auto, unfolding(crate::specs::ToldProcedures::is_plain_dummy))]
fn is_plain_dummy(table: &NameFacts, name: &[u8], dimensions: &[Dimension], fact: &NameFact) -> bool
    ensures { result ≡ spec.is_plain_dummy table.now name.now dimensions.now fact.now }
{
    is_name(name)
        && is_number(fact)
        && (has_plain_bounds(fact) || has_adjustable_bounds(table, fact, dimensions))
}

/// Whether a dummy argument is a procedure, and no array.
#[tactic(auto, unfolding(crate::specs::ToldProcedures::is_plain_procedure))]
fn is_plain_procedure(name: &[u8], fact: &NameFact) -> bool
    ensures { result ≡ spec.is_plain_procedure name.now fact.now }
{
    is_name(name) && fact.rank == 0
}

/// Whether the result of a function is one number. Section 15.5.1.
#[tactic(auto, unfolding(crate::specs::ToldProcedures::is_plain_result))]
fn is_plain_result(function: bool, fact: &NameFact) -> bool
    ensures { result ≡ spec.is_plain_result function fact.now }
{
    function && is_number(fact) && fact.rank == 0
}

/// Whether what is stored is a variable or an array of numbers with constant bounds.
#[tactic(auto, unfolding(crate::specs::ToldProcedures::is_plain_stored))]
fn is_plain_stored(name: &[u8], fact: &NameFact) -> bool
    ensures { result ≡ spec.is_plain_stored name.now fact.now }
{
    has_constant_bounds(fact) && is_plain_variable(name, fact)
}

/// Whether a name is plain, given its class, its dimensions and what it is.
#[tactic(auto, unfolding(crate::specs::ToldProcedures::is_plain_as))]
fn is_plain_as(
    table: &NameFacts,
    function: bool,
    class: Class,
    name: &[u8],
    dimensions: &[Dimension],
    fact: &NameFact,
) -> bool
    ensures { result ≡ spec.is_plain_as table.now function class name.now dimensions.now fact.now }
{
    match class {
        Class::Stored => is_plain_stored(name, fact),
        Class::Dummy => is_plain_dummy(table, name, dimensions, fact),
        Class::DummyProcedure => is_plain_procedure(name, fact),
        Class::Result => is_plain_result(function, fact),
        Class::Constant | Class::Procedure | Class::StatementFunction => has_plain_bounds(fact),
        Class::Intrinsic | Class::Unit => has_plain_bounds(fact),
    }
}

/// Whether a name is plain, by its dimensions and what the table tells of it.
#[tactic(auto, using(crate::proofs::ToldLaws::unknown_is_plain), unfolding(name_facts::specs::GivenFacts::fact_or, crate::specs::ToldProcedures::is_plain))]
pub(crate) fn is_plain_name(
    table: &NameFacts,
    function: bool,
    name: &[u8],
    dimensions: &[Dimension],
) -> bool
    ensures { result ≡ spec.is_plain table.now function name.now dimensions.now (fact_in table.now name.now) }
{
    match table.get(name) {
        Some(fact) => is_plain_as(table, function, fact.class, name, dimensions, fact),
        None => true,
    }
}
