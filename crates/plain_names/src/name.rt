//! Whether a name is that of an integer or a logical, or is not stored.

ghost use Rattle.std.specs.Prelude.{◌≡◌};
ghost use Rattle.f_tree.specs.CNames as c_names;
ghost use Rattle.c_emit.specs.Numbers.{is_numeric};
ghost use Rattle.name_facts.specs.GivenFacts.{fact_in};
ghost use Rattle.plain_forms.specs.PlainUnits as plain;
ghost use Rattle.plain_names.specs.ToldNames as spec;

use crate::bounds::{all_fit, is_small, only_last_is_open};
use f_tree::{Basic, Class};
use name_facts::{NameFact, NameFacts, all_closed};

/// Whether a class is that of dummy arguments or of the results of functions.
#[tactic(auto, unfolding(plain_forms::specs::PlainUnits::is_of_call))]
fn is_of_call(class: Class) -> bool
    ensures { result ≡ plain.is_of_call class }
{
    match class {
        Class::Dummy | Class::Result => true,
        Class::Constant | Class::Stored | Class::Procedure | Class::DummyProcedure => false,
        Class::StatementFunction | Class::Intrinsic | Class::Unit => false,
    }
}

/// Whether a type is INTEGER or LOGICAL.
#[tactic(auto, unfolding(c_emit::specs::Numbers::is_numeric))]
fn is_numeric(basic: Basic) -> bool
    ensures { result ≡ is_numeric basic }
{
    match basic {
        Basic::Integer | Basic::Logical => true,
        Basic::Character | Basic::Untyped => false,
    }
}

/// Whether an element takes a numeric storage unit, which has four character units.
#[tactic(auto, unfolding(plain_forms::specs::PlainUnits::has_four_units))]
fn has_four_units(width: Option<u32>) -> bool
    ensures { result ≡ plain.has_four_units width }
{
    match width {
        Some(units) => units == 4,
        None => false,
    }
}

/// Whether a name is that of an integer or a logical, or of an array of them. Section 4.1.
#[tactic(auto, unfolding(crate::specs::ToldNames::is_number))]
pub fn is_number(fact: &NameFact) -> bool
    ensures { result ≡ spec.is_number fact.now }
{
    is_numeric(fact.basic) && has_four_units(fact.width)
}

/// Whether each dimension that is written has bounds that are constant, but for a last upper bound `*`, and they fit. Section 5.1.
#[tactic(auto, unfolding(crate::specs::ToldNames::has_plain_bounds))]
pub fn has_plain_bounds(fact: &NameFact) -> bool
    ensures { result ≡ spec.has_plain_bounds fact.now }
{
    let bounds = fact.bounds.as_slice();
    bounds.len() == fact.rank && all_fit(bounds) && only_last_is_open(bounds)
}

/// Whether each dimension that is written has constant bounds, and they fit. Section 5.1.1.
#[tactic(auto, unfolding(crate::specs::ToldNames::has_constant_bounds))]
pub fn has_constant_bounds(fact: &NameFact) -> bool
    ensures { result ≡ spec.has_constant_bounds fact.now }
{
    has_plain_bounds(fact) && all_closed(fact.bounds.as_slice())
}

/// Whether a byte may stand in a name.
#[tactic(auto, unfolding(f_tree::specs::CNames::is_name_byte))]
fn is_name_byte(byte: &u8) -> bool
    ensures { result ≡ c_names.is_name_byte byte.now }
{
    matches!(*byte, b'a'..=b'z' | b'0'..=b'9' | b'_')
}

/// Whether a name has letters, digits and underscores alone.
#[tactic(auto, unfolding(f_tree::specs::CNames::is_name))]
pub fn is_name(name: &[u8]) -> bool
    ensures { result ≡ c_names.is_name name.now }
{
    name.iter().all(is_name_byte)
}

/// Whether a name is that of a variable or an array of numbers, which has less than 2 ^ 31 bytes.
#[tactic(auto, unfolding(crate::specs::ToldNames::is_plain_variable))]
pub fn is_plain_variable(name: &[u8], fact: &NameFact) -> bool
    ensures { result ≡ spec.is_plain_variable name.now fact.now }
{
    is_name(name) && is_number(fact) && is_small(fact.bounds.as_slice())
}

/// Whether a class is that of what is stored.
#[tactic(auto, unfolding(crate::specs::ToldNames::is_stored_class))]
pub(crate) fn is_stored(class: Class) -> bool
    ensures { result ≡ spec.is_stored_class class }
{
    match class {
        Class::Stored => true,
        Class::Constant | Class::Dummy | Class::Result | Class::Procedure => false,
        Class::DummyProcedure | Class::StatementFunction | Class::Intrinsic | Class::Unit => false,
    }
}

/// Whether a name is plain, given what it is.
#[tactic(auto, unfolding(crate::specs::ToldNames::is_plain))]
fn is_plain(name: &[u8], fact: &NameFact) -> bool
    ensures { result ≡ spec.is_plain name.now fact.now }
{
    !is_of_call(fact.class)
        && has_constant_bounds(fact)
        && (!is_stored(fact.class) || is_plain_variable(name, fact))
}

/// Whether a name is no dummy argument and no result of a function, its bounds are constant and fit, and it is that of a variable or an array of numbers, if it is
/// stored.
#[tactic(auto, using(crate::proofs::ToldLaws::unknown_is_plain), unfolding(name_facts::specs::GivenFacts::fact_or))]
pub(crate) fn is_plain_name(table: &NameFacts, name: &[u8]) -> bool
    ensures { result ≡ spec.is_plain name.now (fact_in table.now name.now) }
{
    match table.get(name) {
        Some(fact) => is_plain(name, fact),
        None => true,
    }
}
