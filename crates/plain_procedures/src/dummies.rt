//! The list of dummy arguments of a unit. Section 15.9.2.

ghost use Rattle.std.specs.Prelude.{◌≡◌};
ghost use Rattle.std.specs.List.{list_all, list_any};
ghost use Rattle.f_tree.specs.Attributes.{named_dummies};
ghost use Rattle.unit_forms.specs.PlainProcedures as procedures;
ghost use Rattle.name_facts.specs.GivenFacts.{AreNameFacts};
ghost use Rattle.plain_procedures.specs.ToldHeadings as spec;

use crate::name::is_dummy_class;
use f_tree::{DummyArgument, Unit};
use name_facts::NameFacts;

/// Whether a dummy argument has a name.
#[tactic(auto, unfolding(crate::specs::ToldHeadings::is_named))]
fn is_named(name: &[u8], dummy: &DummyArgument) -> bool
    ensures { result ≡ spec.is_named name.now dummy.now }
{
    match dummy {
        DummyArgument::Named(other) => name == other.as_slice(),
        DummyArgument::AlternateReturn => false,
    }
}

/// Whether a name is that of one of dummy arguments.
fn is_among(name: &[u8], dummies: &[DummyArgument]) -> bool
    ensures { result ≡ list_any (spec.is_named name.now) dummies.now }
{
    dummies.iter().any(|dummy| is_named(name, dummy))
}

/// Whether the name of a dummy argument is that of one of those behind it.
#[tactic(auto, unfolding(crate::specs::ToldHeadings::stands_again))]
fn stands_again(dummy: &DummyArgument, later: &[DummyArgument]) -> bool
    ensures { result ≡ spec.stands_again dummy.now later.now }
{
    match dummy {
        DummyArgument::Named(name) => is_among(name.as_slice(), later),
        DummyArgument::AlternateReturn => false,
    }
}

/// Whether no name stands twice among dummy arguments.
fn stand_once(dummies: &[DummyArgument]) -> bool
    ensures { result ≡ spec.stand_once dummies.now }
{
    for index in 0..dummies.len() {
        if stands_again(&dummies[index], &dummies[index + 1..]) {
            return false;
        }
    }
    true
}

/// Whether the name of a dummy argument is that of one within the unit, and no constant.
#[tactic(auto, unfolding(crate::specs::ToldHeadings::names_a_dummy))]
fn names_a_dummy(table: &NameFacts, dummy: &DummyArgument) -> bool
    ensures { result ≡ spec.names_a_dummy table.now dummy.now }
{
    match dummy {
        DummyArgument::Named(name) => is_dummy_class(table.class(name.as_slice())),
        DummyArgument::AlternateReturn => true,
    }
}

/// Whether the names of dummy arguments are those of dummy arguments within the unit.
fn name_dummies(table: &NameFacts, dummies: &[DummyArgument]) -> bool
    ensures { result ≡ list_all (spec.names_a_dummy table.now) dummies.now }
{
    dummies.iter().all(|dummy| names_a_dummy(table, dummy))
}

/// Whether no name stands twice in the list of a unit.
pub(crate) fn each_stands_once(unit: &Unit) -> bool
    ensures { result ≡ procedures.each_stands_once (named_dummies unit.now.dummies) }
{
    stand_once(unit.dummies.as_slice())
}

/// Whether each name of the list of a unit is a dummy argument within it, and no constant.
pub(crate) fn names_dummies(unit: &Unit, table: &NameFacts) -> bool
    requires { AreNameFacts unit.now table.now }
    ensures { result ≡ procedures.names_dummies unit.now }
{
    name_dummies(table, unit.dummies.as_slice())
}
