//! What a unit is by its heading, and how it is entered. Sections 2.4, 14 and 15.

ghost use Rattle.std.specs.Prelude.{◌≡◌};
ghost use Rattle.f_tree.specs.Lines.{unit_kind};
ghost use Rattle.f_tree.specs.Reading.{name_or_none};
ghost use Rattle.name_facts.specs.GivenFacts.{AreNameFacts};
ghost use Rattle.unit_forms.specs.PlainProcedures as procedures;

use crate::dummies::{each_stands_once, names_dummies};
use crate::name::is_result_class;
use f_tree::{Unit, UnitKind};
use name_facts::NameFacts;
use plain_names::{have_no_entry, is_main};

/// Whether a unit has statements that are run.
#[tactic(auto, unfolding(f_tree::specs::Lines::unit_kind, unit_forms::specs::PlainProcedures::may_run))]
pub(crate) fn may_run(unit: &Unit) -> bool
    ensures { result ≡ procedures.may_run (unit_kind unit.now) }
{
    match &unit.kind {
        UnitKind::Main | UnitKind::Subroutine | UnitKind::Function(_) => true,
        UnitKind::BlockData => false,
    }
}

/// Whether a unit is a function. Section 15.5.
#[tactic(auto, unfolding(f_tree::specs::Lines::unit_kind, unit_forms::specs::PlainProcedures::is_function))]
pub(crate) fn is_function(unit: &Unit) -> bool
    ensures { result ≡ procedures.is_function (unit_kind unit.now) }
{
    match &unit.kind {
        UnitKind::Function(_) => true,
        UnitKind::Main | UnitKind::Subroutine | UnitKind::BlockData => false,
    }
}

/// Whether a unit has no dummy arguments, or is no main program. Section 14.
pub(crate) fn heading_fits(unit: &Unit) -> bool
    ensures { result ≡ procedures.heading_fits (unit_kind unit.now) unit.now.dummies }
{
    !is_main(unit) || unit.dummies.is_empty()
}

/// Whether a unit has no ENTRY. Section 15.7.
pub(crate) fn has_no_entries(unit: &Unit) -> bool
    ensures { result ≡ procedures.has_no_entries unit.now }
{
    have_no_entry(unit.statements.as_slice())
}

/// The name of a unit, or an empty one.
#[tactic(auto, unfolding(f_tree::specs::Reading::name_or_none))]
fn own_name(unit: &Unit) -> &[u8]
    ensures { result.now ≡ name_or_none unit.now.name }
{
    match &unit.name {
        Some(name) => name.as_slice(),
        None => &[],
    }
}

/// Whether the name of a unit is that of its result, if it is a function. Section 15.5.1.
fn names_its_result(unit: &Unit, table: &NameFacts) -> bool
    requires { AreNameFacts unit.now table.now }
    ensures { result ≡ procedures.names_its_result unit.now }
{
    !is_function(unit) || is_result_class(table.class(own_name(unit)))
}

/// Whether each name of the list of a unit stands once and is a dummy argument within it, and the name of a function is that of its result.
#[tactic(auto, unfolding(unit_forms::specs::PlainProcedures::has_plain_heading))]
pub(crate) fn has_plain_heading(unit: &Unit, table: &NameFacts) -> bool
    requires { AreNameFacts unit.now table.now }
    ensures { result ≡ procedures.has_plain_heading unit.now }
{
    each_stands_once(unit) && names_dummies(unit, table) && names_its_result(unit, table)
}
