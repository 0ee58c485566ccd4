//! Whether a unit is called by a name that C can spell, and has dummies that C can spell. Sections 2.2 and 15.9.2; C89, 3.1.2.

ghost use Rattle.std.specs.List.{list_all};
ghost use Rattle.std.specs.Prelude.{◌≡◌, ◌&&◌};
ghost use Rattle.f_tree.specs.Lines.{unit_kind};
ghost use Rattle.f_tree.specs.Reading.{name_or_none};
ghost use Rattle.unit_forms.specs.SpellableUnits as spec;
ghost use Rattle.translator.specs.UnitFiles as spelled;

use crate::procedures::own_name;
use f_tree::{DummyArgument, Unit, UnitKind};
use plain_names::{begins_with_letter, is_name};

/// Whether the name of a unit can be spelled in C, if it is called by it.
#[tactic(auto, unfolding(f_tree::specs::Lines::unit_kind, unit_forms::specs::SpellableUnits::is_called_well))]
fn is_called_well(unit: &Unit, name: &[u8]) -> bool
    ensures { result ≡ spec.is_called_well (unit_kind unit.now) name.now }
{
    match &unit.kind {
        UnitKind::Subroutine | UnitKind::Function(_) => begins_with_letter(name) && is_name(name),
        UnitKind::Main | UnitKind::BlockData => true,
    }
}

/// Whether the name of a dummy argument begins with a letter, if it has one.
#[tactic(auto, unfolding(crate::specs::UnitFiles::dummy_is_spelled))]
fn dummy_is_spelled(dummy: &DummyArgument) -> bool
    ensures { result ≡ spelled.dummy_is_spelled dummy.now }
{
    match dummy {
        DummyArgument::Named(name) => begins_with_letter(name.as_slice()),
        DummyArgument::AlternateReturn => true,
    }
}

/// Whether the names of dummy arguments begin with letters.
fn dummies_are_spelled(dummies: &[DummyArgument]) -> bool
    ensures { result ≡ list_all spelled.dummy_is_spelled dummies.now }
{
    dummies.iter().all(|dummy| dummy_is_spelled(dummy))
}

/// Whether the name of a unit and those of its dummy arguments can be spelled in C.
pub(crate) fn is_spelled_heading(unit: &Unit) -> bool
    ensures { result ≡ (spec.is_called_well (unit_kind unit.now) (name_or_none unit.now.name) && list_all spelled.dummy_is_spelled unit.now.dummies) }
{
    is_called_well(unit, own_name(unit)) && dummies_are_spelled(unit.dummies.as_slice())
}
