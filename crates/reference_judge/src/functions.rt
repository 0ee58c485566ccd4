//! Functions of type CHARACTER that are dummy procedures or are passed (F42). Section 15.9.3.
#![tactic(auto)]

ghost use Rattle.std.specs.Prelude.{◌≡◌, ◌++◌, OnOk};
ghost use Rattle.std.specs.List.{list_any};
ghost use Rattle.declaration_rows.specs.NameRows.{known_in};
ghost use Rattle.declaration_rows.specs.ReferenceRows as rows;
ghost use Rattle.declaration_rows.specs.ReferenceRows.{dummy_procedure_rows};
ghost use Rattle.expression_judge.specs.SeenNames.{AreSeen};
ghost use Rattle.f_tree.specs.Attributes.{own_names, all_dummies};
ghost use Rattle.f_tree.specs.Uses.{is_among};
ghost use Rattle.name_classes.specs.KnownSigns.{AreSigns};
ghost use Rattle.name_places.specs.FirstPlaces.{ArePlaces};
ghost use Rattle.name_table.specs.Named.{texts, IsNameSet};
ghost use Rattle.name_uses.specs.UsesSeen.{use_of, used_in, manner_in};
ghost use Rattle.reference_judge.specs.PassedFunctions as spec;

use crate::arguments::is_character;
use expression_judge::Names;
use f_tree::{Class, Kind, Refusal, Stmt, Unit};
use found_rows::add_unless;
use name_classes::Signs;
use name_places::{NamePlaces, add_at, mention_place};
use name_table::NameSet;
use name_uses::{Manner, Use, add_statement_uses};
use std::alloc::{AllocError, Global};

/// Whether a name is that of a function of type CHARACTER, were it one of a procedure: what CALL calls is no function.
#[tactic(auto, unfolding(crate::specs::PassedFunctions::is_text_function))]
fn is_text_function(called: &NameSet, names: &Names, name: &[u8]) -> bool
    requires { IsNameSet called.now }
    ensures { result ≡ spec.is_text_function called.now names.now name.now }
{
    is_character(names.fact(name).basic) && !called.has(name)
}

/// Whether a class is that of procedures.
#[tactic(auto, unfolding(crate::specs::PassedFunctions::is_procedure_class))]
fn is_procedure_class(class: Class) -> bool
    ensures { result ≡ spec.is_procedure_class class }
{
    match class {
        Class::Procedure | Class::DummyProcedure => true,
        Class::Constant | Class::Stored | Class::Dummy | Class::Result => false,
        Class::StatementFunction | Class::Intrinsic | Class::Unit => false,
    }
}

/// Whether a class is that of dummy procedures.
#[tactic(auto, unfolding(crate::specs::PassedFunctions::is_dummy_class))]
fn is_dummy_class(class: Class) -> bool
    ensures { result ≡ spec.is_dummy_class class }
{
    match class {
        Class::DummyProcedure => true,
        Class::Constant | Class::Stored | Class::Dummy | Class::Result => false,
        Class::StatementFunction | Class::Intrinsic | Class::Unit => false,
        Class::Procedure => false,
    }
}

/// Whether a name stands alone.
#[tactic(auto, unfolding(declaration_rows::specs::ReferenceRows::stands_alone, name_uses::specs::UsesSeen::manner_in))]
fn stands_alone(manner: Manner) -> bool
    ensures { result ≡ rows.stands_alone (manner_in manner) }
{
    match manner {
        Manner::Alone => true,
        Manner::WithList | Manner::Called | Manner::Declared => false,
    }
}

/// Whether a function of type CHARACTER is passed by its name alone.
#[tactic(auto, unfolding(crate::specs::PassedFunctions::passes, name_uses::specs::UsesSeen::use_of))]
fn passes(called: &NameSet, names: &Names, one: Use) -> bool
    requires { IsNameSet called.now }
    ensures { result ≡ spec.passes called.now names.now (use_of one.entry) }
{
    stands_alone(one.manner)
        && (is_procedure_class(names.fact(one.name).class)
            && is_text_function(called, names, one.name))
}

/// Whether a function of type CHARACTER is passed among uses of names.
fn any_passes(called: &NameSet, names: &Names, uses: &[Use]) -> bool
    requires { IsNameSet called.now }
    ensures { result ≡ list_any (spec.passes called.now names.now) (used_in uses.now) }
{
    match uses {
        [first, rest @ ..] => passes(called, names, *first) || any_passes(called, names, rest),
        [] => false,
    }
}

/// Adds the row of a statement that passes a function of type CHARACTER.
#[tactic(auto, unfolding(crate::specs::PassedFunctions::passed_row))]
fn add_passed_row(
    alloc: Global,
    found: &mut Vec<Refusal>,
    signs: &Signs,
    names: &Names,
    statement: &Stmt,
) -> Result<(), AllocError>
    requires arrays { IsNameSet signs.now.arrays }
    requires called { IsNameSet signs.now.used.called }
    ensures { OnOk result (found.new.items ≡ found.old.items ++ spec.passed_row signs.now names.now statement.now) }
{
    let mut uses = Vec::new(alloc);
    add_statement_uses(alloc, &signs.arrays, &mut uses, &statement.body)?;
    let passed = any_passes(&signs.used.called, names, uses.as_slice());
    add_unless(found, statement, !passed, Kind::CharacterFunctionAsArgument)
}

/// Adds the rows of statements that pass functions of type CHARACTER.
pub(crate) fn add_passed_rows(
    alloc: Global,
    found: &mut Vec<Refusal>,
    signs: &Signs,
    names: &Names,
    statements: &[Stmt],
) -> Result<(), AllocError>
    requires arrays { IsNameSet signs.now.arrays }
    requires called { IsNameSet signs.now.used.called }
    ensures { OnOk result (found.new.items ≡ found.old.items ++ spec.passed_from signs.now names.now statements.now) }
{
    for statement in statements {
        add_passed_row(alloc, found, signs, names, statement)?;
    }
    Ok(())
}

/// Whether a name is that of the unit or of one of its entries, or one of their dummy arguments.
fn is_in_head(unit: &Unit, signs: &Signs, name: &[u8]) -> bool
    requires { AreSigns unit.now signs.now }
    ensures { result ≡ is_among name.now (own_names unit.now ++ all_dummies unit.now) }
{
    signs.entries.own_names.has(name) || signs.entries.dummies.has(name)
}

/// Whether a name is no dummy procedure that is a function of type CHARACTER.
#[tactic(auto, unfolding(crate::specs::PassedFunctions::may_be_dummy))]
fn may_be_dummy(called: &NameSet, names: &Names, name: &[u8]) -> bool
    requires { IsNameSet called.now }
    ensures { result ≡ spec.may_be_dummy called.now names.now name.now }
{
    !(is_dummy_class(names.fact(name).class) && is_text_function(called, names, name))
}

/// Adds the row of a dummy procedure that is a function of type CHARACTER.
fn add_dummy_row(
    found: &mut Vec<Refusal>,
    unit: &Unit,
    signs: &Signs,
    names: &Names,
    places: &NamePlaces,
    name: &[u8],
) -> Result<(), AllocError>
    requires signs { AreSigns unit.now signs.now }
    requires names { AreSeen (known_in unit.now) names.now }
    requires places { ArePlaces unit.now places.now }
    ensures { OnOk result (found.new.items ≡ found.old.items ++ spec.dummy_row unit.now name.now) }
{
    let place = mention_place(unit, places, is_in_head(unit, signs, name), name);
    let may_be = may_be_dummy(&signs.used.called, names, name);
    add_at(found, place, may_be, Kind::CharacterFunctionAsArgument)
}

/// Adds the rows of dummy procedures that are functions of type CHARACTER.
pub(crate) fn add_dummy_rows(
    found: &mut Vec<Refusal>,
    unit: &Unit,
    signs: &Signs,
    names: &Names,
    places: &NamePlaces,
    listed: &[&[u8]],
) -> Result<(), AllocError>
    requires signs { AreSigns unit.now signs.now }
    requires names { AreSeen (known_in unit.now) names.now }
    requires places { ArePlaces unit.now places.now }
    ensures { OnOk result (found.new.items ≡ found.old.items ++ dummy_procedure_rows unit.now (texts listed.now)) }
{
    for name in listed {
        add_dummy_row(found, unit, signs, names, places, name)?;
    }
    Ok(())
}
