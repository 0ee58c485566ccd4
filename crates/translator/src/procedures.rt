//! The procedures of a set: their names, and whether a name that stands for a procedure is one of them. Sections 2.8, 15.5 and 15.6.

ghost use Rattle.std.specs.List.{list_all};
ghost use Rattle.std.specs.Prelude.{◌≡◌, IfOk, OnOk, map};
ghost use Rattle.f_tree.specs.Lines.{unit_kind};
ghost use Rattle.f_tree.specs.Reading.{name_or_none};
ghost use Rattle.declaration_rows.specs.GlobalRows.{all_units};
ghost use Rattle.declaration_rows.specs.NameRows.{all_names};
ghost use Rattle.name_facts.specs.GivenFacts.{AreNameFacts, fact_in};
ghost use Rattle.name_table.specs.Named.{IsNameSet, names_in};
ghost use Rattle.name_places.specs.name_uses.UsesSeen.{Adds};
ghost use Rattle.translated_files.specs.TranslatedFiles as spec;
ghost use Rattle.translator.specs.UnitFiles.{own_procedure};

use f_tree::{Class, File, Unit, UnitKind};
use name_facts::NameFacts;
use name_table::NameSet;
use std::alloc::{AllocError, Global};

/// Whether a unit is a procedure.
#[tactic(auto, unfolding(f_tree::specs::Lines::unit_kind, translated_files::specs::TranslatedFiles::is_procedure))]
fn is_procedure(unit: &Unit) -> bool
    ensures { result ≡ spec.is_procedure (unit_kind unit.now) }
{
    match &unit.kind {
        UnitKind::Subroutine | UnitKind::Function(_) => true,
        UnitKind::Main | UnitKind::BlockData => false,
    }
}

/// The name of a unit, or an empty one.
#[tactic(auto, unfolding(f_tree::specs::Reading::name_or_none))]
pub(crate) fn own_name(unit: &Unit) -> &[u8]
    ensures { result.now ≡ name_or_none unit.now.name }
{
    match &unit.name {
        Some(name) => name.as_slice(),
        None => &[],
    }
}

/// Adds the name of a unit, if it is a procedure.
#[tactic(auto, unfolding(crate::specs::UnitFiles::own_procedure))]
fn add_procedure<'a>(names: &mut NameSet<'a>, unit: &'a Unit) -> Result<(), AllocError>
    requires { IsNameSet names.old }
    ensures { OnOk result (Adds names.old names.new (own_procedure unit.now)) }
{
    if is_procedure(unit) {
        names.add(own_name(unit))
    } else {
        Ok(())
    }
}

/// Adds the names of the procedures of a file.
fn add_procedures<'a>(names: &mut NameSet<'a>, units: &'a [Unit]) -> Result<(), AllocError>
    requires { IsNameSet names.old }
    ensures { OnOk result (Adds names.old names.new (spec.procedure_names units.now)) }
{
    for unit in units {
        add_procedure(names, unit)?;
    }
    Ok(())
}

/// The names of the procedures of a set.
pub(crate) fn procedure_names<'a>(
    alloc: Global,
    files: &'a [File],
) -> Result<NameSet<'a>, AllocError>
    ensures names { IfOk result (λ names. names_in names ≡ spec.procedure_names (all_units files.now)) }
    ensures is_set { IfOk result (λ names. IsNameSet names) }
{
    let mut names = NameSet::new(alloc);
    for file in files {
        add_procedures(&mut names, file.units.as_slice())?;
    }
    Ok(names)
}

/// Whether a name of a class is that of a procedure of the set, if it stands for a procedure.
#[tactic(auto, unfolding(translated_files::specs::TranslatedFiles::is_defined), using(crate::proofs::NameLemmas::among_any))]
fn is_defined(procedures: &NameSet, class: Class, name: &[u8]) -> bool
    requires { IsNameSet procedures.now }
    ensures { result ≡ spec.is_defined (names_in procedures.now) class name.now }
{
    match class {
        Class::Procedure => procedures.has(name),
        Class::Constant | Class::Stored | Class::Dummy | Class::DummyProcedure => true,
        Class::Result | Class::StatementFunction | Class::Intrinsic | Class::Unit => true,
    }
}

/// Whether each name that stands for a procedure is that of one of the set.
fn are_defined(procedures: &NameSet, table: &NameFacts, names: &[&[u8]]) -> bool
    requires { IsNameSet procedures.now }
    ensures { result ≡ list_all (λ name. spec.is_defined (names_in procedures.now) (fact_in table.now name.now).class name.now) names.now }
{
    names
        .iter()
        .all(|name| is_defined(procedures, table.class(name), name))
}

/// Whether the procedures that a unit calls or passes are units of the set.
pub(crate) fn procedures_are_defined(
    procedures: &NameSet,
    _unit: &Unit,
    table: &NameFacts,
    names: &[&[u8]],
) -> bool
    requires procedures { IsNameSet procedures.now }
    requires table { AreNameFacts _unit.now table.now }
    requires names { map (λ name. name.now) names.now ≡ all_names _unit.now }
    ensures { result ≡ spec.procedures_are_defined (names_in procedures.now) _unit.now }
{
    are_defined(procedures, table, names)
}
