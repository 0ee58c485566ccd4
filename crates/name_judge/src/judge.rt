//! The first refusal of the names of a unit.
#![tactic(auto)]

ghost use Rattle.std.specs.Prelude.{◌≡◌, ◌++◌, OnOk, IfOk};
ghost use Rattle.declaration_rows.specs.NameRows.{given_names, all_names, names_rows};
ghost use Rattle.declaration_rows.specs.Verdicts.{first_of};
ghost use Rattle.name_classes.specs.KnownSigns.{AreSigns};
ghost use Rattle.name_facts.specs.GivenFacts.{IsNameFact, AreNameFacts, no_fact};
ghost use Rattle.name_table.specs.Named.{texts};
ghost use Rattle.name_judge.specs.FactRows.{AreTables, given_rows};

use crate::rows::{add_bounds, add_conflicts, add_constant, add_elements, add_mention_rows};
use crate::tables::{Tables, unit_tables};
use f_tree::{Basic, Class, Refusal, Unit};
use found_rows::first_of;
use name_classes::Signs;
use name_facts::{NameFact, NameFacts};
use name_places::all_names;
use plain_data::Items;
use std::alloc::{AllocError, Global};

/// Adds the rows of a name, given what it is.
fn add_fact_rows(
    found: &mut Vec<Refusal>,
    unit: &Unit,
    signs: &Signs,
    facts: &NameFacts,
    tables: &Tables,
    name: &[u8],
    fact: &NameFact,
) -> Result<(), AllocError>
    requires signs { AreSigns unit.now signs.now }
    requires facts { AreNameFacts unit.now facts.now }
    requires tables { AreTables unit.now tables.now }
    requires fact { IsNameFact (given_names unit.now name.now) fact.now }
    ensures { OnOk result (found.new.items ≡ found.old.items ++ given_rows unit.now name.now) }
{
    add_mention_rows(found, unit, signs, &tables.places, name, fact)?;
    add_conflicts(found, unit, &tables.places, name, fact)?;
    add_bounds(found, unit, facts, tables, name, fact)?;
    add_elements(found, unit, &tables.places, name, fact)?;
    add_constant(found, unit, &tables.places, name, fact)
}

/// What a name is that no table has.
#[tactic(auto, unfolding(name_facts::specs::GivenFacts::no_fact))]
fn no_fact(alloc: Global) -> NameFact
    ensures { result ≡ no_fact }
{
    NameFact {
        class: Class::Unit,
        basic: Basic::Untyped,
        width: None,
        rank: 0,
        sized: true,
        bounds: Items::new(alloc),
        constant: None,
    }
}

/// Adds the rows of a name.
fn add_name_rows(
    found: &mut Vec<Refusal>,
    unit: &Unit,
    signs: &Signs,
    facts: &NameFacts,
    tables: &Tables,
    nothing: &NameFact,
    name: &[u8],
) -> Result<(), AllocError>
    requires signs { AreSigns unit.now signs.now }
    requires facts { AreNameFacts unit.now facts.now }
    requires tables { AreTables unit.now tables.now }
    requires nothing { nothing.now ≡ no_fact }
    ensures { OnOk result (found.new.items ≡ found.old.items ++ given_rows unit.now name.now) }
{
    match facts.get(name) {
        Some(fact) => add_fact_rows(found, unit, signs, facts, tables, name, fact),
        None => add_fact_rows(found, unit, signs, facts, tables, name, nothing),
    }
}

/// Adds the rows of names.
fn add_names_rows(
    alloc: Global,
    found: &mut Vec<Refusal>,
    unit: &Unit,
    signs: &Signs,
    facts: &NameFacts,
    tables: &Tables,
    names: &[&[u8]],
) -> Result<(), AllocError>
    requires signs { AreSigns unit.now signs.now }
    requires facts { AreNameFacts unit.now facts.now }
    requires tables { AreTables unit.now tables.now }
    ensures { OnOk result (found.new.items ≡ found.old.items ++ names_rows unit.now (texts names.now)) }
{
    let nothing = no_fact(alloc);
    for name in names {
        add_name_rows(found, unit, signs, facts, tables, &nothing, name)?;
    }
    Ok(())
}

/// The first refusal of a unit by what its names are, given what its statements tell of them (`name_classes::unit_signs`) and what each name is
/// (`decl_table::name_facts`). An error where memory ran out.
pub fn name_fault(
    alloc: Global,
    unit: &Unit,
    signs: &Signs,
    facts: &NameFacts,
) -> Result<Option<Refusal>, AllocError>
    requires signs { AreSigns unit.now signs.now }
    requires facts { AreNameFacts unit.now facts.now }
    ensures { IfOk result (λ found. found ≡ first_of (names_rows unit.now (all_names unit.now))) }
{
    let tables = unit_tables(alloc, &signs.arrays, unit)?;
    let names = all_names(alloc, &signs.arrays, unit)?;
    let mut found = Vec::new(alloc);
    add_names_rows(
        alloc,
        &mut found,
        unit,
        signs,
        facts,
        &tables,
        names.as_slice(),
    )?;
    Ok(first_of(found.as_slice()))
}
