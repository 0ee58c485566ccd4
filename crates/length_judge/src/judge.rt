//! The first refusal of a unit by uses of length `(*)` and by items that are too large (F39, F53).
#![tactic(auto)]

ghost use Rattle.std.specs.Prelude.{◌≡◌, ◌++◌, ◌||◌, OnOk, IfOk};
ghost use Rattle.decl_table.specs.UnitFacts.{AreDeclarations};
ghost use Rattle.declaration_rows.specs.LengthRows.{length_rows_from, item_rows, unit_length_rows};
ghost use Rattle.declaration_rows.specs.NameRows.{all_names};
ghost use Rattle.declaration_rows.specs.Verdicts.{first_of};
ghost use Rattle.declared_types.specs.TypeTables.{AreTypes};
ghost use Rattle.name_facts.specs.GivenFacts.{AreNameFacts};
ghost use Rattle.name_table.specs.Named.{texts};
ghost use Rattle.length_judge.specs.FaultsSeen as seen;

use crate::definitions::{any_star_dummy, definition_dummies, dummy_lengths};
use crate::items::add_items_rows;
use crate::names::Names;
use crate::statements::{Faults, statement_faults};
use decl_table::{Declarations, unit_declarations};
use declared_types::Types;
use f_tree::{Body, Kind, Refusal, Stmt, Unit};
use found_rows::{add_unless, first_of};
use name_facts::NameFacts;
use name_places::{all_names, name_places};
use std::alloc::{AllocError, Global};

/// What is refused of a statement, given the dummy arguments of the statement function that it defines.
fn body_faults<'a>(
    alloc: Global,
    unit: &'a Unit,
    table: &'a NameFacts<'a>,
    declared: &'a Declarations<'a>,
    dummies: &[&'a [u8]],
    body: &Body,
) -> Result<Faults, AllocError>
    requires table { AreNameFacts unit.now table.now }
    requires declared { AreDeclarations unit.now declared.now }
    ensures { IfOk result (λ found. found ≡ seen.faults_with unit.now (texts dummies.now) body.now) }
{
    let names = Names {
        unit,
        table,
        constants: &declared.constants,
        dummies: dummy_lengths(alloc, unit, declared, dummies)?,
    };
    statement_faults(alloc, &names, body)
}

/// Whether a statement uses length `(*)` as it may not, given whether a dummy argument of the statement function that it defines has it.
fn is_misused(faults: Faults, has_star_dummy: bool) -> bool
    ensures { result ≡ (faults.misused || has_star_dummy) }
{
    faults.misused || has_star_dummy
}

/// Adds the rows of a statement, given what is refused of it.
#[tactic(auto, unfolding(crate::specs::FaultsSeen::rows_of))]
fn add_found(
    found: &mut Vec<Refusal>,
    statement: &Stmt,
    faults: Faults,
    has_star_dummy: bool,
) -> Result<(), AllocError>
    ensures { OnOk result (found.new.items ≡ found.old.items ++ seen.rows_of statement.now faults has_star_dummy) }
{
    let misused = is_misused(faults, has_star_dummy);
    add_unless(found, statement, !misused, Kind::UseOfAssumedLength)?;
    add_unless(found, statement, !faults.too_long, Kind::StorageTooLarge)
}

/// Adds the rows of a statement.
fn add_statement_rows<'a>(
    alloc: Global,
    found: &mut Vec<Refusal>,
    unit: &'a Unit,
    types: &Types,
    table: &'a NameFacts<'a>,
    declared: &'a Declarations<'a>,
    statement: &'a Stmt,
) -> Result<(), AllocError>
    requires types { AreTypes unit.now types.now }
    requires table { AreNameFacts unit.now table.now }
    requires declared { AreDeclarations unit.now declared.now }
    ensures { OnOk result (found.new.items ≡ found.old.items ++ seen.statement_rows unit.now statement.now) }
{
    let names = definition_dummies(alloc, &declared.signs.arrays, &statement.body)?;
    let dummies = names.as_slice();
    let faults = body_faults(alloc, unit, table, declared, dummies, &statement.body)?;
    add_found(
        found,
        statement,
        faults,
        any_star_dummy(unit, types, dummies),
    )
}

/// Adds the rows of the statements of a unit.
fn add_statements_rows<'a>(
    alloc: Global,
    found: &mut Vec<Refusal>,
    unit: &'a Unit,
    types: &Types,
    table: &'a NameFacts<'a>,
    declared: &'a Declarations<'a>,
    statements: &'a [Stmt],
) -> Result<(), AllocError>
    requires types { AreTypes unit.now types.now }
    requires table { AreNameFacts unit.now table.now }
    requires declared { AreDeclarations unit.now declared.now }
    ensures { OnOk result (found.new.items ≡ found.old.items ++ length_rows_from unit.now statements.now) }
{
    for statement in statements {
        add_statement_rows(alloc, found, unit, types, table, declared, statement)?;
    }
    Ok(())
}

/// Adds the rows of the names of a unit.
fn add_names_rows(
    alloc: Global,
    found: &mut Vec<Refusal>,
    unit: &Unit,
    types: &Types,
    table: &NameFacts,
    declared: &Declarations,
) -> Result<(), AllocError>
    requires types { AreTypes unit.now types.now }
    requires table { AreNameFacts unit.now table.now }
    requires declared { AreDeclarations unit.now declared.now }
    ensures { OnOk result (found.new.items ≡ found.old.items ++ item_rows unit.now (all_names unit.now)) }
{
    let signs = &declared.signs;
    let places = name_places(alloc, &signs.arrays, unit)?;
    let names = all_names(alloc, &signs.arrays, unit)?;
    add_items_rows(found, unit, types, table, signs, &places, names.as_slice())
}

/// The first of these rows that a unit breaks, given what its statements declare.
#[tactic(auto, unfolding(declaration_rows::specs::LengthRows::unit_length_rows))]
fn declared_fault<'a>(
    alloc: Global,
    unit: &'a Unit,
    types: &Types,
    table: &'a NameFacts<'a>,
    declared: &'a Declarations<'a>,
) -> Result<Option<Refusal>, AllocError>
    requires types { AreTypes unit.now types.now }
    requires table { AreNameFacts unit.now table.now }
    requires declared { AreDeclarations unit.now declared.now }
    ensures { IfOk result (λ found. found ≡ first_of (unit_length_rows unit.now)) }
{
    let mut found = Vec::new(alloc);
    let statements = unit.statements.as_slice();
    add_statements_rows(alloc, &mut found, unit, types, table, declared, statements)?;
    add_names_rows(alloc, &mut found, unit, types, table, declared)?;
    Ok(first_of(found.as_slice()))
}

/// The first of the rows F39 and F53 that a unit breaks, given the types and dimensions that its statements declare, and what its names are.
///
/// # Errors
///
/// Want of memory. A length past 64 bits counts as one: no memory holds an expression that has it.
pub fn length_fault(
    alloc: Global,
    unit: &Unit,
    types: &Types,
    table: &NameFacts,
) -> Result<Option<Refusal>, AllocError>
    requires types { AreTypes unit.now types.now }
    requires table { AreNameFacts unit.now table.now }
    ensures { IfOk result (λ found. found ≡ first_of (unit_length_rows unit.now)) }
{
    let declared = unit_declarations(alloc, unit)?;
    declared_fault(alloc, &*unit, types, &*table, &declared)
}
