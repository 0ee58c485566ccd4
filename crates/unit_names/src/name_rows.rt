//! The rows of the names of a unit that are not declared (F21), each where the name stands first. Sections 4.1.2 and 8.4.
#![tactic(auto)]

ghost use Rattle.std.specs.Prelude.{◌≡◌, ◌++◌, ◌∷◌, [], OnOk};
ghost use Rattle.f_tree.specs.Uses.{is_among};
ghost use Rattle.f_tree.specs.Attributes.{named_dummies, own_names, all_dummies};
ghost use Rattle.declaration_rows.specs.NameRows.{all_names};
ghost use Rattle.declaration_rows.specs.UndeclaredRows as rows;
ghost use Rattle.name_table.specs.Named.{names_in, IsNameSet};
ghost use Rattle.name_uses.specs.UsesSeen.{used_in};
ghost use Rattle.name_classes.specs.KnownSigns.{AreSigns};
ghost use Rattle.name_classes.specs.StatedNames.{dummy_name};
ghost use Rattle.unit_names.specs.Undeclared as spec;

use crate::stands::stands;
use f_tree::{DummyArgument, Kind, Refusal, Stmt, Unit};
use found_rows::add_unless;
use name_classes::Signs;
use name_table::NameSet;
use name_uses::{Use, add_statement_uses};
use std::alloc::{AllocError, Global};

/// Adds the row of a name that stands in the first statement of its unit.
fn add_head_row(
    found: &mut Vec<Refusal>,
    unit: &Unit,
    signs: &Signs,
    name: &[u8],
) -> Result<(), AllocError>
    requires { AreSigns unit.now signs.now }
    ensures { OnOk result (found.new.items ≡ found.old.items ++ spec.head_row unit.now name.now) }
{
    if stands(unit, signs, name) {
        return Ok(());
    }
    found.push(Refusal {
        file: unit.file,
        card: unit.card,
        kind: Kind::NameNotDeclared,
    })?;
    Ok(())
}

/// Whether a name is that of the unit or of one of its entries, or one of their dummy arguments.
fn is_in_head(unit: &Unit, signs: &Signs, name: &[u8]) -> bool
    requires { AreSigns unit.now signs.now }
    ensures { result ≡ is_among name.now (own_names unit.now ++ all_dummies unit.now) }
{
    signs.entries.own_names.has(name) || signs.entries.dummies.has(name)
}

/// Adds the row of a name that stands first in a statement: where it is a name or a dummy argument of the unit, the row stands at the first
/// statement of the unit.
fn add_name_row(
    found: &mut Vec<Refusal>,
    unit: &Unit,
    signs: &Signs,
    statement: &Stmt,
    name: &[u8],
) -> Result<(), AllocError>
    requires { AreSigns unit.now signs.now }
    ensures { OnOk result (found.new.items ≡ found.old.items ++ spec.row_at unit.now statement.now name.now) }
{
    if is_in_head(unit, signs, name) {
        return add_head_row(found, unit, signs, name);
    }
    let stands = stands(unit, signs, name);
    add_unless(found, statement, stands, Kind::NameNotDeclared)
}

/// Adds the row of a name that stands in the first statement of the unit and has not stood before, and notes the name.
fn note_head_name<'a>(
    found: &mut Vec<Refusal>,
    seen: &mut NameSet<'a>,
    unit: &Unit,
    signs: &Signs,
    name: &'a [u8],
) -> Result<(), AllocError>
    requires signs { AreSigns unit.now signs.now }
    requires seen { IsNameSet seen.old }
    ensures rows { OnOk result (found.new.items ≡ found.old.items ++ spec.new_rows (spec.head_row unit.now) (names_in seen.old) (name.now ∷ [])) }
    ensures seen { OnOk result (spec.Sees seen.old seen.new (name.now ∷ [])) }
{
    if seen.has(name) {
        return Ok(());
    }
    seen.add(name)?;
    add_head_row(found, unit, signs, name)
}

/// Adds the row of a dummy argument of the unit that has not stood before, and notes its name.
fn note_dummy<'a>(
    found: &mut Vec<Refusal>,
    seen: &mut NameSet<'a>,
    unit: &Unit,
    signs: &Signs,
    dummy: &'a DummyArgument,
) -> Result<(), AllocError>
    requires signs { AreSigns unit.now signs.now }
    requires seen { IsNameSet seen.old }
    ensures rows { OnOk result (found.new.items ≡ found.old.items ++ spec.new_rows (spec.head_row unit.now) (names_in seen.old) (dummy_name dummy.now)) }
    ensures seen { OnOk result (spec.Sees seen.old seen.new (dummy_name dummy.now)) }
{
    match dummy {
        DummyArgument::Named(name) => note_head_name(found, seen, unit, signs, name.as_slice()),
        DummyArgument::AlternateReturn => Ok(()),
    }
}

/// Adds the rows of the dummy arguments of the unit.
fn note_dummies<'a>(
    found: &mut Vec<Refusal>,
    seen: &mut NameSet<'a>,
    signs: &Signs,
    unit: &'a Unit,
) -> Result<(), AllocError>
    requires signs { AreSigns unit.now signs.now }
    requires seen { IsNameSet seen.old }
    ensures rows { OnOk result (found.new.items ≡ found.old.items ++ spec.new_rows (spec.head_row unit.now) (names_in seen.old) (named_dummies unit.now.dummies)) }
    ensures seen { OnOk result (spec.Sees seen.old seen.new (named_dummies unit.now.dummies)) }
{
    for dummy in unit.dummies.as_slice() {
        note_dummy(found, seen, unit, signs, dummy)?;
    }
    Ok(())
}

/// Adds the row of a name of a statement that has not stood before, and notes the name.
fn note_name<'a>(
    found: &mut Vec<Refusal>,
    seen: &mut NameSet<'a>,
    unit: &Unit,
    signs: &Signs,
    statement: &Stmt,
    name: &'a [u8],
) -> Result<(), AllocError>
    requires signs { AreSigns unit.now signs.now }
    requires seen { IsNameSet seen.old }
    ensures rows { OnOk result (found.new.items ≡ found.old.items ++ spec.new_rows (spec.row_at unit.now statement.now) (names_in seen.old) (name.now ∷ [])) }
    ensures seen { OnOk result (spec.Sees seen.old seen.new (name.now ∷ [])) }
{
    if seen.has(name) {
        return Ok(());
    }
    seen.add(name)?;
    add_name_row(found, unit, signs, statement, name)
}

/// Adds the rows of names that a statement uses.
fn note_uses<'a>(
    found: &mut Vec<Refusal>,
    seen: &mut NameSet<'a>,
    unit: &Unit,
    signs: &Signs,
    statement: &Stmt,
    uses: &[Use<'a>],
) -> Result<(), AllocError>
    requires signs { AreSigns unit.now signs.now }
    requires seen { IsNameSet seen.old }
    ensures rows { OnOk result (found.new.items ≡ found.old.items ++ spec.new_rows (spec.row_at unit.now statement.now) (names_in seen.old) (spec.use_names (used_in uses.now))) }
    ensures seen { OnOk result (spec.Sees seen.old seen.new (spec.use_names (used_in uses.now))) }
{
    for one in uses {
        note_name(found, seen, unit, signs, statement, one.name)?;
    }
    Ok(())
}

/// Adds the rows of the names that a statement uses and that have not stood before.
fn note_statement<'a>(
    alloc: Global,
    found: &mut Vec<Refusal>,
    seen: &mut NameSet<'a>,
    unit: &Unit,
    signs: &Signs,
    statement: &'a Stmt,
) -> Result<(), AllocError>
    requires signs { AreSigns unit.now signs.now }
    requires seen { IsNameSet seen.old }
    ensures rows { OnOk result (found.new.items ≡ found.old.items ++ spec.new_rows (spec.row_at unit.now statement.now) (names_in seen.old) (spec.statement_names unit.now statement.now)) }
    ensures seen { OnOk result (spec.Sees seen.old seen.new (spec.statement_names unit.now statement.now)) }
{
    let mut uses = Vec::new(alloc);
    add_statement_uses(alloc, &signs.arrays, &mut uses, &statement.body)?;
    note_uses(found, seen, unit, signs, statement, uses.as_slice())
}

/// Adds the rows of the names of statements that have not stood before.
fn note_statements<'a>(
    alloc: Global,
    found: &mut Vec<Refusal>,
    seen: &mut NameSet<'a>,
    signs: &Signs,
    unit: &'a Unit,
) -> Result<(), AllocError>
    requires signs { AreSigns unit.now signs.now }
    requires seen { IsNameSet seen.old }
    ensures { OnOk result (found.new.items ≡ found.old.items ++ spec.statements_rows unit.now (names_in seen.old) unit.now.statements) }
{
    for statement in unit.statements.as_slice() {
        note_statement(alloc, found, seen, unit, signs, statement)?;
    }
    Ok(())
}

/// Adds the row of the name of the unit, if it has one.
fn add_own_row(found: &mut Vec<Refusal>, unit: &Unit, signs: &Signs) -> Result<(), AllocError>
    requires { AreSigns unit.now signs.now }
    ensures { OnOk result (found.new.items ≡ found.old.items ++ spec.own_rows unit.now unit.now.name) }
{
    match &unit.name {
        Some(name) => add_head_row(found, unit, signs, name.as_slice()),
        None => Ok(()),
    }
}

/// Adds the rows of the names of a unit, each where it stands first.
pub(crate) fn add_names_rows(
    alloc: Global,
    found: &mut Vec<Refusal>,
    unit: &Unit,
    signs: &Signs,
) -> Result<(), AllocError>
    requires { AreSigns unit.now signs.now }
    ensures { OnOk result (found.new.items ≡ found.old.items ++ rows.undeclared_name_rows unit.now (all_names unit.now)) }
{
    let mut seen = NameSet::new(alloc);
    add_own_row(found, unit, signs)?;
    note_dummies(found, &mut seen, signs, unit)?;
    note_statements(alloc, found, &mut seen, signs, unit)
}
