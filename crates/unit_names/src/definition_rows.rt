//! The rows of the dummy arguments of statement functions that are not declared (F21). Sections 8.4 and 15.4.
#![tactic(auto)]

ghost use Rattle.std.specs.Prelude.{◌≡◌, ◌++◌, OnOk};
ghost use Rattle.f_tree.specs.Uses.{heading_of};
ghost use Rattle.f_tree.specs.Attributes.{arrays_of, definitions_in};
ghost use Rattle.declaration_rows.specs.NameRows.{stood};
ghost use Rattle.declaration_rows.specs.UndeclaredRows as rows;
ghost use Rattle.name_table.specs.Named.{texts};
ghost use Rattle.name_classes.specs.KnownSigns.{AreSigns};
ghost use Rattle.unit_names.specs.Undeclared as spec;

use crate::stands::is_declared;
use f_tree::{Body, Expr, Kind, Refusal, Stmt, Unit};
use found_rows::add_unless;
use name_classes::Signs;
use name_uses::assignments::{argument_names, defines_function};
use std::alloc::{AllocError, Global};

/// Adds the rows of the dummy arguments of the definition of a statement function.
fn add_dummies_rows(
    found: &mut Vec<Refusal>,
    unit: &Unit,
    signs: &Signs,
    statement: &Stmt,
    dummies: &[&[u8]],
) -> Result<(), AllocError>
    requires { AreSigns unit.now signs.now }
    ensures { OnOk result (found.new.items ≡ found.old.items ++ stood statement.now (rows.undeclared_dummies unit.now (texts dummies.now))) }
{
    for dummy in dummies {
        let is_declared = is_declared(unit, signs, dummy);
        add_unless(found, statement, is_declared, Kind::NameNotDeclared)?;
    }
    Ok(())
}

/// Adds the rows of the dummy arguments of the statement function that an assignment defines, if it defines one.
fn add_definition_rows(
    alloc: Global,
    found: &mut Vec<Refusal>,
    unit: &Unit,
    signs: &Signs,
    statement: &Stmt,
    target: &Expr,
) -> Result<(), AllocError>
    requires { AreSigns unit.now signs.now }
    ensures { OnOk result (found.new.items ≡ found.old.items ++ stood statement.now (spec.definition_rows unit.now (heading_of target.now))) }
{
    if !defines_function(&signs.arrays, target) {
        return Ok(());
    }
    let dummies = argument_names(alloc, target)?;
    add_dummies_rows(found, unit, signs, statement, dummies.as_slice())
}

/// Adds the rows of the dummy arguments of the statement function that a statement defines, if it defines one.
fn add_statement_rows(
    alloc: Global,
    found: &mut Vec<Refusal>,
    unit: &Unit,
    signs: &Signs,
    statement: &Stmt,
) -> Result<(), AllocError>
    requires { AreSigns unit.now signs.now }
    ensures { OnOk result (found.new.items
        ≡ found.old.items ++ stood statement.now (rows.undeclared_in_definitions unit.now (definitions_in (arrays_of unit.now) statement.now.body))) }
{
    match &statement.body {
        Body::Assign(target, _) => {
            add_definition_rows(alloc, found, unit, signs, statement, target)
        }
        _ => Ok(()),
    }
}

/// Adds the rows of the dummy arguments of statement functions.
pub(crate) fn add_definitions_rows(
    alloc: Global,
    found: &mut Vec<Refusal>,
    unit: &Unit,
    signs: &Signs,
) -> Result<(), AllocError>
    requires { AreSigns unit.now signs.now }
    ensures { OnOk result (found.new.items ≡ found.old.items ++ rows.undeclared_definition_rows unit.now unit.now.statements) }
{
    for statement in unit.statements.as_slice() {
        add_statement_rows(alloc, found, unit, signs, statement)?;
    }
    Ok(())
}
