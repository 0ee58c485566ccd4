//! The references of statements. In the definition of a statement function its dummy arguments are known. Section 15.4.
#![tactic(auto)]

ghost use Rattle.std.specs.Prelude.{◌≡◌, ◌++◌, OnOk, IfOk, map, option_copied};
ghost use Rattle.declaration_rows.specs.NameRows.{known_in};
ghost use Rattle.declaration_rows.specs.ReferenceRows.{parts_of, references_of_statement};
ghost use Rattle.declared_types.specs.TypeTables.{AreTypes};
ghost use Rattle.expression_judge.specs.SeenNames.{AreSeen};
ghost use Rattle.f_tree.specs.Attributes.{arrays_of};
ghost use Rattle.f_tree.specs.Uses.{heading_of};
ghost use Rattle.name_table.specs.Named.{names_in, IsNameSet};
ghost use Rattle.statement_parts.specs.TreesSeen.{trees};
ghost use Rattle.reference_judge.specs.ArgumentsSeen.{all_references, sight_by};
ghost use Rattle.reference_judge.specs.KnownBindings.{known_with, references_known, defined_target};
ghost use Rattle.reference_judge.specs.ReferencesSeen.{located, located_from, at, call_references, references_by};

use crate::bindings::{bound_dummies, exchange};
use crate::references::{Reference, add_reference, add_references};
use declared_types::Types;
use expression_judge::Names;
use f_tree::{Body, Expr, Stmt, Unit};
use name_table::NameSet;
use name_uses::assignments::{argument_names, defines_function};
use statement_parts::{add_expressions, call_part};
use std::alloc::{AllocError, Global};

/// Adds the references in expressions.
fn add_each<'a>(
    alloc: Global,
    names: &Names,
    es: &[&'a Expr],
    statement: &'a Stmt,
    references: &mut Vec<Reference<'a>>,
) -> Result<(), AllocError>
    ensures { OnOk result (located references.new.items
        ≡ located references.old.items ++ at statement.now (all_references (map (sight_by names.now) (trees es.now)))) }
{
    for e in es {
        add_references(alloc, names, e, statement, references)?;
    }
    Ok(())
}

/// Adds the reference that CALL makes, if the statement is one.
fn add_call<'a>(
    alloc: Global,
    names: &Names,
    statement: &'a Stmt,
    references: &mut Vec<Reference<'a>>,
) -> Result<(), AllocError>
    ensures { OnOk result (located references.new.items
        ≡ located references.old.items ++ at statement.now (call_references names.now (parts_of statement.now.body).call)) }
{
    match call_part(&statement.body) {
        Some(call) => add_reference(
            alloc,
            names,
            call.name,
            call.arguments,
            statement,
            references,
        ),
        None => Ok(()),
    }
}

/// Adds the references of a statement by what is known of the names in it.
fn add_known<'a>(
    alloc: Global,
    names: &Names,
    statement: &'a Stmt,
    references: &mut Vec<Reference<'a>>,
) -> Result<(), AllocError>
    ensures { OnOk result (located references.new.items
        ≡ located references.old.items ++ at statement.now (references_by names.now statement.now.body)) }
{
    let mut es = Vec::new(alloc);
    add_expressions(&mut es, &statement.body)?;
    add_each(alloc, names, es.as_slice(), statement, references)?;
    add_call(alloc, names, statement, references)
}

/// Adds the references in the definition of a statement function.
fn add_definition<'a>(
    alloc: Global,
    unit: &Unit,
    types: &Types,
    names: &mut Names<'a>,
    target: &'a Expr,
    statement: &'a Stmt,
    references: &mut Vec<Reference<'a>>,
) -> Result<(), AllocError>
    requires types { AreTypes unit.now types.now }
    requires names { AreSeen (known_in unit.now) names.old }
    ensures references { OnOk result (located references.new.items
        ≡ located references.old.items ++ at statement.now (references_known (known_with unit.now (heading_of target.now).arguments) statement.now.body)) }
    ensures names { OnOk result (AreSeen (known_in unit.now) names.new) }
{
    let dummies = argument_names(alloc, target)?;
    let mut bound = bound_dummies(alloc, unit, types, dummies.as_slice())?;
    exchange(&mut names.dummies, &mut bound);
    add_known(alloc, names, statement, references)?;
    exchange(&mut names.dummies, &mut bound);
    Ok(())
}

/// The target of the assignment that defines a statement function, if the statement is one.
fn defined_target<'a>(arrays: &NameSet, body: &'a Body) -> Option<&'a Expr>
    requires { IsNameSet arrays.now }
    ensures { option_copied result ≡ defined_target (names_in arrays.now) body.now }
{
    match body {
        Body::Assign(target, _) => {
            if defines_function(arrays, target) {
                Some(target)
            } else {
                None
            }
        }
        _ => None,
    }
}

/// Adds the references of a statement.
fn add_statement<'a>(
    alloc: Global,
    unit: &Unit,
    arrays: &NameSet,
    types: &Types,
    names: &mut Names<'a>,
    statement: &'a Stmt,
    references: &mut Vec<Reference<'a>>,
) -> Result<(), AllocError>
    requires is_set { IsNameSet arrays.now }
    requires arrays { names_in arrays.now ≡ arrays_of unit.now }
    requires types { AreTypes unit.now types.now }
    requires names { AreSeen (known_in unit.now) names.old }
    ensures references { OnOk result (located references.new.items
        ≡ located references.old.items ++ at statement.now (references_of_statement unit.now statement.now.body)) }
    ensures names { OnOk result (AreSeen (known_in unit.now) names.new) }
{
    match defined_target(arrays, &statement.body) {
        Some(target) => add_definition(alloc, unit, types, names, target, statement, references),
        None => add_known(alloc, names, statement, references),
    }
}

/// Adds the references of statements.
fn add_statements<'a>(
    alloc: Global,
    unit: &Unit,
    arrays: &NameSet,
    types: &Types,
    names: &mut Names<'a>,
    statements: &'a [Stmt],
    references: &mut Vec<Reference<'a>>,
) -> Result<(), AllocError>
    requires is_set { IsNameSet arrays.now }
    requires arrays { names_in arrays.now ≡ arrays_of unit.now }
    requires types { AreTypes unit.now types.now }
    requires names { AreSeen (known_in unit.now) names.old }
    ensures references { OnOk result (located references.new.items ≡ located references.old.items ++ located_from unit.now statements.now) }
    ensures names { OnOk result (AreSeen (known_in unit.now) names.new) }
{
    for statement in statements {
        add_statement(alloc, unit, arrays, types, names, statement, references)?;
    }
    Ok(())
}

/// The references of a unit, in the order in which they are written. An error where memory ran out.
pub(crate) fn unit_references<'a>(
    alloc: Global,
    unit: &'a Unit,
    arrays: &NameSet,
    types: &Types,
    names: &mut Names<'a>,
) -> Result<Vec<Reference<'a>>, AllocError>
    requires is_set { IsNameSet arrays.now }
    requires arrays { names_in arrays.now ≡ arrays_of unit.now }
    requires types { AreTypes unit.now types.now }
    requires names { AreSeen (known_in unit.now) names.old }
    ensures references { IfOk result (λ references. located references.items ≡ located_from unit.now unit.now.statements) }
    ensures names { OnOk result (AreSeen (known_in unit.now) names.new) }
{
    let mut references = Vec::new(alloc);
    let statements = unit.statements.as_slice();
    add_statements(
        alloc,
        unit,
        arrays,
        types,
        names,
        statements,
        &mut references,
    )?;
    Ok(references)
}
