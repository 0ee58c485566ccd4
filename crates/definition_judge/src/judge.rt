//! The first refusal of the definitions of statement functions of a unit.
#![tactic(auto)]

ghost use Rattle.std.specs.Prelude.{◌≡◌, None, [], IfOk, List, ℕ};
ghost use Rattle.declared_types.specs.TypeTables.{AreTypes};
ghost use Rattle.declaration_rows.specs.NameRows.{given_names, own_attributes, known_in, defined_rows};
ghost use Rattle.declaration_rows.specs.Verdicts.{first_of};
ghost use Rattle.expression_judge.specs.SeenNames.{function_in, AreSeen};
ghost use Rattle.f_tree.specs.Attributes.{arrays_of, definitions_in};
ghost use Rattle.name_table.specs.Named.{names_in, IsNameSet};
ghost use Rattle.definition_judge.specs.KnownFunctions as spec;

use crate::definition::judge_definition;
use declared_types::Types;
use expression_judge::Names;
use f_tree::{Body, Expr, Kind, Refusal, Stmt, Unit};
use name_table::NameSet;
use name_uses::assignments::{applied_name, argument_names, defines_function};
use refusal_order::{earlier_of, refused_at};
use std::alloc::{AllocError, Global};

/// The least row of an assignment that defines a statement function; none of another one.
fn judge_assignment<'a>(
    alloc: Global,
    unit: &Unit,
    arrays: &NameSet,
    types: &Types,
    names: &mut Names<'a>,
    target: &'a Expr,
    value: &Expr,
) -> Result<Option<Kind>, AllocError>
    requires is_set { IsNameSet arrays.now }
    requires arrays { names_in arrays.now ≡ arrays_of unit.now }
    requires types { AreTypes unit.now types.now }
    requires names { spec.AreGiven unit.now names.old }
    ensures { IfOk result (λ fault. spec.JudgesStatement unit.now names.old names.new (spec.definitions_by unit.now target.now value.now) fault) }
{
    if !defines_function(arrays, target) {
        return Ok(None);
    }
    let Some(name) = applied_name(target) else {
        return Ok(None);
    };
    let dummies = argument_names(alloc, target)?;
    judge_definition(alloc, unit, types, names, name, dummies.as_slice(), value)
}

/// The least row of a statement that defines a statement function; none of another one.
fn judge_statement<'a>(
    alloc: Global,
    unit: &Unit,
    arrays: &NameSet,
    types: &Types,
    names: &mut Names<'a>,
    body: &'a Body,
) -> Result<Option<Kind>, AllocError>
    requires is_set { IsNameSet arrays.now }
    requires arrays { names_in arrays.now ≡ arrays_of unit.now }
    requires types { AreTypes unit.now types.now }
    requires names { spec.AreGiven unit.now names.old }
    ensures { IfOk result (λ fault. spec.JudgesStatement unit.now names.old names.new (definitions_in (arrays_of unit.now) body.now) fault) }
{
    match body {
        Body::Assign(target, value) => {
            judge_assignment(alloc, unit, arrays, types, names, target, value)
        }
        _ => Ok(None),
    }
}

/// The first refusal of statements by the statement functions that they define.
fn judge_statements<'a>(
    alloc: Global,
    unit: &Unit,
    arrays: &NameSet,
    types: &Types,
    names: &mut Names<'a>,
    statements: &'a [Stmt],
) -> Result<Option<Refusal>, AllocError>
    requires is_set { IsNameSet arrays.now }
    requires arrays { names_in arrays.now ≡ arrays_of unit.now }
    requires types { AreTypes unit.now types.now }
    requires names { spec.AreGiven unit.now names.old }
    requires functions { spec.AreFunctions names.old [] }
    ensures { IfOk result (λ found. spec.JudgesStatements unit.now statements.now names.new found) }
{
    let mut found = None;
    for statement in statements {
        let fault = judge_statement(alloc, unit, arrays, types, names, &statement.body)?;
        found = earlier_of(found, refused_at(statement.file, statement.card, fault));
    }
    Ok(found)
}

/// The first refusal of a unit by the statement functions that it defines, given its arrays (`name_uses::array_set`), its types
/// (`declared_types::unit_types`) and what its names are (`given_names`). Behind it the table of names has all the functions of the unit. An
/// error where memory ran out.
pub fn definition_fault<'a>(
    alloc: Global,
    unit: &'a Unit,
    arrays: &NameSet,
    types: &Types,
    names: &mut Names<'a>,
) -> Result<Option<Refusal>, AllocError>
    requires is_set { IsNameSet arrays.now }
    requires arrays { names_in arrays.now ≡ arrays_of unit.now }
    requires types { AreTypes unit.now types.now }
    requires names { spec.AreGiven unit.now names.old }
    requires functions { (x : List ℕ) → function_in names.old x ≡ None }
    ensures fault { IfOk result (λ found. found
        ≡ first_of (defined_rows (given_names unit.now) (own_attributes unit.now) (arrays_of unit.now) [] [] unit.now.statements)) }
    ensures names { IfOk result (λ found. AreSeen (known_in unit.now) names.new) }
{
    let found = judge_statements(
        alloc,
        unit,
        arrays,
        types,
        names,
        unit.statements.as_slice(),
    )?;
    names.dummies.clear();
    Ok(found)
}
