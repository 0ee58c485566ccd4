//! The first refusal of a unit by references of statement functions that expand to too much (F40). Section 15.4.
#![tactic(auto)]

ghost use Rattle.std.specs.Prelude.{◌≡◌, ◌++◌, OnOk, IfOk};
ghost use Rattle.declaration_rows.specs.ExpansionRows.{unit_expansion_rows};
ghost use Rattle.declaration_rows.specs.Verdicts.{first_of};
ghost use Rattle.statement_parts.specs.TreesSeen.{trees};
ghost use Rattle.expansion_judge.specs.NodesCounted as spec;

use crate::counts::count_nodes;
use crate::functions::function_table;
use f_tree::{Expr, Kind, Refusal, Stmt, Unit};
use found_rows::{add_unless, first_of};
use name_table::NameTable;
use name_uses::array_set;
use statement_parts::add_expressions;
use std::alloc::{AllocError, Global};

/// Whether a reference in some expressions expands to too many nodes.
#[tactic(auto, unfolding(crate::specs::NodesCounted::any_past))]
fn any_past(functions: &NameTable<usize>, es: &[&Expr]) -> bool
    ensures { result ≡ spec.any_past functions.now (trees es.now) }
{
    match es {
        [first, rest @ ..] => count_nodes(functions, first).past || any_past(functions, rest),
        [] => false,
    }
}

/// Adds the row of a statement.
#[tactic(auto, unfolding(crate::specs::NodesCounted::statement_rows))]
fn add_statement_row(
    alloc: Global,
    found: &mut Vec<Refusal>,
    functions: &NameTable<usize>,
    statement: &Stmt,
) -> Result<(), AllocError>
    ensures { OnOk result (found.new.items ≡ found.old.items ++ spec.statement_rows functions.now statement.now) }
{
    let mut es = Vec::new(alloc);
    add_expressions(&mut es, &statement.body)?;
    let past = any_past(functions, es.as_slice());
    add_unless(found, statement, !past, Kind::BadStatementFunction)
}

/// Adds the rows of statements.
fn add_rows(
    alloc: Global,
    found: &mut Vec<Refusal>,
    functions: &NameTable<usize>,
    statements: &[Stmt],
) -> Result<(), AllocError>
    ensures { OnOk result (found.new.items ≡ found.old.items ++ spec.rows_by functions.now statements.now) }
{
    for statement in statements {
        add_statement_row(alloc, found, functions, statement)?;
    }
    Ok(())
}

/// The first refusal of a unit by references of statement functions that expand to too much (F40). An error where memory ran out. Section 15.4.
pub fn expansion_fault(alloc: Global, unit: &Unit) -> Result<Option<Refusal>, AllocError>
    ensures { IfOk result (λ found. found ≡ first_of (unit_expansion_rows unit.now)) }
{
    let arrays = array_set(alloc, unit)?;
    let functions = function_table(alloc, &arrays, unit.statements.as_slice())?;
    let mut found = Vec::new(alloc);
    add_rows(alloc, &mut found, &functions, unit.statements.as_slice())?;
    Ok(first_of(found.as_slice()))
}
