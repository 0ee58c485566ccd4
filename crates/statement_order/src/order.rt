//! The order of the statements of a unit (F25) and definitions of statement functions that come too late (F40). Sections 3.5, 8.5, 8.6,
//! 15.4, 15.8 and 16. Each statement is looked at once, with what is kept of those before it.
#![tactic(auto)]

ghost use Rattle.std.specs.Prelude.{◌≡◌, ◌++◌, ℕ, List, [], OnOk, IfOk};
ghost use Rattle.f_tree.specs.declared.statements.Stmt as stmt;
ghost use Rattle.f_tree.specs.Attributes.{arrays_of};
ghost use Rattle.declaration_rows.specs.Verdicts.{first_of};
ghost use Rattle.declaration_rows.specs.OrderRows.{rank_of, unit_order_rows};
ghost use Rattle.name_table.specs.Named.{names_in, IsNameSet};
ghost use Rattle.statement_order.specs.BeforeSteps.{AreBefore};
ghost use Rattle.statement_order.specs.OrderSteps.{rank_in, stage_in};
ghost use Rattle.statement_order.specs.RowSteps.{rows_at};

use crate::before::{Before, defines_used, is_second_implicit, note_statement, types_constant};
use crate::forms::kind_row;
use crate::ranks::{Rank, Stage, order_row, rank_of, stage_behind};
use f_tree::{Kind, Refusal, Stmt, Unit, UnitKind};
use found_rows::{add_option, add_unless, first_of};
use name_table::NameSet;
use name_uses::array_set;
use std::alloc::{AllocError, Global};

/// Adds the rows of a statement behind those before it.
fn add_statement_rows(
    found: &mut Vec<Refusal>,
    kind: &UnitKind,
    stage: Stage,
    rank: Rank,
    before: &Before,
    statement: &Stmt,
) -> Result<(), AllocError>
    requires constants { IsNameSet before.now.constants }
    requires used { IsNameSet before.now.used }
    ensures { OnOk result ((arrays : List (List ℕ)) → (ss : List stmt.Stmt) → AreBefore arrays before.now ss → rank_in rank ≡ rank_of arrays statement.now.body
        → found.new.items ≡ found.old.items ++ rows_at kind.now arrays (stage_in stage) ss statement.now) }
{
    let first_implicit = !is_second_implicit(before, &statement.body);
    let untyped = !types_constant(before, &statement.body);
    let unused = !defines_used(&before.used, &statement.body);
    add_option(found, statement, order_row(stage, rank))?;
    add_unless(found, statement, first_implicit, Kind::StatementOutOfOrder)?;
    add_unless(found, statement, untyped, Kind::StatementOutOfOrder)?;
    add_unless(found, statement, unused, Kind::StatementOutOfOrder)?;
    add_option(found, statement, kind_row(kind, &statement.body))
}

/// Nothing is known before the first statement.
fn nothing_before<'a>(alloc: Global) -> Before<'a>
    ensures { (arrays : List (List ℕ)) → AreBefore arrays result [] }
{
    Before {
        has_none: false,
        has_implicit: false,
        constants: NameSet::new(alloc),
        letters: Vec::new(alloc),
        used: NameSet::new(alloc),
    }
}

/// Adds the rows of the statements of a unit.
fn add_order_rows(
    alloc: Global,
    found: &mut Vec<Refusal>,
    arrays: &NameSet,
    unit: &Unit,
) -> Result<(), AllocError>
    requires is_set { IsNameSet arrays.now }
    requires arrays { names_in arrays.now ≡ arrays_of unit.now }
    ensures { OnOk result (found.new.items ≡ found.old.items ++ unit_order_rows unit.now) }
{
    let mut before = nothing_before(alloc);
    let mut stage = Stage::AtImplicits;
    for statement in unit.statements.as_slice() {
        let rank = rank_of(arrays, &statement.body);
        add_statement_rows(found, &unit.kind, stage, rank, &before, statement)?;
        note_statement(alloc, arrays, &mut before, statement)?;
        stage = stage_behind(stage, rank);
    }
    Ok(())
}

/// The first refusal of a unit by the order of its statements. An error where memory ran out.
pub fn order_fault(alloc: Global, unit: &Unit) -> Result<Option<Refusal>, AllocError>
    ensures { IfOk result (λ found. found ≡ first_of (unit_order_rows unit.now)) }
{
    let arrays = array_set(alloc, unit)?;
    let mut found = Vec::new(alloc);
    add_order_rows(alloc, &mut found, &arrays, unit)?;
    Ok(first_of(found.as_slice()))
}
