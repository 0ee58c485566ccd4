//! The rows of what statements give to names (F22), each statement behind what is kept of those before. Section 18.2.
#![tactic(auto)]

ghost use Rattle.std.specs.Prelude.{◌≡◌, ◌++◌, [], OnOk, IfOk};
ghost use Rattle.f_tree.specs.Attributes.{arrays_of};
ghost use Rattle.declaration_rows.specs.GivenRows.{heading_rows, heading_givens, kept_from, given_rows_from};
ghost use Rattle.name_table.specs.Named.{names_in, IsNameSet};
ghost use Rattle.given_judge.specs.KeptSeen.{IsKept, IsJudged};

use crate::conditions::both;
use crate::gifts::Barred;
use crate::kept::keep_all;
use crate::statements::{add_heading_givens, add_statement_givens};
use crate::twice::{dummies_differ, entry_dummies_differ};
use f_tree::{Kind, Refusal, Stmt, Unit};
use found_rows::add_unless;
use name_places::{add_at, place_of};
use name_table::{NameSet, NameTable};
use std::alloc::{AllocError, Global};

/// Adds the row of what the first statement of a unit gives, and keeps what it gives.
fn add_heading_row<'a>(
    alloc: Global,
    found: &mut Vec<Refusal>,
    kept: &mut NameTable<'a, Barred>,
    unit: &'a Unit,
) -> Result<(), AllocError>
    requires { IsKept kept.old [] }
    ensures rows { OnOk result (found.new.items ≡ found.old.items ++ heading_rows unit.now) }
    ensures kept { OnOk result (IsKept kept.new (kept_from [] (heading_givens unit.now)).givens) }
{
    let mut givens = Vec::new(alloc);
    add_heading_givens(&mut givens, unit)?;
    let sound = keep_all(kept, givens.as_slice())?;
    let differ = dummies_differ(alloc, unit.dummies.as_slice())?;
    let place = place_of(unit, None);
    add_at(
        found,
        place,
        both(sound, differ),
        Kind::ConflictingAttributes,
    )
}

/// Adds the row of what a statement gives, and keeps what it gives.
fn add_statement_row<'a>(
    alloc: Global,
    found: &mut Vec<Refusal>,
    kept: &mut NameTable<'a, Barred>,
    unit: &Unit,
    arrays: &NameSet,
    statement: &'a Stmt,
) -> Result<(), AllocError>
    requires set { IsNameSet arrays.now }
    requires arrays { names_in arrays.now ≡ arrays_of unit.now }
    ensures { OnOk result (IsJudged unit.now statement.now kept.old kept.new found.old.items found.new.items) }
{
    let mut givens = Vec::new(alloc);
    add_statement_givens(&mut givens, unit, arrays, &statement.body)?;
    let sound = keep_all(kept, givens.as_slice())?;
    let differ = entry_dummies_differ(alloc, &statement.body)?;
    add_unless(
        found,
        statement,
        both(sound, differ),
        Kind::ConflictingAttributes,
    )
}

/// Adds the rows of what the statements of a unit give.
pub(crate) fn add_given_rows(
    alloc: Global,
    found: &mut Vec<Refusal>,
    unit: &Unit,
    arrays: &NameSet,
) -> Result<(), AllocError>
    requires set { IsNameSet arrays.now }
    requires arrays { names_in arrays.now ≡ arrays_of unit.now }
    ensures { OnOk result (found.new.items
        ≡ found.old.items ++ (heading_rows unit.now ++ given_rows_from unit.now (kept_from [] (heading_givens unit.now)).givens unit.now.statements)) }
{
    let mut kept = NameTable::new(alloc);
    add_heading_row(alloc, found, &mut kept, unit)?;
    for statement in unit.statements.as_slice() {
        add_statement_row(alloc, found, &mut kept, unit, arrays, statement)?;
    }
    Ok(())
}
