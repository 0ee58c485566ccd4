//! The rows of a unit.

ghost use Rattle.std.specs.Prelude.{◌≡◌, None, List, ℕ, IfOk};
ghost use Rattle.name_facts.specs.declaration_rows.SetRows.{all_unit_rows};
ghost use Rattle.name_facts.specs.declaration_rows.Verdicts.{first_of};
ghost use Rattle.definition_judge.specs.KnownFunctions.{AreGiven};
ghost use Rattle.expression_judge.specs.SeenNames.{function_in};
ghost use Rattle.unit_judge.specs.UnitTables.{AreTables};

use crate::parts::{further_fault, own_fault};
use crate::tables::{Tables, unit_tables};
use definition_judge::given_names;
use expression_judge::Names;
use f_tree::{Options, Refusal, Unit};
use refusal_order::earlier_of;
use std::alloc::{AllocError, Global};

/// The first of the rows of declarations that a unit breaks, given its tables and what is given to its names.
fn fault_by_names<'a>(
    alloc: Global,
    options: Options,
    unit: &'a Unit,
    tables: &Tables,
    names: &mut Names<'a>,
) -> Result<Option<Refusal>, AllocError>
    requires tables { AreTables unit.now tables.now }
    requires names { AreGiven unit.now names.old }
    requires functions { (x : List ℕ) → function_in names.old x ≡ None }
    ensures { IfOk result (λ found. found ≡ first_of (all_unit_rows options unit.now)) }
{
    let own = own_fault(alloc, unit, tables, names)?;
    let further = further_fault(alloc, options, unit, tables, names)?;
    Ok(earlier_of(own, further))
}

/// The first of the rows of declarations that a unit breaks, given its tables.
fn fault_by_tables(
    alloc: Global,
    options: Options,
    unit: &Unit,
    tables: &Tables,
) -> Result<Option<Refusal>, AllocError>
    requires { AreTables unit.now tables.now }
    ensures { IfOk result (λ found. found ≡ first_of (all_unit_rows options unit.now)) }
{
    let mut names = given_names(alloc, unit, &tables.signs.arrays, &tables.facts)?;
    fault_by_names(alloc, options, unit, tables, &mut names)
}

/// The first of the rows of declarations that a unit breaks.
///
/// # Errors
///
/// Want of memory.
pub fn unit_fault(
    alloc: Global,
    options: Options,
    unit: &Unit,
) -> Result<Option<Refusal>, AllocError>
    ensures { IfOk result (λ found. found ≡ first_of (all_unit_rows options unit.now)) }
{
    let tables = unit_tables(alloc, unit)?;
    fault_by_tables(alloc, options, unit, &tables)
}
