//! The first of the rows of a unit, part by part.

ghost use Rattle.std.specs.Prelude.{◌≡◌, None, List, ℕ, IfOk};
ghost use Rattle.name_facts.specs.declaration_rows.NameRows.{known_in};
ghost use Rattle.name_facts.specs.declaration_rows.Verdicts.{first_of};
ghost use Rattle.definition_judge.specs.KnownFunctions.{AreGiven};
ghost use Rattle.expression_judge.specs.SeenNames.{function_in, AreSeen};
ghost use Rattle.f_tree.specs.declared.names.Options.{Options as GivenOptions};
ghost use Rattle.f_tree.specs.Lines.{unit_read};
ghost use Rattle.name_facts.specs.declaration_rows.BlockRows.{unit_block_rows};
ghost use Rattle.name_facts.specs.declaration_rows.UnitRows.{unit_rows};
ghost use Rattle.unit_judge.specs.UnitParts.{control_rows, declared_rows, executed_rows, expanded_rows, further_rows, placed_rows, used_rows};
ghost use Rattle.unit_judge.specs.UnitTables.{AreTables};

use crate::tables::Tables;
use block_judge::{block_fault, entry_sharing};
use definition_judge::definition_fault;
use expansion_judge::expansion_fault;
use expression_judge::Names;
use f_tree::{Options, Refusal, Unit};
use format_judge::format_fault;
use given_judge::given_fault;
use length_judge::length_fault;
use loop_ranges::crossing_fault;
use name_judge::name_fault;
use order_judge::structure_fault;
use reference_judge::reference_fault;
use refusal_order::earlier_of;
use statement_order::order_fault;
use statements_judge::statements_fault;
use std::alloc::{AllocError, Global};
use unit_names::undeclared_fault;

/// The first of the rows of the names of a unit and of the statement functions that it defines, given its tables and what its names are. Behind
/// it the table of names has all the functions of the unit. Sections 8, 15.4 and 18.
fn declared_fault<'a>(
    alloc: Global,
    unit: &'a Unit,
    tables: &Tables,
    names: &mut Names<'a>,
) -> Result<Option<Refusal>, AllocError>
    requires tables { AreTables unit.now tables.now }
    requires names { AreGiven unit.now names.old }
    requires functions { (x : List ℕ) → function_in names.old x ≡ None }
    ensures fault { IfOk result (λ found. found ≡ first_of (declared_rows unit.now)) }
    ensures names { IfOk result (λ found. AreSeen (known_in unit.now) names.new) }
{
    let named = name_fault(alloc, unit, &tables.signs, &tables.facts)?;
    let defined = definition_fault(alloc, unit, &tables.signs.arrays, &tables.types, names)?;
    Ok(earlier_of(named, defined))
}

/// The first of the rows of the labels of a unit, of its blocks and loops, and of its END. Sections 3.4, 3.5 and 11.
fn control_fault(alloc: Global, unit: &Unit) -> Result<Option<Refusal>, AllocError>
    ensures { IfOk result (λ found. (options : GivenOptions) → found ≡ first_of (control_rows unit.now (unit_read options unit.now))) }
{
    let structure = structure_fault(alloc, unit)?;
    let crossing = crossing_fault(alloc, unit)?;
    Ok(earlier_of(structure, crossing))
}

/// The first of the rows of the statements of a unit and of their control, given what is known of its names. Sections 10 to 13.
fn executed_fault(alloc: Global, unit: &Unit, names: &Names) -> Result<Option<Refusal>, AllocError>
    requires { AreSeen (known_in unit.now) names.now }
    ensures { IfOk result (λ found. (options : GivenOptions) → found ≡ first_of (executed_rows unit.now (unit_read options unit.now))) }
{
    let statements = statements_fault(alloc, unit, names)?;
    let control = control_fault(alloc, unit)?;
    Ok(earlier_of(statements, control))
}

/// The first of the rows of the branches of a unit into blocks and of its ENTRY statements. Sections 11 and 15.7.
fn blocks_fault(alloc: Global, unit: &Unit, tables: &Tables) -> Result<Option<Refusal>, AllocError>
    requires { AreTables unit.now tables.now }
    ensures { IfOk result (λ found. (options : GivenOptions) → found ≡ first_of (unit_block_rows unit.now (unit_read options unit.now))) }
{
    let shares = entry_sharing(alloc, unit, &tables.facts)?;
    block_fault(alloc, unit, shares.as_slice())
}

/// The first of the rows of names without a type, of the order of statements and of what stands in blocks. Sections 3.5, 11 and 15.7.
fn placed_fault(
    alloc: Global,
    options: Options,
    unit: &Unit,
    tables: &Tables,
) -> Result<Option<Refusal>, AllocError>
    requires { AreTables unit.now tables.now }
    ensures { IfOk result (λ found. found ≡ first_of (placed_rows options unit.now)) }
{
    let undeclared = undeclared_fault(alloc, options, unit)?;
    let order = order_fault(alloc, unit)?;
    let blocks = blocks_fault(alloc, unit, tables)?;
    let later = earlier_of(order, blocks);
    Ok(earlier_of(undeclared, later))
}

/// The first of the rows of the formats of a unit, of its references and of lengths, given what is known of its names, which stays known.
/// Sections 5.7, 13 and 15.
fn used_fault<'a>(
    alloc: Global,
    unit: &'a Unit,
    tables: &Tables,
    names: &mut Names<'a>,
) -> Result<Option<Refusal>, AllocError>
    requires tables { AreTables unit.now tables.now }
    requires names { AreSeen (known_in unit.now) names.old }
    ensures fault { IfOk result (λ found. found ≡ first_of (used_rows unit.now)) }
    ensures names { IfOk result (λ found. AreSeen (known_in unit.now) names.new) }
{
    let format = format_fault(alloc, unit, names)?;
    let reference = reference_fault(alloc, unit, &tables.signs, &tables.types, names)?;
    let length = length_fault(alloc, unit, &tables.types, &tables.facts)?;
    let later = earlier_of(reference, length);
    Ok(earlier_of(format, later))
}

/// The first of the rows of statement functions that expand to too much, and of what is given to names. Sections 8, 9 and 15.4.
fn expanded_fault(alloc: Global, unit: &Unit, names: &Names) -> Result<Option<Refusal>, AllocError>
    requires { AreSeen (known_in unit.now) names.now }
    ensures { IfOk result (λ found. found ≡ first_of (expanded_rows unit.now)) }
{
    let expansion = expansion_fault(alloc, unit)?;
    let given = given_fault(alloc, unit, names)?;
    Ok(earlier_of(expansion, given))
}

/// The first of the rows without which a unit is well formed, given its tables and what is given to its names. Behind it the table of names has all
/// the functions of the unit.
pub(crate) fn own_fault<'a>(
    alloc: Global,
    unit: &'a Unit,
    tables: &Tables,
    names: &mut Names<'a>,
) -> Result<Option<Refusal>, AllocError>
    requires tables { AreTables unit.now tables.now }
    requires names { AreGiven unit.now names.old }
    requires functions { (x : List ℕ) → function_in names.old x ≡ None }
    ensures fault { IfOk result (λ found. (options : GivenOptions) → found ≡ first_of (unit_rows options unit.now)) }
    ensures names { IfOk result (λ found. AreSeen (known_in unit.now) names.new) }
{
    let declared = declared_fault(alloc, unit, tables, names)?;
    let executed = executed_fault(alloc, unit, names)?;
    Ok(earlier_of(declared, executed))
}

/// The first of the rows that the standard asks for besides, given the tables of a unit and what is known of its names.
pub(crate) fn further_fault<'a>(
    alloc: Global,
    options: Options,
    unit: &'a Unit,
    tables: &Tables,
    names: &mut Names<'a>,
) -> Result<Option<Refusal>, AllocError>
    requires tables { AreTables unit.now tables.now }
    requires names { AreSeen (known_in unit.now) names.old }
    ensures { IfOk result (λ found. found ≡ first_of (further_rows options unit.now)) }
{
    let placed = placed_fault(alloc, options, unit, tables)?;
    let used = used_fault(alloc, unit, tables, names)?;
    let expanded = expanded_fault(alloc, unit, names)?;
    let later = earlier_of(used, expanded);
    Ok(earlier_of(placed, later))
}
