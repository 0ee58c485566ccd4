//! The first refusal of the COMMON and EQUIVALENCE statements of a unit.

ghost use Rattle.std.specs.Prelude.{◌≡◌, [], IfOk};
ghost use Rattle.f_tree.specs.declared.names.Options.{Options};
ghost use Rattle.declaration_rows.specs.NameRows.{given_names};
ghost use Rattle.declaration_rows.specs.PlacingRows.{placing_rows_from};
ghost use Rattle.declaration_rows.specs.Verdicts.{first_of};
ghost use Rattle.name_facts.specs.GivenFacts.{AreNameFacts};
ghost use Rattle.placing_judge.specs.Walked.{AreUnitTies, facts_of, ArePlacingRows, AreSettledRows};

use crate::faults::{Fault, fault_at, next_fault};
use crate::rows::add_rows;
use crate::ties::StatementTies;
use f_tree::{Kind, Refusal, Unit};
use found_rows::{add_unless, first_of};
use name_facts::NameFacts;
use std::alloc::{AllocError, Global};

/// The rows of a unit, front by front.
fn rows<'a>(
    alloc: Global,
    unit: &'a Unit,
    facts: &NameFacts,
    ties: &[StatementTies<'a>],
) -> Result<Vec<Refusal>, AllocError>
    requires facts { AreNameFacts unit.now facts.now }
    requires ties { AreUnitTies unit.now ties.now }
    ensures { IfOk result (λ found. ArePlacingRows unit.now found.items) }
{
    let mut found = Vec::new(alloc);
    let mut before = Fault::Nothing;
    let statements = unit.statements.as_slice();
    for (at, statement) in statements.iter().enumerate() {
        let now = next_fault(alloc, unit, facts, ties, at, before)?;
        add_rows(&mut found, statement, ties[at].settled, before, now)?;
        before = now;
    }
    Ok(found)
}

/// The rows of the EQUIVALENCE places of a unit alone.
fn settled_rows(
    alloc: Global,
    unit: &Unit,
    ties: &[StatementTies],
) -> Result<Vec<Refusal>, AllocError>
    requires { AreUnitTies unit.now ties.now }
    ensures { IfOk result (λ found. AreSettledRows unit.now found.items) }
{
    let mut found = Vec::new(alloc);
    let statements = unit.statements.as_slice();
    for (at, statement) in statements.iter().enumerate() {
        add_unless(
            &mut found,
            statement,
            ties[at].settled,
            Kind::EquivalenceContradiction,
        )?;
    }
    Ok(found)
}

/// All rows of a unit: where all its statements together have no fault, those of its EQUIVALENCE places alone.
fn all_rows<'a>(
    alloc: Global,
    unit: &'a Unit,
    facts: &NameFacts,
    ties: &[StatementTies<'a>],
) -> Result<Vec<Refusal>, AllocError>
    requires facts { AreNameFacts unit.now facts.now }
    requires ties { AreUnitTies unit.now ties.now }
    ensures { IfOk result (λ found. ArePlacingRows unit.now found.items) }
{
    let statements = unit.statements.as_slice();
    match fault_at(alloc, unit, facts, ties, statements.len())? {
        Fault::Nothing => settled_rows(alloc, unit, ties),
        Fault::JoinedOrExtended | Fault::Contradicted => rows(alloc, unit, facts, ties),
    }
}

/// The first refusal of the COMMON and EQUIVALENCE statements of a unit (F35, F36), given what its names are, and what its EQUIVALENCE statements
/// say, one after another. Sections 8.2 and 8.3.
///
/// # Errors
///
/// Want of memory, or storage of more units than a number has room for.
pub fn placing_fault<'a>(
    alloc: Global,
    unit: &'a Unit,
    facts: &NameFacts,
    ties: &[StatementTies<'a>],
) -> Result<Option<Refusal>, AllocError>
    requires facts { AreNameFacts unit.now facts.now }
    requires ties { AreUnitTies unit.now ties.now }
    ensures { IfOk result (λ found. (options : Options) → found
        ≡ first_of (placing_rows_from (facts_of options unit.now) (given_names unit.now) [] unit.now.statements)) }
{
    let found = all_rows(alloc, unit, facts, ties)?;
    Ok(first_of(found.as_slice()))
}
