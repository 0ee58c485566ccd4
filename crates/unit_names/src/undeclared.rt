//! Names that are not declared where each name has to be (F21). Sections 4.1.2, 8.4 and 15.5.1, and MIL-STD-1753.
#![tactic(auto)]

ghost use Rattle.std.specs.Prelude.{◌≡◌, ◌++◌, IfOk, OnOk};
ghost use Rattle.std.specs.List.{list_any};
ghost use Rattle.f_tree.specs.declared.statements.Stmt as stmt;
ghost use Rattle.declaration_rows.specs.NameRows.{all_names};
ghost use Rattle.declaration_rows.specs.OrderRows.{is_implicit_none as is_none};
ghost use Rattle.declaration_rows.specs.UndeclaredRows as rows;
ghost use Rattle.declaration_rows.specs.Verdicts.{first_of};

use crate::definition_rows::add_definitions_rows;
use crate::name_rows::add_names_rows;
use f_tree::{Body, Options, Refusal, Stmt, Unit};
use found_rows::first_of;
use name_classes::unit_signs;
use std::alloc::{AllocError, Global};

/// Whether a statement is IMPLICIT NONE.
#[tactic(auto, using(crate::proofs::RowLemmas::implicit_none_forms))]
fn is_implicit_none(body: &Body) -> bool
    ensures { result ≡ is_none body.now }
{
    match body {
        Body::ImplicitNone => true,
        _ => false,
    }
}

/// Whether IMPLICIT NONE is among statements.
fn has_implicit_none(statements: &[Stmt]) -> bool
    ensures { result ≡ list_any (λ (s : stmt.Stmt). is_none s.body) statements.now }
{
    for statement in statements {
        if is_implicit_none(&statement.body) {
            return true;
        }
    }
    false
}

/// Whether each name of a unit has to be declared.
#[tactic(auto, unfolding(declaration_rows::specs::UndeclaredRows::declares_all))]
fn declares_all(options: Options, unit: &Unit) -> bool
    ensures { result ≡ rows.declares_all options unit.now }
{
    options.undeclared || has_implicit_none(unit.statements.as_slice())
}

/// Adds the rows of the names of a unit that are not declared.
fn add_undeclared_rows(
    alloc: Global,
    found: &mut Vec<Refusal>,
    unit: &Unit,
) -> Result<(), AllocError>
    ensures { OnOk result (found.new.items
        ≡ found.old.items ++ (rows.undeclared_name_rows unit.now (all_names unit.now) ++ rows.undeclared_definition_rows unit.now unit.now.statements)) }
{
    let signs = unit_signs(alloc, unit)?;
    add_names_rows(alloc, found, unit, &signs)?;
    add_definitions_rows(alloc, found, unit, &signs)
}

/// The first refusal of a unit by names that are not declared, where each name has to be: under `-u`, or with IMPLICIT NONE. An error where
/// memory ran out.
#[tactic(auto, unfolding(declaration_rows::specs::UndeclaredRows::unit_undeclared_rows))]
pub fn undeclared_fault(
    alloc: Global,
    options: Options,
    unit: &Unit,
) -> Result<Option<Refusal>, AllocError>
    ensures { IfOk result (λ found. found ≡ first_of (rows.unit_undeclared_rows options unit.now)) }
{
    let mut found = Vec::new(alloc);
    if declares_all(options, unit) {
        add_undeclared_rows(alloc, &mut found, unit)?;
    }
    Ok(first_of(found.as_slice()))
}
