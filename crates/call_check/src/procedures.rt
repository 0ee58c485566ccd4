//! The shapes of the procedures of a set. Sections 15.5.1, 15.6.1 and 15.7.
#![tactic(auto)]

ghost use Rattle.std.specs.Prelude.{◌≡◌, ◌++◌, OnOk, IfOk};
ghost use Rattle.f_tree.specs.Attributes.{from_all};
ghost use Rattle.call_shapes.specs.declaration_rows.GlobalRows.{all_units};
ghost use Rattle.call_shapes.specs.ProcedureShapes.{shaped, unit_procedures, procedures_of};
ghost use Rattle.call_check.specs.ProceduresSeen as seen;

use crate::arguments::dummy_arguments;
use crate::known::known_names;
use call_shapes::{Argument, NamedShape, Shape, ShapeResult};
use expression_judge::Names;
use f_tree::{Basic, Body, DummyArgument, File, Stmt, Text, Unit, UnitKind};
use plain_data::Items;
use std::alloc::{AllocError, Global};

/// What a procedure of a unit gives, by the type of its name. A main program and block data are not called.
#[tactic(auto, unfolding(crate::specs::ProceduresSeen::result_by_kind))]
fn result_by_kind(kind: &UnitKind, basic: Basic) -> Option<ShapeResult>
    ensures { result ≡ seen.result_by_kind kind.now basic }
{
    match kind {
        UnitKind::Main | UnitKind::BlockData => None,
        UnitKind::Subroutine => Some(ShapeResult::Subroutine),
        UnitKind::Function(_) => Some(ShapeResult::Function(basic)),
    }
}

/// Adds the shape of a procedure, if it is called at all.
#[tactic(auto, unfolding(call_shapes::specs::ProcedureShapes::shaped))]
fn add_shape(
    alloc: Global,
    name: &[u8],
    arguments: Items<Argument>,
    given: Option<ShapeResult>,
    shapes: &mut Vec<NamedShape>,
) -> Result<(), AllocError>
    ensures { OnOk result (shapes.new.items ≡ shapes.old.items ++ shaped name.now arguments given) }
{
    let Some(gives) = given else {
        return Ok(());
    };
    let name = Items::from_slice(alloc, name)?;
    let shape = Shape {
        result: gives,
        arguments,
    };
    shapes.push(NamedShape { name, shape })?;
    Ok(())
}

/// Adds the shape of a procedure of a unit with these dummy arguments.
#[tactic(auto, unfolding(crate::specs::ProceduresSeen::seen_procedure))]
fn add_procedure(
    alloc: Global,
    names: &Names,
    kind: &UnitKind,
    name: &[u8],
    dummies: &[DummyArgument],
    shapes: &mut Vec<NamedShape>,
) -> Result<(), AllocError>
    ensures { OnOk result (shapes.new.items ≡ shapes.old.items ++ seen.seen_procedure names.now kind.now name.now dummies.now) }
{
    let arguments = dummy_arguments(alloc, names, dummies)?;
    let given = result_by_kind(kind, names.fact(name).basic);
    add_shape(alloc, name, arguments, given, shapes)
}

/// Adds the shape of the procedure that a unit is, if it has a name.
#[tactic(auto, unfolding(crate::specs::ProceduresSeen::seen_own))]
fn add_own(
    alloc: Global,
    names: &Names,
    kind: &UnitKind,
    dummies: &[DummyArgument],
    name: &Option<Text>,
    shapes: &mut Vec<NamedShape>,
) -> Result<(), AllocError>
    ensures { OnOk result (shapes.new.items ≡ shapes.old.items ++ seen.seen_own names.now kind.now dummies.now name.now) }
{
    match name {
        Some(name) => add_procedure(alloc, names, kind, name.as_slice(), dummies, shapes),
        None => Ok(()),
    }
}

/// Adds the shape of an entry, if the statement is an ENTRY statement.
#[tactic(auto, unfolding(crate::specs::ProceduresSeen::seen_entry, f_tree::specs::Folds::layer_of))]
fn add_entry(
    alloc: Global,
    names: &Names,
    kind: &UnitKind,
    body: &Body,
    shapes: &mut Vec<NamedShape>,
) -> Result<(), AllocError>
    ensures { OnOk result (shapes.new.items ≡ shapes.old.items ++ seen.seen_entry names.now kind.now body.now) }
{
    match body {
        Body::Entry(name, dummies) => add_procedure(
            alloc,
            names,
            kind,
            name.as_slice(),
            dummies.as_slice(),
            shapes,
        ),
        _ => Ok(()),
    }
}

/// Adds the shapes of the entries among statements.
fn add_entries(
    alloc: Global,
    names: &Names,
    kind: &UnitKind,
    statements: &[Stmt],
    shapes: &mut Vec<NamedShape>,
) -> Result<(), AllocError>
    ensures { OnOk result (shapes.new.items ≡ shapes.old.items ++ from_all (seen.seen_entry names.now kind.now) statements.now) }
{
    for statement in statements {
        add_entry(alloc, names, kind, &statement.body, shapes)?;
    }
    Ok(())
}

/// Adds the shapes of the procedures of a unit, given what is known of its names.
#[tactic(auto, unfolding(crate::specs::ProceduresSeen::seen_procedures))]
fn add_seen(
    alloc: Global,
    names: &Names,
    unit: &Unit,
    shapes: &mut Vec<NamedShape>,
) -> Result<(), AllocError>
    ensures { OnOk result (shapes.new.items ≡ shapes.old.items ++ seen.seen_procedures names.now unit.now) }
{
    let dummies = unit.dummies.as_slice();
    add_own(alloc, names, &unit.kind, dummies, &unit.name, shapes)?;
    add_entries(alloc, names, &unit.kind, unit.statements.as_slice(), shapes)
}

/// Adds the shapes of the procedures of a unit.
fn add_unit(alloc: Global, unit: &Unit, shapes: &mut Vec<NamedShape>) -> Result<(), AllocError>
    ensures { OnOk result (shapes.new.items ≡ shapes.old.items ++ unit_procedures unit.now) }
{
    let known = known_names(alloc, unit)?;
    add_seen(alloc, &known.names, unit, shapes)
}

/// Adds the shapes of the procedures of some units.
fn add_units(alloc: Global, units: &[Unit], shapes: &mut Vec<NamedShape>) -> Result<(), AllocError>
    ensures { OnOk result (shapes.new.items ≡ shapes.old.items ++ procedures_of units.now) }
{
    for unit in units {
        add_unit(alloc, unit, shapes)?;
    }
    Ok(())
}

/// The shapes of the procedures of some files, in their order. An error where memory ran out.
pub(crate) fn procedures_of(alloc: Global, files: &[File]) -> Result<Vec<NamedShape>, AllocError>
    ensures { IfOk result (λ shapes. shapes.items ≡ procedures_of (all_units files.now)) }
{
    let mut shapes = Vec::new(alloc);
    for file in files {
        add_units(alloc, file.units.as_slice(), &mut shapes)?;
    }
    Ok(shapes)
}
