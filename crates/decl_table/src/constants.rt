//! The constants of a unit with their values. Section 8.6.

ghost use Rattle.std.specs.Prelude.{OnOk, IfOk, ◌∷◌, []};
ghost use Rattle.f_tree.specs.Attributes.{from_all, constants_in, constants_from};
ghost use Rattle.constant_values.specs.KnownConstants.{AreConstants};
ghost use Rattle.declared_types.specs.TypeTables.{AreTypes};
ghost use Rattle.decl_table.specs.UnitFacts.{IsFitted, IsDefinedValue, DefinesConstants, AreUnitConstants};

use crate::widths::width_by;
use constant_values::{Constants, constant_value, fitted};
use declared_types::{Types, typed_name};
use f_tree::{Body, ConstantDefinition, Expr, Stmt, Unit};
use name_facts::ConstantValue;
use std::alloc::{AllocError, Global};

/// A text at the length of its name; another value as it is.
fn fitted_value(
    alloc: Global,
    width: Option<u32>,
    value: ConstantValue,
) -> Result<ConstantValue, AllocError>
    ensures { IfOk result (λ kept. IsFitted width value kept) }
{
    match value {
        ConstantValue::Text(text) => match width {
            Some(size) => Ok(ConstantValue::Text(fitted(alloc, size as usize, text.as_slice())?)),
            None => Ok(ConstantValue::Text(text)),
        },
        ConstantValue::Integer(number) => Ok(ConstantValue::Integer(number)),
        ConstantValue::Logical(truth) => Ok(ConstantValue::Logical(truth)),
        ConstantValue::Label(label) => Ok(ConstantValue::Label(label)),
    }
}

/// The value of a constant expression at the length of its name, given the constants before it.
fn defined_value(
    alloc: Global,
    constants: &Constants,
    width: Option<u32>,
    e: &Expr,
) -> Result<Option<ConstantValue>, AllocError>
    ensures { IfOk result (λ v. IsDefinedValue constants.now width e.now v) }
{
    match constant_value(alloc, constants, e)? {
        Some(value) => Ok(Some(fitted_value(alloc, width, value)?)),
        None => Ok(None),
    }
}

/// Adds a constant, over those before it.
fn define<'a>(
    alloc: Global,
    unit: &Unit,
    types: &Types,
    constants: &mut Constants<'a>,
    item: &'a ConstantDefinition,
) -> Result<(), AllocError>
    requires { AreTypes unit.now types.now }
    ensures { OnOk result (DefinesConstants unit.now constants.old constants.new (item.now ∷ [])) }
{
    let name = item.name.as_slice();
    let width = width_by(alloc, constants, typed_name(unit, types, name))?;
    let value = defined_value(alloc, constants, width, &item.value)?;
    constants.define(name, value)
}

/// Adds the constants of a PARAMETER statement.
fn define_items<'a>(
    alloc: Global,
    unit: &Unit,
    types: &Types,
    constants: &mut Constants<'a>,
    items: &'a [ConstantDefinition],
) -> Result<(), AllocError>
    requires { AreTypes unit.now types.now }
    ensures { OnOk result (DefinesConstants unit.now constants.old constants.new items.now) }
{
    for item in items {
        define(alloc, unit, types, constants, item)?;
    }
    Ok(())
}

/// Adds the constants of a statement.
fn define_in<'a>(
    alloc: Global,
    unit: &Unit,
    types: &Types,
    constants: &mut Constants<'a>,
    body: &'a Body,
) -> Result<(), AllocError>
    requires { AreTypes unit.now types.now }
    ensures { OnOk result (DefinesConstants unit.now constants.old constants.new (constants_in body.now)) }
{
    match body {
        Body::Parameter(items) => define_items(alloc, unit, types, constants, items.as_slice()),
        _ => Ok(()),
    }
}

/// The constants of statements, each over those before it.
fn constants_among<'a>(
    alloc: Global,
    unit: &Unit,
    types: &Types,
    statements: &'a [Stmt],
) -> Result<Constants<'a>, AllocError>
    requires { AreTypes unit.now types.now }
    ensures { IfOk result (λ constants. AreConstants (constants_from unit.now [] (from_all constants_in statements.now)) constants) }
{
    let mut constants = Constants::new(alloc);
    for statement in statements {
        define_in(alloc, unit, types, &mut constants, &statement.body)?;
    }
    Ok(constants)
}

/// The constants of a unit with their values, each over those before it. An error where memory ran out.
pub(crate) fn unit_constants<'a>(
    alloc: Global,
    unit: &'a Unit,
    types: &Types,
) -> Result<Constants<'a>, AllocError>
    requires { AreTypes unit.now types.now }
    ensures { IfOk result (λ constants. AreUnitConstants unit.now constants) }
{
    constants_among(alloc, unit, types, unit.statements.as_slice())
}
