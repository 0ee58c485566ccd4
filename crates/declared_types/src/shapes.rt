//! The dimensions of names. Section 5.1.
#![tactic(auto)]

ghost use Rattle.std.specs.Prelude.{◌≡◌, ◌∷◌, [], OnOk, IfOk, map};
ghost use Rattle.f_tree.specs.Attributes.{from_all, shaped_in, shape_of_array, members_of};
ghost use Rattle.declaration_rows.specs.NameRows.{shape_in};
ghost use Rattle.name_uses.specs.UsesSeen.{shape_of};
ghost use Rattle.declared_types.specs.TypeTables as spec;

use f_tree::{ArrayDeclarator, Body, CommonGroup, Declarator, Dimension, Stmt, Unit};
use name_table::NameTable;
use std::alloc::{AllocError, Global};

/// Names with their first dimensions.
#[derive(Drop)]
pub struct Shapes<'a> {
    table: NameTable<'a, &'a [Dimension]>,
}

/// The dimensions that a table has of a name.
fn noted<'a>(shapes: &Shapes<'a>, name: &[u8]) -> &'a [Dimension]
    ensures { result.now ≡ spec.shape_at shapes.now name.now }
{
    match shapes.table.get(name) {
        Some(dimensions) => dimensions,
        None => &[],
    }
}

/// Notes the dimensions of a name that has none yet.
fn note_shape<'a>(
    shapes: &mut Shapes<'a>,
    name: &'a [u8],
    dimensions: &'a [Dimension],
) -> Result<(), AllocError>
    ensures { OnOk result (spec.NotesShapes shapes.old shapes.new (record { name = name.now; dimensions = dimensions.now } ∷ [])) }
{
    match noted(shapes, name) {
        [] => shapes.table.put(name, dimensions),
        [_, ..] => Ok(()),
    }
}

/// Notes the dimensions in a type statement.
fn note_declarators<'a>(shapes: &mut Shapes<'a>, items: &'a [Declarator]) -> Result<(), AllocError>
    ensures { OnOk result (spec.NotesShapes shapes.old shapes.new (map shape_of items.now)) }
{
    for item in items {
        note_shape(shapes, item.name.as_slice(), item.dimensions.as_slice())?;
    }
    Ok(())
}

/// Notes the dimensions in a DIMENSION statement or of a common block.
fn note_members<'a>(shapes: &mut Shapes<'a>, items: &'a [ArrayDeclarator]) -> Result<(), AllocError>
    ensures { OnOk result (spec.NotesShapes shapes.old shapes.new (map shape_of_array items.now)) }
{
    for item in items {
        note_shape(shapes, item.name.as_slice(), item.dimensions.as_slice())?;
    }
    Ok(())
}

/// Notes the dimensions in a COMMON statement.
fn note_groups<'a>(shapes: &mut Shapes<'a>, groups: &'a [CommonGroup]) -> Result<(), AllocError>
    ensures { OnOk result (spec.NotesShapes shapes.old shapes.new (map shape_of_array (members_of groups.now))) }
{
    for group in groups {
        note_members(shapes, group.items.as_slice())?;
    }
    Ok(())
}

/// Notes the dimensions in a statement.
fn note_shapes_in<'a>(shapes: &mut Shapes<'a>, body: &'a Body) -> Result<(), AllocError>
    ensures { OnOk result (spec.NotesShapes shapes.old shapes.new (shaped_in body.now)) }
{
    match body {
        Body::Declare(_, items) => note_declarators(shapes, items.as_slice()),
        Body::Dimension(items) => note_members(shapes, items.as_slice()),
        Body::Common(groups) => note_groups(shapes, groups.as_slice()),
        _ => Ok(()),
    }
}

/// The dimensions of the names of statements.
fn shapes_among<'a>(alloc: Global, statements: &'a [Stmt]) -> Result<Shapes<'a>, AllocError>
    ensures { IfOk result (λ shapes. spec.AreShapesAmong statements.now shapes) }
{
    let mut shapes = Shapes {
        table: NameTable::new(alloc),
    };
    for statement in statements {
        note_shapes_in(&mut shapes, &statement.body)?;
    }
    Ok(shapes)
}

/// The dimensions of the names of a unit. An error where memory ran out.
pub fn unit_shapes<'a>(alloc: Global, unit: &'a Unit) -> Result<Shapes<'a>, AllocError>
    ensures { IfOk result (λ shapes. spec.AreShapes unit.now shapes) }
{
    shapes_among(alloc, unit.statements.as_slice())
}

/// The dimensions of a name of a unit: the first that a statement gives it, none for what is no array. Section 5.1.
#[tactic(auto, unfolding(declaration_rows::specs::NameRows::shape_in))]
pub fn shape<'a>(unit: &Unit, shapes: &Shapes<'a>, name: &[u8]) -> &'a [Dimension]
    requires { spec.AreShapes unit.now shapes.now }
    ensures { result.now ≡ shape_in unit.now name.now }
{
    noted(shapes, name)
}
