//! The tables that the rows of names are read from.
#![tactic(auto)]

ghost use Rattle.std.specs.Prelude.{◌≡◌, IfOk};
ghost use Rattle.f_tree.specs.Attributes.{arrays_of};
ghost use Rattle.name_judge.specs.FactRows.{AreTables};
ghost use Rattle.name_table.specs.Named.{names_in, IsNameSet};

use declared_types::{Shapes, Types, unit_shapes, unit_types};
use f_tree::Unit;
use name_places::{NamePlaces, name_places};
use name_table::NameSet;
use std::alloc::{AllocError, Global};

/// What the statements of a unit say of the types, the dimensions and the places of its names.
#[derive(Drop)]
pub(crate) struct Tables<'a> {
    pub types: Types<'a>,
    pub shapes: Shapes<'a>,
    pub places: NamePlaces<'a>,
}

/// The tables of a unit, given the names of its arrays.
pub(crate) fn unit_tables<'a>(
    alloc: Global,
    arrays: &NameSet,
    unit: &'a Unit,
) -> Result<Tables<'a>, AllocError>
    requires is_set { IsNameSet arrays.now }
    requires arrays { names_in arrays.now ≡ arrays_of unit.now }
    ensures { IfOk result (λ tables. AreTables unit.now tables) }
{
    let types = unit_types(alloc, unit)?;
    let shapes = unit_shapes(alloc, unit)?;
    let places = name_places(alloc, arrays, unit)?;
    Ok(Tables {
        types,
        shapes,
        places,
    })
}
