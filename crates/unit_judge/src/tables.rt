//! What the statements of a unit tell of its names. Section 18.

ghost use Rattle.std.specs.Prelude.{IfOk};
ghost use Rattle.unit_judge.specs.UnitTables.{AreTables};

use decl_table::name_facts;
use declared_types::{Types, unit_types};
use f_tree::Unit;
use name_classes::{Signs, unit_signs};
use name_facts::NameFacts;
use std::alloc::{AllocError, Global};

/// What the statements of a unit tell of its names.
#[derive(Drop)]
pub(crate) struct Tables<'a> {
    /// What is declared, and how names are used.
    pub signs: Signs<'a>,
    /// The types and the dimensions that are declared.
    pub types: Types<'a>,
    /// What each name is.
    pub facts: NameFacts<'a>,
}

/// What the statements of a unit tell of its names.
pub(crate) fn unit_tables<'a>(alloc: Global, unit: &'a Unit) -> Result<Tables<'a>, AllocError>
    ensures { IfOk result (λ tables. AreTables unit.now tables) }
{
    let signs = unit_signs(alloc, unit)?;
    let types = unit_types(alloc, unit)?;
    let facts = name_facts(alloc, unit)?;
    Ok(Tables {
        signs,
        types,
        facts,
    })
}
