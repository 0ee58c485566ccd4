//! What is known of the names of a unit. Section 18.
#![tactic(auto)]

ghost use Rattle.std.specs.Prelude.{IfOk};
ghost use Rattle.call_check.specs.KnownUnits.{AreKnown};

use decl_table::name_facts;
use declared_types::{Types, unit_types};
use definition_judge::{definition_fault, given_names};
use expression_judge::Names;
use f_tree::Unit;
use name_table::NameSet;
use name_uses::array_set;
use std::alloc::{AllocError, Global};

/// What is known of the names of a unit.
#[derive(Drop)]
pub(crate) struct KnownNames<'a> {
    /// The names of its arrays.
    pub arrays: NameSet<'a>,
    /// The types that are declared.
    pub types: Types<'a>,
    /// What each name is where a statement stands.
    pub names: Names<'a>,
}

/// What is known of the names of a unit: behind the judgement of its definitions the table of names has all its statement functions. An error where
/// memory ran out.
pub(crate) fn known_names<'a>(alloc: Global, unit: &'a Unit) -> Result<KnownNames<'a>, AllocError>
    ensures { IfOk result (λ known. AreKnown unit.now known) }
{
    let arrays = array_set(alloc, unit)?;
    let types = unit_types(alloc, unit)?;
    let facts = name_facts(alloc, unit)?;
    let mut names = given_names(alloc, unit, &arrays, &facts)?;
    definition_fault(alloc, unit, &arrays, &types, &mut names)?;
    Ok(KnownNames {
        arrays,
        types,
        names,
    })
}
