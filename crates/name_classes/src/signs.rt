//! What the statements of a unit tell of its names. Section 18.
#![tactic(auto)]

ghost use Rattle.std.specs.Prelude.{IfOk};
ghost use Rattle.name_classes.specs.KnownSigns.{AreSigns};

use crate::declarations::{DeclaredNames, declared_names};
use crate::entries::{EntryNames, entry_names};
use crate::used::{UsedNames, used_names};
use f_tree::Unit;
use name_table::NameSet;
use name_uses::array_set;
use std::alloc::{AllocError, Global};

/// What the statements of a unit tell of its names.
#[derive(Drop)]
pub struct Signs<'a> {
    /// Arrays. Section 5.1.
    pub arrays: NameSet<'a>,
    pub declared: DeclaredNames<'a>,
    pub entries: EntryNames<'a>,
    pub used: UsedNames<'a>,
}

/// What the statements of a unit tell of its names. An error where memory ran out.
pub fn unit_signs<'a>(alloc: Global, unit: &'a Unit) -> Result<Signs<'a>, AllocError>
    ensures { IfOk result (λ signs. AreSigns unit.now signs) }
{
    let arrays = array_set(alloc, unit)?;
    let declared = declared_names(alloc, unit.statements.as_slice())?;
    let entries = entry_names(alloc, unit)?;
    let used = used_names(alloc, &arrays, unit.statements.as_slice())?;
    Ok(Signs {
        arrays,
        declared,
        entries,
        used,
    })
}
