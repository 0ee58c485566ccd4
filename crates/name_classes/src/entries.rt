//! The name of a unit and those of its entries, and their dummy arguments. Sections 15.4 to 15.7.
#![tactic(auto)]

ghost use Rattle.std.specs.Prelude.{◌≡◌, OnOk, IfOk, [], option_copied};
ghost use Rattle.name_classes.specs.KnownSigns.{Enters, AreEntries, AreEntrySets};

use crate::statements::{add_dummies, add_entry_dummies_in, add_entry_in, add_option};
use f_tree::{Body, Unit};
use name_table::NameSet;
use std::alloc::{AllocError, Global};

/// The names by which a unit is referenced, and their dummy arguments.
#[derive(Drop)]
pub struct EntryNames<'a> {
    /// The name of the unit and those of its entries.
    pub own_names: NameSet<'a>,
    /// The dummy arguments of the unit and of its entries.
    pub dummies: NameSet<'a>,
}

/// The name of a unit, if it has one.
fn own_name(unit: &Unit) -> Option<&[u8]>
    ensures { option_copied result ≡ unit.now.name }
{
    match &unit.name {
        Some(name) => Some(name.as_slice()),
        None => None,
    }
}

/// The name and the dummy arguments of the first statement of a unit.
fn head_names<'a>(alloc: Global, unit: &'a Unit) -> Result<EntryNames<'a>, AllocError>
    ensures { IfOk result (λ names. AreEntries unit.now [] names) }
{
    let mut own_names = NameSet::new(alloc);
    let mut dummies = NameSet::new(alloc);
    add_option(&mut own_names, own_name(unit))?;
    add_dummies(&mut dummies, unit.dummies.as_slice())?;
    Ok(EntryNames { own_names, dummies })
}

/// Notes the names of an ENTRY statement.
fn note_entry<'a>(names: &mut EntryNames<'a>, body: &'a Body) -> Result<(), AllocError>
    requires { AreEntrySets names.old }
    ensures { OnOk result (Enters names.old names.new body.now) }
{
    add_entry_in(&mut names.own_names, body)?;
    add_entry_dummies_in(&mut names.dummies, body)
}

/// The names by which a unit is referenced, and their dummy arguments. An error where memory ran out.
pub fn entry_names<'a>(alloc: Global, unit: &'a Unit) -> Result<EntryNames<'a>, AllocError>
    ensures { IfOk result (λ names. AreEntries unit.now unit.now.statements names) }
{
    let mut names = head_names(alloc, unit)?;
    for statement in unit.statements.as_slice() {
        note_entry(&mut names, &statement.body)?;
    }
    Ok(names)
}
