//! The names that the statements of a unit use with a list or in a CALL, and those to whose elements or functions something is assigned.
//! Sections 10, 15.4, 15.5 and 15.6.
#![tactic(auto)]

ghost use Rattle.std.specs.Prelude.{◌∷◌, [], List, OnOk, IfOk};
ghost use Rattle.f_tree.specs.Values.{Bytes};
ghost use Rattle.f_tree.specs.Attributes.{with_list as is_with_list, called as is_called};
ghost use Rattle.name_table.specs.Named.{names_in, IsNameSet};
ghost use Rattle.name_uses.specs.UsesSeen.{Adds, use_of, used_in};
ghost use Rattle.name_classes.specs.StatedNames.{used_as, used_as_in};
ghost use Rattle.name_classes.specs.KnownSigns.{AreUsedSets, UsesNames, AreUsed};

use crate::statements::add_assigned_in;
use f_tree::{Body, Stmt};
use name_table::NameSet;
use name_uses::{Manner, Use, add_statement_uses};
use std::alloc::{AllocError, Global};

/// The names that statements use in some manner.
#[derive(Drop)]
pub struct UsedNames<'a> {
    /// Names to whose elements or functions something is assigned.
    pub assigned: NameSet<'a>,
    /// Names that stand with a list in an expression.
    pub with_list: NameSet<'a>,
    /// Names of CALL statements.
    pub called: NameSet<'a>,
}

/// No names.
fn no_names<'a>(alloc: Global) -> UsedNames<'a>
    ensures { (arrays : List Bytes) → AreUsed arrays [] result }
{
    UsedNames {
        assigned: NameSet::new(alloc),
        with_list: NameSet::new(alloc),
        called: NameSet::new(alloc),
    }
}

/// Notes a name that stands with a list or in a CALL.
fn note_use<'a>(
    with_list: &mut NameSet<'a>,
    called: &mut NameSet<'a>,
    one: Use<'a>,
) -> Result<(), AllocError>
    requires with_list { IsNameSet with_list.old }
    requires called { IsNameSet called.old }
    ensures with_list { OnOk result (Adds with_list.old with_list.new (used_as is_with_list (use_of one.entry ∷ []))) }
    ensures called { OnOk result (Adds called.old called.new (used_as is_called (use_of one.entry ∷ []))) }
{
    match one.manner {
        Manner::WithList => with_list.add(one.name),
        Manner::Called => called.add(one.name),
        Manner::Alone | Manner::Declared => Ok(()),
    }
}

/// Notes the names that stand with a list or in a CALL.
fn note_uses<'a>(
    with_list: &mut NameSet<'a>,
    called: &mut NameSet<'a>,
    uses: &[Use<'a>],
) -> Result<(), AllocError>
    requires with_list { IsNameSet with_list.old }
    requires called { IsNameSet called.old }
    ensures with_list { OnOk result (Adds with_list.old with_list.new (used_as is_with_list (used_in uses.now))) }
    ensures called { OnOk result (Adds called.old called.new (used_as is_called (used_in uses.now))) }
{
    for one in uses {
        note_use(with_list, called, *one)?;
    }
    Ok(())
}

/// Notes the names that a statement uses.
fn note_statement<'a>(
    alloc: Global,
    arrays: &NameSet,
    names: &mut UsedNames<'a>,
    body: &'a Body,
) -> Result<(), AllocError>
    requires arrays { IsNameSet arrays.now }
    requires names { AreUsedSets names.old }
    ensures { OnOk result (UsesNames (names_in arrays.now) names.old names.new body.now) }
{
    let mut uses = Vec::new(alloc);
    add_statement_uses(alloc, arrays, &mut uses, body)?;
    note_uses(&mut names.with_list, &mut names.called, uses.as_slice())?;
    add_assigned_in(&mut names.assigned, body)
}

/// The names that statements use. An error where memory ran out.
pub fn used_names<'a>(
    alloc: Global,
    arrays: &NameSet,
    statements: &'a [Stmt],
) -> Result<UsedNames<'a>, AllocError>
    requires { IsNameSet arrays.now }
    ensures { IfOk result (λ names. AreUsed (names_in arrays.now) statements.now names) }
{
    let mut names = no_names(alloc);
    for statement in statements {
        note_statement(alloc, arrays, &mut names, &statement.body)?;
    }
    Ok(names)
}
