//! Names that stand twice in one list of dummy arguments. Sections 15.4.1 and 15.9.2.
#![tactic(auto)]

ghost use Rattle.std.specs.Prelude.{◌≡◌, ◌++◌, ◌∷◌, [], OnOk, IfOk};
ghost use Rattle.f_tree.specs.Attributes.{named_dummies, entry_dummies_in};
ghost use Rattle.declaration_rows.specs.GivenRows.{no_name_twice};
ghost use Rattle.name_table.specs.Named.{texts};

use crate::conditions::both;
use f_tree::{Body, DummyArgument};
use name_table::NameSet;
use std::alloc::{AllocError, Global};

/// Adds the name of a dummy argument.
#[tactic(auto, unfolding(f_tree::specs::Attributes::named_dummies))]
fn add_name<'a>(names: &mut Vec<&'a [u8]>, dummy: &'a DummyArgument) -> Result<(), AllocError>
    ensures { OnOk result (texts names.new.items ≡ texts names.old.items ++ named_dummies (dummy.now ∷ [])) }
{
    match dummy {
        DummyArgument::Named(name) => {
            names.push(name.as_slice())?;
            Ok(())
        }
        DummyArgument::AlternateReturn => Ok(()),
    }
}

/// The names of dummy arguments.
fn dummy_names<'a>(alloc: Global, dummies: &'a [DummyArgument]) -> Result<Vec<&'a [u8]>, AllocError>
    ensures { IfOk result (λ names. texts names.items ≡ named_dummies dummies.now) }
{
    let mut names = Vec::new(alloc);
    for dummy in dummies {
        add_name(&mut names, dummy)?;
    }
    Ok(names)
}

/// Whether no name stands twice among some.
fn names_differ(alloc: Global, names: &[&[u8]]) -> Result<bool, AllocError>
    ensures { IfOk result (λ differ. differ ≡ no_name_twice (texts names.now)) }
{
    let mut behind = NameSet::new(alloc);
    let mut differ = true;
    for place in 0..names.len() {
        let name = names[names.len() - 1 - place];
        differ = both(!behind.has(name), differ);
        behind.add(name)?;
    }
    Ok(differ)
}

/// Whether no name stands twice among dummy arguments. An error where memory ran out.
pub(crate) fn dummies_differ(alloc: Global, dummies: &[DummyArgument]) -> Result<bool, AllocError>
    ensures { IfOk result (λ differ. differ ≡ no_name_twice (named_dummies dummies.now)) }
{
    let names = dummy_names(alloc, dummies)?;
    names_differ(alloc, names.as_slice())
}

/// Whether no name stands twice among the dummy arguments of an ENTRY statement. An error where memory ran out.
pub(crate) fn entry_dummies_differ(alloc: Global, body: &Body) -> Result<bool, AllocError>
    ensures { IfOk result (λ differ. differ ≡ no_name_twice (entry_dummies_in body.now)) }
{
    match body {
        Body::Entry(_, dummies) => dummies_differ(alloc, dummies.as_slice()),
        _ => Ok(true),
    }
}
