//! The names of a unit in the order in which they are first seen. Section 18.
#![tactic(auto)]

ghost use Rattle.std.specs.Prelude.{◌≡◌, ◌∷◌, ◌++◌, [], OnOk, IfOk};
ghost use Rattle.f_tree.specs.Attributes.{arrays_of, named_dummies, option_list};
ghost use Rattle.f_tree.specs.Uses.{uses_of_body, uses_of_statements};
ghost use Rattle.declaration_rows.specs.NameRows.{all_names};
ghost use Rattle.name_table.specs.Named.{names_in, texts, IsNameSet};
ghost use Rattle.name_uses.specs.UsesSeen.{used_in};
ghost use Rattle.name_places.specs.FirstPlaces.{use_names};
ghost use Rattle.name_places.specs.SeenNames as spec;

use f_tree::{Body, DummyArgument, Stmt, Text, Unit};
use name_table::NameSet;
use name_uses::{Use, add_statement_uses};
use std::alloc::{AllocError, Global};

/// Adds a name unless it has been seen.
fn see<'a>(
    names: &mut Vec<&'a [u8]>,
    seen: &mut NameSet<'a>,
    name: &'a [u8],
) -> Result<(), AllocError>
    requires { spec.AreSeen seen.old (texts names.old.items) }
    ensures names { OnOk result (texts names.new.items ≡ spec.with_names (texts names.old.items) (name.now ∷ [])) }
    ensures seen { OnOk result (spec.AreSeen seen.new (texts names.new.items)) }
{
    if seen.has(name) {
        return Ok(());
    }
    seen.add(name)?;
    names.push(name)?;
    Ok(())
}

/// Adds the name of a dummy argument unless it has been seen.
fn see_dummy<'a>(
    names: &mut Vec<&'a [u8]>,
    seen: &mut NameSet<'a>,
    dummy: &'a DummyArgument,
) -> Result<(), AllocError>
    requires { spec.AreSeen seen.old (texts names.old.items) }
    ensures names { OnOk result (texts names.new.items ≡ spec.with_names (texts names.old.items) (spec.dummy_name dummy.now)) }
    ensures seen { OnOk result (spec.AreSeen seen.new (texts names.new.items)) }
{
    match dummy {
        DummyArgument::Named(name) => see(names, seen, name.as_slice()),
        DummyArgument::AlternateReturn => Ok(()),
    }
}

/// Adds the names of dummy arguments that have not been seen.
fn see_dummies<'a>(
    names: &mut Vec<&'a [u8]>,
    seen: &mut NameSet<'a>,
    dummies: &'a [DummyArgument],
) -> Result<(), AllocError>
    requires { spec.AreSeen seen.old (texts names.old.items) }
    ensures names { OnOk result (texts names.new.items ≡ spec.with_names (texts names.old.items) (named_dummies dummies.now)) }
    ensures seen { OnOk result (spec.AreSeen seen.new (texts names.new.items)) }
{
    for dummy in dummies {
        see_dummy(names, seen, dummy)?;
    }
    Ok(())
}

/// Adds names that have not been seen.
fn see_uses<'a>(
    names: &mut Vec<&'a [u8]>,
    seen: &mut NameSet<'a>,
    uses: &[Use<'a>],
) -> Result<(), AllocError>
    requires { spec.AreSeen seen.old (texts names.old.items) }
    ensures names { OnOk result (texts names.new.items ≡ spec.with_names (texts names.old.items) (use_names (used_in uses.now))) }
    ensures seen { OnOk result (spec.AreSeen seen.new (texts names.new.items)) }
{
    for one in uses {
        see(names, seen, one.name)?;
    }
    Ok(())
}

/// Adds the names of a statement that have not been seen.
fn see_statement<'a>(
    alloc: Global,
    arrays: &NameSet,
    names: &mut Vec<&'a [u8]>,
    seen: &mut NameSet<'a>,
    body: &'a Body,
) -> Result<(), AllocError>
    requires arrays { IsNameSet arrays.now }
    requires seen { spec.AreSeen seen.old (texts names.old.items) }
    ensures names { OnOk result (texts names.new.items ≡ spec.with_names (texts names.old.items) (use_names (uses_of_body (names_in arrays.now) body.now))) }
    ensures seen { OnOk result (spec.AreSeen seen.new (texts names.new.items)) }
{
    let mut uses = Vec::new(alloc);
    add_statement_uses(alloc, arrays, &mut uses, body)?;
    see_uses(names, seen, uses.as_slice())
}

/// Adds the names of statements that have not been seen.
fn see_statements<'a>(
    alloc: Global,
    arrays: &NameSet,
    names: &mut Vec<&'a [u8]>,
    seen: &mut NameSet<'a>,
    statements: &'a [Stmt],
) -> Result<(), AllocError>
    requires arrays { IsNameSet arrays.now }
    requires seen { spec.AreSeen seen.old (texts names.old.items) }
    ensures { OnOk result (texts names.new.items ≡ spec.with_names (texts names.old.items) (use_names (uses_of_statements (names_in arrays.now) statements.now))) }
{
    for statement in statements {
        see_statement(alloc, arrays, names, seen, &statement.body)?;
    }
    Ok(())
}

/// The names of the dummy arguments and of the statements of a unit.
fn seen_names<'a>(
    alloc: Global,
    arrays: &NameSet,
    unit: &'a Unit,
) -> Result<Vec<&'a [u8]>, AllocError>
    requires { IsNameSet arrays.now }
    ensures { IfOk result (λ names. texts names.items
        ≡ spec.with_names (spec.with_names [] (named_dummies unit.now.dummies)) (use_names (uses_of_statements (names_in arrays.now) unit.now.statements))) }
{
    let mut names = Vec::new(alloc);
    let mut seen = NameSet::new(alloc);
    see_dummies(&mut names, &mut seen, unit.dummies.as_slice())?;
    see_statements(
        alloc,
        arrays,
        &mut names,
        &mut seen,
        unit.statements.as_slice(),
    )?;
    Ok(names)
}

/// Puts a name that may be there before names.
fn put_first<'a>(names: &mut Vec<&'a [u8]>, name: &'a Option<Text>) -> Result<(), AllocError>
    ensures { OnOk result (texts names.new.items ≡ option_list name.now ++ texts names.old.items) }
{
    match name {
        Some(name) => {
            names.insert(0, name.as_slice())?;
            Ok(())
        }
        None => Ok(()),
    }
}

/// The names of a unit: its own, those of its dummy arguments and those of its statements, in the order in which they are first seen, given the
/// names of its arrays. The unit's own name may stand twice. An error where memory ran out.
pub fn all_names<'a>(
    alloc: Global,
    arrays: &NameSet,
    unit: &'a Unit,
) -> Result<Vec<&'a [u8]>, AllocError>
    requires is_set { IsNameSet arrays.now }
    requires arrays { names_in arrays.now ≡ arrays_of unit.now }
    ensures { IfOk result (λ names. texts names.items ≡ all_names unit.now) }
{
    let mut names = seen_names(alloc, arrays, unit)?;
    put_first(&mut names, &unit.name)?;
    Ok(names)
}
