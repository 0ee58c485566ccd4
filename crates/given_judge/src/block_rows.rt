//! The rows of names with an underscore that are common blocks and, besides, variables, arrays or dummy procedures (F22). Section 18.2.
#![tactic(auto)]

ghost use Rattle.std.specs.Prelude.{◌≡◌, ◌++◌, ◌∷◌, [], List, ℕ, max, OnOk, IfOk};
ghost use Rattle.f_tree.specs.Lines.{common_in};
ghost use Rattle.f_tree.specs.Attributes.{arrays_of};
ghost use Rattle.declaration_rows.specs.GlobalRows.{block_names};
ghost use Rattle.declaration_rows.specs.GivenRows as rows;
ghost use Rattle.declaration_rows.specs.GivenRows.{block_name_rows, all_block_names, is_block_in};
ghost use Rattle.declaration_rows.specs.NameRows.{given_names, known_in};
ghost use Rattle.expression_judge.specs.SeenNames.{AreSeen};
ghost use Rattle.name_table.specs.Named.{value_of, names_in, texts, IsNameSet};
ghost use Rattle.name_places.specs.FirstPlaces as standing;
ghost use Rattle.name_places.specs.FirstPlaces.{first_at, Notes, ArePlaces};
ghost use Rattle.f_tree.specs.Attributes.{option_list};
ghost use Rattle.given_judge.specs.BlocksSeen as spec;
ghost use Rattle.given_judge.specs.BlocksSeen.{AreFirstBlocks};

use crate::conditions::both;
use expression_judge::Names;
use f_tree::{Body, Class, CommonGroup, Kind, Refusal, Stmt, Unit};
use name_places::{NamePlaces, add_at, name_places, place_of};
use name_table::{NameSet, NameTable};
use std::alloc::{AllocError, Global};

/// Adds the name of a common block, which blank common has not.
#[tactic(auto, unfolding(f_tree::specs::Attributes::option_list, declaration_rows::specs::GlobalRows::block_names))]
fn add_block_name<'a>(names: &mut Vec<&'a [u8]>, group: &'a CommonGroup) -> Result<(), AllocError>
    ensures { OnOk result (texts names.new.items ≡ texts names.old.items ++ option_list group.now.block) }
{
    match &group.block {
        Some(name) => {
            names.push(name.as_slice())?;
            Ok(())
        }
        None => Ok(()),
    }
}

/// Adds the names of the common blocks of a COMMON statement.
fn add_group_names<'a>(
    names: &mut Vec<&'a [u8]>,
    groups: &'a [CommonGroup],
) -> Result<(), AllocError>
    ensures { OnOk result (texts names.new.items ≡ texts names.old.items ++ block_names groups.now) }
{
    for group in groups {
        add_block_name(names, group)?;
    }
    Ok(())
}

/// Adds the names of the common blocks of a statement.
fn add_block_names<'a>(names: &mut Vec<&'a [u8]>, body: &'a Body) -> Result<(), AllocError>
    ensures { OnOk result (texts names.new.items ≡ texts names.old.items ++ block_names (common_in body.now)) }
{
    match body {
        Body::Common(groups) => add_group_names(names, groups.as_slice()),
        _ => Ok(()),
    }
}

/// The names of the common blocks of statements, in their order.
fn all_block_names<'a>(alloc: Global, statements: &'a [Stmt]) -> Result<Vec<&'a [u8]>, AllocError>
    ensures { IfOk result (λ names. texts names.items ≡ all_block_names statements.now) }
{
    let mut names = Vec::new(alloc);
    for statement in statements {
        add_block_names(&mut names, &statement.body)?;
    }
    Ok(names)
}

/// Notes the number of the statement in which a common block stands, unless it has stood before.
fn note_block<'a>(
    places: &mut NameTable<'a, usize>,
    at: usize,
    name: &'a [u8],
) -> Result<(), AllocError>
    ensures { OnOk result (Notes at places.old places.new (name.now ∷ [])) }
{
    match places.get(name) {
        Some(_) => Ok(()),
        None => places.put(name, at),
    }
}

/// Notes the number of the statement in which common blocks stand.
fn note_blocks<'a>(
    places: &mut NameTable<'a, usize>,
    at: usize,
    names: &[&'a [u8]],
) -> Result<(), AllocError>
    ensures { OnOk result (Notes at places.old places.new (texts names.now)) }
{
    for name in names {
        note_block(places, at, name)?;
    }
    Ok(())
}

/// Notes the number of a statement with its common blocks.
fn note_statement<'a>(
    alloc: Global,
    places: &mut NameTable<'a, usize>,
    at: usize,
    body: &'a Body,
) -> Result<(), AllocError>
    ensures { OnOk result (Notes at places.old places.new (block_names (common_in body.now))) }
{
    let mut names = Vec::new(alloc);
    add_block_names(&mut names, body)?;
    note_blocks(places, at, names.as_slice())
}

/// The number of the first statement in which each common block stands, from 0.
fn block_places<'a>(
    alloc: Global,
    statements: &'a [Stmt],
) -> Result<NameTable<'a, usize>, AllocError>
    ensures { IfOk result (λ places. (q : List ℕ) → value_of places q ≡ first_at (is_block_in q) statements.now) }
{
    let mut places = NameTable::new(alloc);
    for at in 0..statements.len() {
        note_statement(alloc, &mut places, at, &statements[at].body)?;
    }
    Ok(places)
}

/// The later of two numbers.
fn later_of(one: usize, other: usize) -> usize
    ensures { result ≡ max one other }
{
    if one < other { other } else { one }
}

/// The later of two statements, where both are there.
#[tactic(auto, unfolding(name_places::specs::FirstPlaces::later))]
fn later(one: Option<usize>, other: Option<usize>) -> Option<usize>
    ensures { result ≡ standing.later one other }
{
    match (one, other) {
        (Some(one), Some(other)) => Some(later_of(one, other)),
        (None, _) | (_, None) => None,
    }
}

/// Whether a name has an underscore.
#[tactic(auto, unfolding(declaration_rows::specs::GivenRows::has_underscore))]
fn has_underscore(name: &[u8]) -> bool
    ensures { result ≡ rows.has_underscore name.now }
{
    name.iter().any(|c| *c == b'_')
}

/// Whether a name of a class is a variable, an array or a dummy procedure.
#[tactic(auto, unfolding(crate::specs::BlocksSeen::is_variable_class))]
fn is_variable_class(class: Class) -> bool
    ensures { result ≡ spec.is_variable_class class }
{
    match class {
        Class::Stored | Class::Dummy | Class::Result | Class::DummyProcedure => true,
        Class::Constant | Class::Procedure | Class::StatementFunction => false,
        Class::Intrinsic | Class::Unit => false,
    }
}

/// Whether a common block may have its name: with an underscore it is no name of a variable, an array or a dummy procedure.
fn is_alone(names: &Names, name: &[u8]) -> bool
    ensures { result ≡ spec.is_alone names.now name.now }
{
    let is_variable = is_variable_class(names.fact(name).class);
    !both(has_underscore(name), is_variable)
}

/// Adds the row of the name of a common block.
fn add_block_row(
    found: &mut Vec<Refusal>,
    unit: &Unit,
    names: &Names,
    blocks: &NameTable<usize>,
    places: &NamePlaces,
    name: &[u8],
) -> Result<(), AllocError>
    requires seen { AreSeen (known_in unit.now) names.now }
    requires blocks { AreFirstBlocks unit.now blocks.now }
    requires places { ArePlaces unit.now places.now }
    ensures { OnOk result (found.new.items ≡ found.old.items ++ block_name_rows unit.now (name.now ∷ [])) }
{
    let at = later(blocks.get(name), places.mentioned.get(name));
    let place = place_of(unit, at);
    add_at(
        found,
        place,
        is_alone(names, name),
        Kind::ConflictingAttributes,
    )
}

/// Adds the rows of names of common blocks.
fn add_rows(
    found: &mut Vec<Refusal>,
    unit: &Unit,
    names: &Names,
    blocks: &NameTable<usize>,
    places: &NamePlaces,
    block_names: &[&[u8]],
) -> Result<(), AllocError>
    requires seen { AreSeen (known_in unit.now) names.now }
    requires blocks { AreFirstBlocks unit.now blocks.now }
    requires places { ArePlaces unit.now places.now }
    ensures { OnOk result (found.new.items ≡ found.old.items ++ block_name_rows unit.now (texts block_names.now)) }
{
    for name in block_names {
        add_block_row(found, unit, names, blocks, places, name)?;
    }
    Ok(())
}

/// Adds the rows of the names of the common blocks of a unit.
pub(crate) fn add_block_rows(
    alloc: Global,
    found: &mut Vec<Refusal>,
    unit: &Unit,
    arrays: &NameSet,
    names: &Names,
) -> Result<(), AllocError>
    requires set { IsNameSet arrays.now }
    requires arrays { names_in arrays.now ≡ arrays_of unit.now }
    requires seen { AreSeen (known_in unit.now) names.now }
    ensures { OnOk result (found.new.items ≡ found.old.items ++ block_name_rows unit.now (rows.all_block_names unit.now.statements)) }
{
    let blocks = block_places(alloc, unit.statements.as_slice())?;
    let places = name_places(alloc, arrays, unit)?;
    let block_names = all_block_names(alloc, unit.statements.as_slice())?;
    add_rows(found, unit, names, &blocks, &places, block_names.as_slice())
}
