//! What is known of a unit where its steps are written. Sections 4.1, 5.1, 5.3, 15 and 18.

ghost use Rattle.std.specs.HashMap.{get_by};
ghost use Rattle.std.specs.Prelude.{◌≡◌, ℕ, IfOk, List, OnOk, map, nat_eq, option_map, bytes_eq, slice_get, if◌then◌else◌, Some};
ghost use Rattle.c_emit.specs.Numbers as numbers;
ghost use Rattle.unit_item_laws.specs.AgreeingUnits.{standing_in};
ghost use Rattle.name_facts.specs.GivenFacts.{fact_in};
ghost use Rattle.unit_writer.specs.Told as told;

use crate::bounds::{bounds_in, is_kept};
use crate::heading::{BoundKind, Heading, KeptBound, Procedure, UnitRole};
use crate::procedures::routines;
use f_tree::Class;
use indexmap::IndexMap;
use item_emission::{Dimension, Giving, LowerBound, Size, Standing};
use item_emitter::{Known, Variable};
use lowered_text::LoweredText;
use name_facts::{Bound, NameFacts};
use plain_data::Items;
use std::alloc::{AllocError, Global};
use unit_contents::{Contents, Listing};

/// Whether a class is that of a variable or an array.
#[tactic(auto, unfolding(c_emit::specs::Numbers::is_variable))]
fn is_variable(class: Class) -> bool
    ensures { result ≡ numbers.is_variable class }
{
    match class {
        Class::Stored | Class::Dummy | Class::Result => true,
        Class::Constant | Class::Procedure | Class::DummyProcedure => false,
        Class::StatementFunction | Class::Intrinsic | Class::Unit => false,
    }
}

/// A dimension by its bounds.
#[tactic(auto, unfolding(crate::specs::Told::dimension_by, name_facts::specs::GivenFacts::bounds_of))]
fn dimension(bound: &Bound) -> Dimension
    ensures { result ≡ told.dimension_by bound.now }
{
    Dimension {
        lower: LowerBound::Written(bound.lower),
        size: Size::Written(bound.size()),
    }
}

/// A dimension as its bounds are written; what is not there counts as 0.
#[tactic(auto, unfolding(crate::specs::Told::dimension_or))]
fn written_dimension(bounds: &[Bound], place: usize) -> Dimension
    ensures { result ≡ told.dimension_or (slice_get bounds.now place) }
{
    match bounds.get(place) {
        Some(bound) => dimension(bound),
        None => Dimension {
            lower: LowerBound::Written(0),
            size: Size::Written(0),
        },
    }
}

/// A lower bound that is written, or kept.
#[tactic(auto, unfolding(crate::specs::Told::lower_told))]
fn lower_of(kept: bool, written: LowerBound) -> LowerBound
    ensures { result ≡ told.lower_told kept written }
{
    if kept { LowerBound::Kept } else { written }
}

/// A size that is written, or kept.
#[tactic(auto, unfolding(crate::specs::Told::size_told))]
fn size_of(kept: bool, written: Size) -> Size
    ensures { result ≡ told.size_told kept written }
{
    if kept { Size::Kept } else { written }
}

/// A dimension of an array, given what is kept and its constant bounds.
fn dimension_at(kept: &[KeptBound], name: &[u8], bounds: &[Bound], place: usize) -> Dimension
    ensures { result ≡ told.dimension_told kept.now name.now bounds.now place }
{
    let written = written_dimension(bounds, place);
    Dimension {
        lower: lower_of(is_kept(kept, name, place, BoundKind::Lower), written.lower),
        size: size_of(is_kept(kept, name, place, BoundKind::Size), written.size),
    }
}

/// The dimensions of an array of so many.
fn dimensions(
    alloc: Global,
    kept: &[KeptBound],
    name: &[u8],
    bounds: &[Bound],
    rank: usize,
) -> Result<Vec<Dimension>, AllocError>
    ensures { IfOk result (λ found. found.items ≡ told.dimensions_told (told.dimension_told kept.now name.now bounds.now) 0 rank) }
{
    let mut found = Vec::new(alloc);
    for place in 0..rank {
        found.push(dimension_at(kept, name, bounds, place))?;
    }
    Ok(found)
}

/// How a name of a class stands.
#[tactic(auto, unfolding(unit_item_laws::specs::AgreeingUnits::standing_in))]
fn standing(class: Class) -> Standing
    ensures { result ≡ standing_in class }
{
    match class {
        Class::Dummy => Standing::Parameter,
        Class::Result => Standing::Result,
        Class::Constant | Class::Stored | Class::Procedure => Standing::Own,
        Class::DummyProcedure | Class::StatementFunction => Standing::Own,
        Class::Intrinsic | Class::Unit => Standing::Own,
    }
}

/// What is known of a name.
fn variable(
    alloc: Global,
    table: &NameFacts,
    kept: &[KeptBound],
    name: &[u8],
) -> Result<Variable, AllocError>
    ensures { IfOk result (λ found. told.seen_of found ≡ told.seen_by kept.now name.now (fact_in table.now name.now)) }
{
    Ok(Variable {
        is_variable: is_variable(table.class(name)),
        basic: table.basic(name),
        dimensions: dimensions(alloc, kept, name, bounds_in(table, name), table.rank(name))?,
        standing: standing(table.class(name)),
    })
}

/// Notes what is known of a name.
fn put_variable<'a>(
    variables: &mut IndexMap<&'a [u8], Variable>,
    name: &'a [u8],
    variable: Variable,
) -> Result<(), AllocError>
    ensures { OnOk result ((x : List ℕ)
        → get_by (λ k. bytes_eq x k.now) variables.new ≡ (if bytes_eq name.now x then Some variable else get_by (λ k. bytes_eq x k.now) variables.old)) }
{
    match variables.insert(name, variable) {
        Ok(_) => Ok(()),
        Err(_) => Err(AllocError),
    }
}

/// What is known of each name.
fn variables<'a>(
    alloc: Global,
    table: &NameFacts,
    kept: &[KeptBound],
    names: &[&'a [u8]],
) -> Result<IndexMap<&'a [u8], Variable>, AllocError>
    ensures { IfOk result (λ found. (x : List ℕ)
        → option_map told.seen_of (get_by (λ k. bytes_eq x k.now) found) ≡ told.seen_among table.now kept.now (map (λ name. name.now) names.now) x) }
{
    let mut found = IndexMap::new(alloc);
    for name in names {
        let variable = variable(alloc, table, kept, name)?;
        put_variable(&mut found, name, variable)?;
    }
    Ok(found)
}

/// What END and RETURN give.
#[tactic(auto, unfolding(crate::specs::Told::giving_told))]
fn giving(alloc: Global, role: UnitRole, name: &[u8]) -> Result<Giving, AllocError>
    ensures { IfOk result (λ gives. gives ≡ told.giving_told role name.now) }
{
    match role {
        UnitRole::Main => Ok(Giving::Zero),
        UnitRole::Subroutine => Ok(Giving::Alternate),
        UnitRole::Function => Ok(Giving::Value(Items::from_slice(alloc, name)?)),
    }
}

/// The steps that begin an output, in the order of their control lists.
fn steps_of_lists(alloc: Global, lists: &[Listing]) -> Result<Vec<usize>, AllocError>
    ensures { IfOk result (λ steps. steps.items ≡ map told.step_of_list lists.now) }
{
    lists.iter().map(|list| list.step).collect(alloc)
}

/// The labels of a text, once more.
fn labels(text: &LoweredText) -> Result<IndexMap<u32, usize>, AllocError>
    ensures { IfOk result (λ copy. (label : ℕ) → get_by (nat_eq label) copy ≡ get_by (nat_eq label) text.now.labels) }
{
    text.labels.clone()
}

/// What is known of a unit.
pub(crate) fn known<'a>(
    alloc: Global,
    table: &NameFacts,
    names: &[&'a [u8]],
    heading: &Heading,
    procedures: &IndexMap<&'a [u8], Procedure>,
    constants: &[i32],
    text: &LoweredText,
    contents: &Contents,
) -> Result<Known<'a>, AllocError>
    ensures { IfOk result (told.Tells table.now (map (λ name. name.now) names.now) heading.now (λ x. get_by (λ k. bytes_eq x k.now) procedures.now) constants.now text.now contents.now) }
{
    Ok(Known {
        variables: variables(alloc, table, &heading.bounds, names)?,
        routines: routines(alloc, table, names, procedures)?,
        gives: giving(alloc, heading.role, heading.name)?,
        temporaries: contents.temporaries,
        constants: Vec::from_slice(alloc, constants)?,
        lists: steps_of_lists(alloc, &contents.lists)?,
        labels: labels(text)?,
    })
}
