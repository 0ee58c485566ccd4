//! Where the names of a unit stand first, by the numbers of the statements.
#![tactic(auto)]

ghost use Rattle.std.specs.Prelude.{◌≡◌, ◌++◌, [], ℕ, max, List, OnOk, IfOk};
ghost use Rattle.f_tree.specs.declared.refusals.Kind as kind;
ghost use Rattle.f_tree.specs.Uses.{is_among};
ghost use Rattle.f_tree.specs.Attributes.{arrays_of, own_names, all_dummies};
ghost use Rattle.declaration_rows.specs.NameRows.{at_first, at_both, mentions, declares, fixes, first_statements};
ghost use Rattle.name_table.specs.Named.{names_in, IsNameSet};
ghost use Rattle.name_places.specs.FirstPlaces as spec;

use crate::notes::{note_calls, note_declared_in, note_externals_in, note_fixed_in, note_uses};
use crate::place::{Place, place_of};
use f_tree::{Body, Class, Stmt, Unit};
use name_table::{NameSet, NameTable};
use name_uses::add_statement_uses;
use std::alloc::{AllocError, Global};

/// The numbers of the statements where names stand first.
#[derive(Drop)]
pub struct NamePlaces<'a> {
    /// In any statement.
    pub mentioned: NameTable<'a, usize>,
    /// In a type statement, DIMENSION or COMMON. Section 5.1.
    pub declared: NameTable<'a, usize>,
    /// In a PARAMETER statement. Section 8.6.
    pub fixed: NameTable<'a, usize>,
    /// In an EXTERNAL statement or a CALL. Sections 8.7 and 15.6.
    pub procedures: NameTable<'a, usize>,
}

/// No names.
fn no_places<'a>(alloc: Global) -> NamePlaces<'a>
    ensures { (arrays : List (List ℕ)) → spec.AreFirst arrays [] result }
{
    NamePlaces {
        mentioned: NameTable::new(alloc),
        declared: NameTable::new(alloc),
        fixed: NameTable::new(alloc),
        procedures: NameTable::new(alloc),
    }
}

/// Notes the names of a statement.
fn note_statement<'a>(
    alloc: Global,
    arrays: &NameSet,
    places: &mut NamePlaces<'a>,
    at: usize,
    body: &'a Body,
) -> Result<(), AllocError>
    requires { IsNameSet arrays.now }
    ensures { OnOk result (spec.NotesStatement (names_in arrays.now) at places.old places.new body.now) }
{
    let mut uses = Vec::new(alloc);
    add_statement_uses(alloc, arrays, &mut uses, body)?;
    note_uses(&mut places.mentioned, at, uses.as_slice())?;
    note_declared_in(&mut places.declared, at, body)?;
    note_fixed_in(&mut places.fixed, at, body)?;
    note_externals_in(&mut places.procedures, at, body)?;
    note_calls(&mut places.procedures, at, uses.as_slice())
}

/// Where the names of statements stand first.
fn first_places<'a>(
    alloc: Global,
    arrays: &NameSet,
    statements: &'a [Stmt],
) -> Result<NamePlaces<'a>, AllocError>
    requires { IsNameSet arrays.now }
    ensures { IfOk result (λ places. spec.AreFirst (names_in arrays.now) statements.now places) }
{
    let mut places = no_places(alloc);
    for at in 0..statements.len() {
        note_statement(alloc, arrays, &mut places, at, &statements[at].body)?;
    }
    Ok(places)
}

/// Where the names of a unit stand first, given the names of its arrays. An error where memory ran out.
pub fn name_places<'a>(
    alloc: Global,
    arrays: &NameSet,
    unit: &'a Unit,
) -> Result<NamePlaces<'a>, AllocError>
    requires is_set { IsNameSet arrays.now }
    requires arrays { names_in arrays.now ≡ arrays_of unit.now }
    ensures { IfOk result (λ places. spec.ArePlaces unit.now places) }
{
    first_places(alloc, arrays, unit.statements.as_slice())
}

/// Where the rows of a name stand that tell of its type: at the first statement that mentions it, or at the first statement of the unit for the
/// unit's own names and its dummy arguments.
pub fn mention_place(unit: &Unit, places: &NamePlaces, is_in_head: bool, name: &[u8]) -> Place
    requires places { spec.ArePlaces unit.now places.now }
    requires is_in_head { is_in_head ≡ is_among name.now (own_names unit.now ++ all_dummies unit.now) }
    ensures { (kinds : List kind.Kind)
        → at_first unit.now (mentions unit.now name.now) (first_statements unit.now name.now) kinds ≡ spec.rows_at result kinds }
{
    if is_in_head {
        return place_of(unit, None);
    }
    place_of(unit, places.mentioned.get(name))
}

/// Where the rows of a name stand that tell of its dimensions: at the first statement that declares it.
pub fn declaration_place(unit: &Unit, places: &NamePlaces, name: &[u8]) -> Place
    requires { spec.ArePlaces unit.now places.now }
    ensures { (kinds : List kind.Kind) → at_first unit.now (declares name.now) unit.now.statements kinds ≡ spec.rows_at result kinds }
{
    place_of(unit, places.declared.get(name))
}

/// Where the rows of a constant stand: at the PARAMETER statement.
pub fn parameter_place(unit: &Unit, places: &NamePlaces, name: &[u8]) -> Place
    requires { spec.ArePlaces unit.now places.now }
    ensures { (kinds : List kind.Kind) → at_first unit.now (fixes name.now) unit.now.statements kinds ≡ spec.rows_at result kinds }
{
    place_of(unit, places.fixed.get(name))
}

/// The later of two numbers.
fn later_of(one: usize, other: usize) -> usize
    ensures { result ≡ max one other }
{
    if one < other { other } else { one }
}

/// The later of two statements, where both are there.
#[tactic(auto, unfolding(crate::specs::FirstPlaces::later))]
fn later(one: Option<usize>, other: Option<usize>) -> Option<usize>
    ensures { result ≡ spec.later one other }
{
    match (one, other) {
        (Some(one), Some(other)) => Some(later_of(one, other)),
        (None, _) | (_, None) => None,
    }
}

/// Where the rows of a name stand that has dimensions and is something that has none: at the first statement at which both are known.
pub fn conflict_place(unit: &Unit, places: &NamePlaces, class: Class, name: &[u8]) -> Place
    requires { spec.ArePlaces unit.now places.now }
    ensures { (kinds : List kind.Kind)
        → at_both unit.now (spec.makes_by unit.now name.now class) (declares name.now) unit.now.statements kinds ≡ spec.rows_at result kinds }
{
    let declared = places.declared.get(name);
    match class {
        Class::Constant => place_of(unit, later(places.fixed.get(name), declared)),
        Class::DummyProcedure => place_of(unit, later(places.procedures.get(name), declared)),
        Class::Stored | Class::Dummy | Class::Result => place_of(unit, declared),
        Class::StatementFunction | Class::Procedure => place_of(unit, declared),
        Class::Unit | Class::Intrinsic => place_of(unit, declared),
    }
}
