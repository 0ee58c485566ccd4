//! The types of names. Sections 4.1.2, 8.4, 8.5 and 15.5.1.
#![tactic(auto)]

ghost use Rattle.std.specs.Prelude.{◌≡◌, ◌∷◌, [], List, OnOk, IfOk, Some, None, map, option_map};
ghost use Rattle.f_tree.specs.declared.statements.Declarator as declarator;
ghost use Rattle.f_tree.specs.Attributes as written;
ghost use Rattle.f_tree.specs.Attributes.{typed_in, typed_by};
ghost use Rattle.declared_types.specs.TypeTables as spec;

use crate::implied::{implicit_groups, implied};
use f_tree::{
    Basic, Body, Declarator, ImplicitGroup, LengthSpec, Stmt, Text, TypeSpec, Unit, UnitKind,
};
use name_table::NameTable;
use std::alloc::{AllocError, Global};

/// A type with the length that counts.
#[derive(Clone, Copy)]
pub struct DeclaredType<'a> {
    pub basic: Basic,
    pub length: Option<&'a LengthSpec>,
}

/// The types that the statements of a unit give.
#[derive(Drop)]
pub struct Types<'a> {
    /// By name, in type statements. Section 8.4.
    pub declared: NameTable<'a, DeclaredType<'a>>,
    /// By first letters, in IMPLICIT statements. Section 8.5.
    pub implicit: Vec<&'a ImplicitGroup>,
}

/// A length that may be there.
fn length_of(length: &Option<LengthSpec>) -> Option<&LengthSpec>
    ensures { option_map (λ one. one.now) result ≡ length.now }
{
    match length {
        Some(length) => Some(length),
        None => None,
    }
}

/// A type as it is written.
#[tactic(auto, unfolding(f_tree::specs::Attributes::typed_by, crate::specs::TypeTables::plain_type, crate::specs::TypeTables::typed_of))]
pub(crate) fn written_type(written: &TypeSpec) -> DeclaredType
    ensures { spec.typed_of result ≡ spec.plain_type written.now }
{
    DeclaredType {
        basic: written.basic,
        length: length_of(&written.length),
    }
}

/// The type of a name in a type statement: the length behind the name counts.
#[tactic(auto, unfolding(f_tree::specs::Attributes::typed_by, crate::specs::TypeTables::typed_of))]
fn item_type<'a>(written: &'a TypeSpec, item: &'a Declarator) -> DeclaredType<'a>
    ensures { spec.typed_of result ≡ typed_by written.now item.now.length }
{
    match &item.length {
        Some(length) => DeclaredType {
            basic: written.basic,
            length: Some(length),
        },
        None => written_type(written),
    }
}

/// Notes the type of a name that has none yet.
fn note_item<'a>(
    types: &mut NameTable<'a, DeclaredType<'a>>,
    written: &'a TypeSpec,
    item: &'a Declarator,
) -> Result<(), AllocError>
    ensures { OnOk result (spec.NotesTypes types.old types.new (record { spec = written.now; item = item.now } ∷ [])) }
{
    let name = item.name.as_slice();
    match types.get(name) {
        Some(_) => Ok(()),
        None => types.put(name, item_type(written, item)),
    }
}

/// Notes the types in a type statement.
fn note_items<'a>(
    types: &mut NameTable<'a, DeclaredType<'a>>,
    written: &'a TypeSpec,
    items: &'a [Declarator],
) -> Result<(), AllocError>
    ensures { OnOk result (spec.NotesTypes types.old types.new (map (λ (i : declarator.Declarator). record { spec = written.now; item = i }) items.now)) }
{
    for item in items {
        note_item(types, written, item)?;
    }
    Ok(())
}

/// Notes the types in a statement.
fn note_types_in<'a>(
    types: &mut NameTable<'a, DeclaredType<'a>>,
    body: &'a Body,
) -> Result<(), AllocError>
    ensures { OnOk result (spec.NotesTypes types.old types.new (typed_in body.now)) }
{
    match body {
        Body::Declare(written, items) => note_items(types, written, items.as_slice()),
        _ => Ok(()),
    }
}

/// The types of the names of type statements.
fn types_among<'a>(
    alloc: Global,
    statements: &'a [Stmt],
) -> Result<NameTable<'a, DeclaredType<'a>>, AllocError>
    ensures { IfOk result (λ types. spec.AreTypesAmong statements.now types) }
{
    let mut types = NameTable::new(alloc);
    for statement in statements {
        note_types_in(&mut types, &statement.body)?;
    }
    Ok(types)
}

/// The types that the statements of a unit give. An error where memory ran out.
pub fn unit_types<'a>(alloc: Global, unit: &'a Unit) -> Result<Types<'a>, AllocError>
    ensures { IfOk result (λ types. spec.AreTypes unit.now types) }
{
    let declared = types_among(alloc, unit.statements.as_slice())?;
    let implicit = implicit_groups(alloc, unit.statements.as_slice())?;
    Ok(Types { declared, implicit })
}

/// A type, if it is one that has values.
#[tactic(auto, unfolding(crate::specs::TypeTables::typed_spec))]
fn typed_spec(written: &TypeSpec) -> Option<&TypeSpec>
    ensures { option_map (λ one. one.now) result ≡ spec.typed_spec written.now }
{
    match written.basic {
        Basic::Integer | Basic::Logical | Basic::Character => Some(written),
        Basic::Untyped => None,
    }
}

/// The type before FUNCTION, if the name is that of the function.
#[tactic(auto, unfolding(crate::specs::TypeTables::named_type))]
fn named_type<'a>(written: &'a TypeSpec, own: &Option<Text>, name: &[u8]) -> Option<&'a TypeSpec>
    ensures { option_map (λ one. one.now) result ≡ spec.named_type written.now own.now name.now }
{
    match own {
        Some(own) => {
            if name == own.as_slice() {
                return typed_spec(written);
            }
            None
        }
        None => None,
    }
}

/// The type that the FUNCTION statement writes for a name that no type statement has. Section 15.5.1.
#[tactic(auto, unfolding(f_tree::specs::Attributes::heading_type, crate::specs::TypeTables::named_type, crate::specs::TypeTables::typed_spec))]
fn heading_type<'a>(unit: &'a Unit, name: &[u8]) -> Option<&'a TypeSpec>
    ensures { option_map (λ one. one.now) result ≡ written.heading_type unit.now name.now None }
{
    match &unit.kind {
        UnitKind::Function(written) => named_type(written, &unit.name, name),
        UnitKind::Main | UnitKind::Subroutine | UnitKind::BlockData => None,
    }
}

/// The type of a name by its first letter; none for a letter that has no type.
#[tactic(auto, unfolding(crate::specs::TypeTables::implied_type, crate::specs::TypeTables::type_else, crate::specs::TypeTables::no_type, crate::specs::TypeTables::typed_of))]
fn implied_type<'a>(unit: &Unit, types: &Types<'a>, name: &[u8]) -> DeclaredType<'a>
    requires { spec.AreTypes unit.now types.now }
    ensures { spec.typed_of result ≡ spec.implied_type unit.now name.now }
{
    match implied(types.implicit.as_slice(), name) {
        Some(one) => one,
        None => DeclaredType {
            basic: Basic::Untyped,
            length: None,
        },
    }
}

/// The type of a name that no type statement has.
#[tactic(auto, unfolding(crate::specs::TypeTables::undeclared_type, crate::specs::TypeTables::type_else, crate::specs::TypeTables::plain_type))]
fn undeclared_type<'a>(unit: &'a Unit, types: &Types<'a>, name: &[u8]) -> DeclaredType<'a>
    requires { spec.AreTypes unit.now types.now }
    ensures { spec.typed_of result ≡ spec.undeclared_type unit.now name.now }
{
    match heading_type(unit, name) {
        Some(written) => written_type(written),
        None => implied_type(unit, types, name),
    }
}

/// The type of a name of a unit, with the length that counts. Sections 4.1.2, 8.4, 8.5 and 15.5.1.
pub fn typed_name<'a>(unit: &'a Unit, types: &Types<'a>, name: &[u8]) -> DeclaredType<'a>
    requires { spec.AreTypes unit.now types.now }
    ensures { spec.typed_of result ≡ written.typed_name unit.now name.now }
{
    match types.declared.get(name) {
        Some(one) => one,
        None => undeclared_type(unit, types, name),
    }
}
