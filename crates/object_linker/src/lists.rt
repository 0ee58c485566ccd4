//! Lists of the library as they start (f2c.h).

ghost use Rattle.std.specs.Prelude.{◌≡◌, ◌++◌, map, IfOk, OnOk};
ghost use Rattle.c_tree.specs.Access as accesses;
ghost use Rattle.c_tree.specs.Access.{ToList};
ghost use Rattle.c_tree.specs.Declarations as tree;
ghost use Rattle.c_tree.specs.Objects.{Values};
ghost use Rattle.run_bytes.specs.Accesses.{field_kind};
ghost use Rattle.linked_programs.specs.LinkedPrograms.{object_of};
ghost use Rattle.expression_linker.specs.NamesInScope.{named_term, scope_of};
ghost use Rattle.object_linker.specs.FieldValues.{kind_of, values_by, value_by, strings_by};

use c_tree::declaration::CField;
use c_tree::outcome::CValue;
use c_tree::types::ListType;
use expression_linker::{NameScope, NamedThing};
use linked_programs::LinkedObject;
use plain_data::Items;
use run_bytes::FieldType;
use std::alloc::{AllocError, Global};

static TRANSFER: [FieldType; 5] = [
    FieldType::Number,
    FieldType::Number,
    FieldType::Number,
    FieldType::Text,
    FieldType::Number,
];

static INTERNAL: [FieldType; 6] = [
    FieldType::Number,
    FieldType::Text,
    FieldType::Number,
    FieldType::Text,
    FieldType::Number,
    FieldType::Number,
];

static OPEN: [FieldType; 9] = [
    FieldType::Number,
    FieldType::Number,
    FieldType::Text,
    FieldType::Number,
    FieldType::Text,
    FieldType::Text,
    FieldType::Text,
    FieldType::Number,
    FieldType::Text,
];

static CLOSE: [FieldType; 3] = [FieldType::Number, FieldType::Number, FieldType::Text];

static POSITION: [FieldType; 2] = [FieldType::Number, FieldType::Number];

/// What the fields of a list hold, in order.
fn kinds_of(list: ListType) -> &'static [FieldType]
    ensures { map field_kind result.now ≡ map kind_of (accesses.fields_of list) }
{
    match list {
        ListType::Transfer => &TRANSFER,
        ListType::Internal => &INTERNAL,
        ListType::Open => &OPEN,
        ListType::Close => &CLOSE,
        ListType::Position => &POSITION,
    }
}

/// A number that a field starts with: 0 in a pointer field is null.
fn field_number(kind: FieldType, number: i32) -> CValue
    ensures { result ≡ tree.field_number (field_kind kind) number }
{
    match kind {
        FieldType::Text if number == 0 => CValue::Null,
        _ => CValue::Number(number),
    }
}

/// What a name is as a constant: an array's start or a function.
fn constant_of(thing: NamedThing) -> Option<CValue>
    ensures { result ≡ tree.constant_of (named_term thing) }
{
    match thing {
        NamedThing::Array { object, .. } => Some(CValue::Pointer { object, offset: 0 }),
        NamedThing::Routine(number) => Some(CValue::Function(number)),
        _ => None,
    }
}

/// What a field starts with, where the next string has this number.
fn value_by(scope: &NameScope<'_>, next: usize, kind: FieldType, field: &CField) -> Option<CValue>
    ensures { result ≡ value_by (scope_of scope.now) next (field_kind kind) field.now }
{
    match field {
        CField::Number(number) => Some(field_number(kind, *number)),
        CField::Str(_) => Some(CValue::Pointer {
            object: next,
            offset: 0,
        }),
        CField::Name(name) => constant_of(scope.thing(name.as_slice())),
    }
}

/// The number of the string behind a field.
fn next_behind(next: usize, field: &CField) -> Result<usize, AllocError>
    ensures { IfOk result (λ behind. behind ≡ strings_by next field.now) }
{
    match field {
        CField::Str(_) => next.checked_add(1).ok_or(AllocError),
        CField::Number(_) | CField::Name(_) => Ok(next),
    }
}

/// Puts what fields start with behind others; those that are not written are 0 or null.
#[tactic(auto, using(std::proofs::lemmas::Grind::common_steps))]
fn put_values(
    out: &mut Items<Option<CValue>>,
    scope: &NameScope<'_>,
    next: usize,
    kinds: &[FieldType],
    fields: &[CField],
) -> Result<(), AllocError>
    ensures { OnOk result (out.new ≡ out.old ++ values_by (scope_of scope.now) next (map field_kind kinds.now) fields.now) }
{
    match (kinds, fields) {
        ([], _) => Ok(()),
        ([kind, kinds @ ..], []) => {
            out.push(Some(field_number(*kind, 0)))?;
            put_values(out, scope, next, kinds, fields)
        }
        ([kind, kinds @ ..], [field, fields @ ..]) => {
            out.push(value_by(scope, next, *kind, field))?;
            put_values(out, scope, next_behind(next, field)?, kinds, fields)
        }
    }
}

/// A list of the library, where the first of its strings has this number.
#[tactic(auto, using(crate::proofs::FieldLaws::field_laws))]
pub fn list_image(
    alloc: Global,
    scope: &NameScope<'_>,
    first: usize,
    holds: ListType,
    fields: &[CField],
) -> Result<LinkedObject, AllocError>
    ensures { IfOk result (λ made. object_of made ≡ Values (record { type = ToList holds; values = tree.field_values (scope_of scope.now) first (accesses.fields_of holds) fields.now })) }
{
    let mut values = Items::new(alloc);
    put_values(&mut values, scope, first, kinds_of(holds), fields)?;
    Ok(LinkedObject::List {
        holds,
        fields: values,
    })
}
