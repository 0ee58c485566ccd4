//! The fields of lists (C89, 3.3.2.3, and f2c.h).

ghost use Rattle.std.specs.Prelude.{◌≡◌, ◌<◌, option_map, IfSome};
ghost use Rattle.c_tree.specs.declared.types.ListType.TheVariants.{Transfer, Internal, Open, Close, Position};
ghost use Rattle.c_tree.specs.Access as accesses;
ghost use Rattle.run_bytes.specs.declared.access.FieldType.TheVariants as field;
ghost use Rattle.linked_terms.specs.ListFields.{name_of_field};
ghost use Rattle.linked_terms.specs.FieldNames.{name_in};
ghost use Rattle.term_values.specs.FoundFields.{found_of};

use c_tree::types::ListType;
use linked_terms::{FieldName, ListField};
use run_bytes::FieldType;

/// A field that was found: its number from 0, and what it holds.
#[derive(Clone, Copy)]
pub(crate) struct FoundField {
    pub(crate) number: usize,
    pub(crate) holds: FieldType,
}

/// A field that holds a number.
fn number(number: usize) -> FoundField
    ensures { result ≡ record { number = number; holds = field.Number } }
{
    FoundField {
        number,
        holds: FieldType::Number,
    }
}

/// A field that holds a pointer to a text.
fn text(number: usize) -> FoundField
    ensures { result ≡ record { number = number; holds = field.Text } }
{
    FoundField {
        number,
        holds: FieldType::Text,
    }
}

/// A field in `cilist`.
fn in_transfer(field: ListField) -> Option<FoundField>
    ensures named { option_map found_of result ≡ accesses.field_named (name_of_field field) Transfer }
    ensures within { IfSome result (λ found. found.number < 9) }
{
    match field {
        ListField::TransferError => Some(number(0)),
        ListField::TransferUnit => Some(number(1)),
        ListField::TransferEnd => Some(number(2)),
        ListField::TransferFormat => Some(text(3)),
        ListField::TransferRecord => Some(number(4)),
        _ => None,
    }
}

/// A field in `icilist`.
fn in_internal(field: ListField) -> Option<FoundField>
    ensures named { option_map found_of result ≡ accesses.field_named (name_of_field field) Internal }
    ensures within { IfSome result (λ found. found.number < 9) }
{
    match field {
        ListField::InternalError => Some(number(0)),
        ListField::InternalUnit => Some(text(1)),
        ListField::InternalEnd => Some(number(2)),
        ListField::InternalFormat => Some(text(3)),
        ListField::InternalLength => Some(number(4)),
        ListField::InternalCount => Some(number(5)),
        _ => None,
    }
}

/// A field in `olist`.
fn in_open(field: ListField) -> Option<FoundField>
    ensures named { option_map found_of result ≡ accesses.field_named (name_of_field field) Open }
    ensures within { IfSome result (λ found. found.number < 9) }
{
    match field {
        ListField::OpenError => Some(number(0)),
        ListField::OpenUnit => Some(number(1)),
        ListField::OpenFile => Some(text(2)),
        ListField::OpenFileLength => Some(number(3)),
        ListField::OpenStatus => Some(text(4)),
        ListField::OpenAccess => Some(text(5)),
        ListField::OpenForm => Some(text(6)),
        ListField::OpenLength => Some(number(7)),
        ListField::OpenBlank => Some(text(8)),
        _ => None,
    }
}

/// A field in `cllist`.
fn in_close(field: ListField) -> Option<FoundField>
    ensures named { option_map found_of result ≡ accesses.field_named (name_of_field field) Close }
    ensures within { IfSome result (λ found. found.number < 9) }
{
    match field {
        ListField::CloseError => Some(number(0)),
        ListField::CloseUnit => Some(number(1)),
        ListField::CloseStatus => Some(text(2)),
        _ => None,
    }
}

/// A field in `alist`.
fn in_position(field: ListField) -> Option<FoundField>
    ensures named { option_map found_of result ≡ accesses.field_named (name_of_field field) Position }
    ensures within { IfSome result (λ found. found.number < 9) }
{
    match field {
        ListField::PositionError => Some(number(0)),
        ListField::PositionUnit => Some(number(1)),
        _ => None,
    }
}

/// A field of control lists, where this list has it.
fn field_of(list: ListType, field: ListField) -> Option<FoundField>
    ensures named { option_map found_of result ≡ accesses.field_named (name_of_field field) list }
    ensures within { IfSome result (λ found. found.number < 9) }
{
    match list {
        ListType::Transfer => in_transfer(field),
        ListType::Internal => in_internal(field),
        ListType::Open => in_open(field),
        ListType::Close => in_close(field),
        ListType::Position => in_position(field),
    }
}

/// The field of a name, where the list has one.
#[tactic(auto, using(crate::proofs::FieldLaws::field_laws))]
pub(crate) fn field_named(list: ListType, name: &FieldName) -> Option<FoundField>
    ensures named { option_map found_of result ≡ accesses.field_named (name_in name.now) list }
    ensures within { IfSome result (λ found. found.number < 9) }
{
    match name {
        FieldName::Listed(field) => field_of(list, *field),
        FieldName::Unlisted(_) => None,
    }
}
