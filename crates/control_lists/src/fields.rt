//! The list that an argument points to, and its fields by their numbers from 0 (C89, 3.3.2.3; f2c.h).

ghost use Rattle.std.specs.Prelude.{◌≡◌, bytes_eq, option_map};
ghost use Rattle.c_tree.specs.declared.outcome.CValue.TheVariants.{Pointer};
ghost use Rattle.c_tree.specs.Access.{TextField};
ghost use Rattle.c_tree.specs.CWords.{list_word};
ghost use Rattle.c_tree.specs.LibraryArguments as arguments;
ghost use Rattle.run_bytes.specs.Accesses.{access_of, field_kind};
ghost use Rattle.run_bytes.specs.Answers.{answered};
ghost use Rattle.control_lists.specs.Fields.{is_list_of, start_of, list_place, field_held, number_held};

use crate::values::as_number;
use c_tree::outcome::{CFault, CValue};
use c_tree::types::ListType;
use run_bytes::{AccessType, FieldType, RunBytes};

/// Whether two types of lists are one.
fn is_same(one: ListType, other: ListType) -> bool
    ensures { result ≡ bytes_eq (list_word one) (list_word other) }
{
    matches!(
        (one, other),
        (ListType::Transfer, ListType::Transfer)
            | (ListType::Internal, ListType::Internal)
            | (ListType::Open, ListType::Open)
            | (ListType::Close, ListType::Close)
            | (ListType::Position, ListType::Position)
    )
}

/// Whether an object of values is a list of a type, by the type of what it holds.
fn is_list(wanted: ListType, held: Option<AccessType>) -> bool
    ensures { result ≡ is_list_of wanted (option_map access_of held) }
{
    match held {
        Some(AccessType::List(list)) => is_same(wanted, list),
        _ => false,
    }
}

/// The object of a list, where a pointer into it points to its start.
fn start_of(object: usize, offset: usize, size: usize) -> Result<usize, CFault>
    ensures { answered (λ start. start) result ≡ start_of object offset size }
{
    if offset == 0 {
        Ok(object)
    } else if offset == size {
        Err(CFault::Outside)
    } else {
        Err(CFault::Kind)
    }
}

/// The object of the list of a type whose start stands at an offset of an object.
fn list_in(run: &RunBytes, wanted: ListType, object: usize, offset: usize) -> Result<usize, CFault>
    ensures { answered (list_place wanted) result ≡ arguments.list_at run.now wanted (Pointer object offset) }
{
    match run.extent(object) {
        Some(size) => {
            if is_list(wanted, run.held_type(object)) {
                start_of(object, offset, size)
            } else {
                Err(CFault::Kind)
            }
        }
        None => Err(CFault::Outside),
    }
}

/// The object of the list of a type that a pointer points to: a list begins where its object does.
pub(crate) fn list_at(run: &RunBytes, wanted: ListType, pointer: CValue) -> Result<usize, CFault>
    ensures { answered (list_place wanted) result ≡ arguments.list_at run.now wanted pointer }
{
    match pointer {
        CValue::Pointer { object, offset } => list_in(run, wanted, object, offset),
        CValue::Null => Err(CFault::Outside),
        _ => Err(CFault::Kind),
    }
}

/// What the field of a number in a list holds.
pub(crate) fn field(
    run: &RunBytes,
    list: usize,
    number: usize,
    holds: FieldType,
) -> Result<CValue, CFault>
    ensures { answered (λ value. value) result ≡ field_held (field_kind holds) run.now list number }
{
    let at = CValue::Pointer {
        object: list,
        offset: number,
    };
    match run.fetch(at, AccessType::Field(holds)) {
        Ok(typed) => Ok(typed.value),
        Err(fault) => Err(fault),
    }
}

/// The number that a field of a list holds.
pub(crate) fn number_field(run: &RunBytes, list: usize, number: usize) -> Result<i32, CFault>
    ensures { answered (λ number. number) result ≡ number_held run.now list number }
{
    match field(run, list, number, FieldType::Number) {
        Ok(value) => as_number(value),
        Err(fault) => Err(fault),
    }
}

/// The pointer to a text that a field of a list holds, or null.
pub(crate) fn text_field(run: &RunBytes, list: usize, number: usize) -> Result<CValue, CFault>
    ensures { answered (λ value. value) result ≡ field_held TextField run.now list number }
{
    field(run, list, number, FieldType::Text)
}
