//! The items of a call, which stand one behind the other (ANSI X3.9-1978, 12.8.2).

ghost use Rattle.std.specs.Prelude.{◌≡◌, true, IfOk};
ghost use Rattle.c_tree.specs.TransferOutput as output;
ghost use Rattle.c_tree.specs.LibraryArguments as arguments;
ghost use Rattle.run_bytes.specs.Answers.{answered};
ghost use Rattle.edit_rules.specs.Writer.{value_of};
ghost use Rattle.listed_output.specs.Items.{list_shown, items_given, StandsThere, AreThere};
ghost use Rattle.listed_output.specs.Kinds.{kind_shown, has_size};

use crate::kinds::{ItemList, ItemType};
use c_tree::outcome::{CFault, CValue};
use control_lists::{count_from, length_from, number_through};
use edit_rules::ListValue;
use run_bytes::RunBytes;

/// The kind that a number stands for.
fn item_type(number: i32) -> Result<ItemType, CFault>
    ensures { answered kind_shown result ≡ output.item_kind number }
{
    match number {
        3 => Ok(ItemType::Integer),
        8 => Ok(ItemType::Logical),
        9 => Ok(ItemType::Text),
        _ => Err(CFault::Library),
    }
}

/// The bytes of an item, which are four unless it is a text.
fn item_size(kind: ItemType, size: usize) -> Result<usize, CFault>
    ensures size { answered (λ size. size) result ≡ output.item_length (kind_shown kind) size }
    ensures has { IfOk result (λ size. has_size (kind_shown kind) size ≡ true) }
{
    match kind {
        ItemType::Text => Ok(size),
        _ => {
            if size == 4 {
                Ok(size)
            } else {
                Err(CFault::Library)
            }
        }
    }
}

/// What a call says of its items: pointers to the number of their kind and to their count, and the length of one.
///
/// # Errors
/// The fault of an access, `Library` for another kind, a negative count or length, and a length of a number other than four, `Kind` for a
/// length that is no number.
pub fn item_list(
    run: &RunBytes,
    kind: CValue,
    count: CValue,
    size: CValue,
) -> Result<ItemList, CFault>
    ensures { answered list_shown result ≡ items_given run.now kind count size }
{
    let kind_number = number_through(run, kind)?;
    let count_number = number_through(run, count)?;
    let kind = item_type(kind_number)?;
    let count = count_from(count_number)?;
    let given = length_from(size)?;
    let size = item_size(kind, given)?;
    Ok(ItemList { kind, count, size })
}

/// The value of the item that a pointer points to.
///
/// # Errors
/// The fault of the access.
pub fn item_at(
    run: &RunBytes,
    kind: ItemType,
    pointer: CValue,
    size: usize,
) -> Result<ListValue<'_>, CFault>
    ensures { answered value_of result ≡ output.item_at (kind_shown kind) run.now pointer size }
{
    match kind {
        ItemType::Integer => match number_through(run, pointer) {
            Ok(number) => Ok(ListValue::Int(number)),
            Err(fault) => Err(fault),
        },
        ItemType::Logical => match number_through(run, pointer) {
            Ok(number) => Ok(ListValue::Logical(number != 0)),
            Err(fault) => Err(fault),
        },
        ItemType::Text => match run.text(pointer, size) {
            Ok(text) => Ok(ListValue::Text(text)),
            Err(fault) => Err(fault),
        },
    }
}

/// A pointer behind an item that is there. An empty text may stand anywhere.
pub fn behind(run: &RunBytes, pointer: CValue, size: usize) -> CValue
    requires { StandsThere size run.now pointer }
    ensures { result ≡ arguments.shifted size pointer }
{
    match pointer {
        CValue::Pointer { object, offset } => match run.extent(object) {
            Some(extent) if offset < extent => CValue::Pointer {
                object,
                offset: offset + size,
            },
            _ => pointer,
        },
        other => other,
    }
}

/// Whether all items of a call can be fetched.
pub(crate) fn all_there(run: &RunBytes, list: ItemList, first: CValue) -> Result<(), CFault>
    ensures { AreThere (output.items_at (kind_shown list.kind) run.now list.size list.count first) result }
{
    let mut pointer = first;
    for _ in 0..list.count {
        match item_at(run, list.kind, pointer, list.size) {
            Ok(_) => pointer = behind(run, pointer, list.size),
            Err(fault) => return Err(fault),
        }
    }
    Ok(())
}
