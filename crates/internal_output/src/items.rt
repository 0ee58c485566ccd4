//! The items of a call, which may stand in the internal file itself: their bytes are gathered in a buffer (ANSI X3.9-1978, 12.8.2).

ghost use Rattle.std.specs.Prelude.{◌≡◌, true, ◌+◌, ◌≤◌, ◌++◌, length, take, IfOk};
ghost use Rattle.c_tree.specs.Objects as objects;
ghost use Rattle.c_tree.specs.TransferOutput as output;
ghost use Rattle.run_bytes.specs.Answers.{answered};
ghost use Rattle.edit_rules.specs.Writer.{value_of};
ghost use Rattle.library_calls.specs.Room.{HasRoom};
ghost use Rattle.listed_output.specs.Kinds.{kind_shown, has_size};
ghost use Rattle.internal_output.specs.Items.{value_in, AreGathered, IsReady};

use c_tree::outcome::{CFault, CValue};
use edit_rules::ListValue;
use listed_output::{ItemList, ItemType, behind, item_at, item_list};
use run_bytes::RunBytes;

/// The bytes of the item that a pointer points to.
fn item_bytes(run: &RunBytes, kind: ItemType, pointer: CValue, size: usize) -> Result<&[u8], CFault>
    requires { has_size (kind_shown kind) size ≡ true }
    ensures value { answered (λ bytes. value_in (kind_shown kind) bytes.now) result ≡ output.item_at (kind_shown kind) run.now pointer size }
    ensures size { IfOk result (λ bytes. length bytes.now ≡ size) }
{
    match item_at(run, kind, pointer, size) {
        Ok(_) => run.text(pointer, size),
        Err(fault) => Err(fault),
    }
}

/// Bytes behind those that stand at the front of a buffer.
pub fn put_behind(buffer: &mut [u8], used: usize, bytes: &[u8])
    requires { used + length bytes.now ≤ length buffer.old }
    ensures { take (used + length bytes.now) buffer.new ≡ take used buffer.old ++ bytes.now }
{
    buffer[used..used + bytes.len()].copy_from_slice(bytes);
}

/// The bytes of all items of a call, one behind the other, at the front of a buffer, which is as long as the largest object. It gives how
/// many these are.
fn gather(run: &RunBytes, buffer: &mut [u8], list: ItemList, first: CValue) -> Result<usize, CFault>
    requires { HasRoom (length buffer.old) run.now }
    ensures { AreGathered list (output.items_at (kind_shown list.kind) run.now list.size list.count first) buffer.new result }
{
    let mut pointer = first;
    let mut used = 0;
    for _ in 0..list.count {
        match item_bytes(run, list.kind, pointer, list.size) {
            Ok(bytes) => {
                put_behind(buffer, used, bytes);
                used += list.size;
                pointer = behind(run, pointer, list.size);
            }
            Err(fault) => return Err(fault),
        }
    }
    Ok(used)
}

/// What a call says of its items, whose bytes are gathered in a buffer, and how many bytes these are. The buffer is as long as the largest
/// object.
pub(crate) fn ready_items(
    run: &RunBytes,
    buffer: &mut [u8],
    kind: CValue,
    count: CValue,
    first: CValue,
    size: CValue,
) -> Result<(ItemList, usize), CFault>
    requires { HasRoom (length buffer.old) run.now }
    ensures { IsReady run.now kind count first size buffer.new result }
{
    match item_list(run, kind, count, size) {
        Ok(list) => match gather(run, buffer, list, first) {
            Ok(used) => Ok((list, used)),
            Err(fault) => Err(fault),
        },
        Err(fault) => Err(fault),
    }
}

/// The number in four bytes, the low one first.
fn number_in(bytes: &[u8]) -> i32
    requires { length bytes.now ≡ 4 }
    ensures { result ≡ objects.number_from bytes.now }
{
    match bytes {
        [first, second, third, last] => i32::from_le_bytes([*first, *second, *third, *last]),
        _ => unreachable!(),
    }
}

/// The value of the item that stands in some bytes.
pub(crate) fn item_in(kind: ItemType, bytes: &[u8]) -> ListValue<'_>
    requires { has_size (kind_shown kind) (length bytes.now) ≡ true }
    ensures { value_of result ≡ value_in (kind_shown kind) bytes.now }
{
    match kind {
        ItemType::Integer => ListValue::Int(number_in(bytes)),
        ItemType::Logical => ListValue::Logical(number_in(bytes) != 0),
        ItemType::Text => ListValue::Text(bytes),
    }
}
