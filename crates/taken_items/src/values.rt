//! Items in their fields, and their values, which are stored where they stand (ANSI X3.9-1978, 13.5.9 to 13.5.11).

ghost use Rattle.std.specs.Prelude.{◌≡◌, ◌≤◌, ◌<◌, ◌+◌, ◌-◌, ◌^◌, ◌++◌, length, replicate, pos, true, false, Some, OnOk, if◌then◌else◌};
ghost use Rattle.c_tree.specs.declared.outcome.CValue.TheVariants as values;
ghost use Rattle.c_tree.specs.LibraryArguments as arguments;
ghost use Rattle.c_tree.specs.TransferInput.{wanted_under};
ghost use Rattle.item_deeds.specs.Forms.{SameForms};
ghost use Rattle.listed_output.specs.Items.{StandsThere};
ghost use Rattle.formatted_records.specs.Sheets.{descriptor_of};
ghost use Rattle.taken_records.specs.Records.{want_of, value_in};
ghost use Rattle.taken_items.specs.Storing.{ComesTo, IsNear, HasRoom, PadsBehind, IsSized, IsWanted, GivesValue};
ghost use Rattle.taken_items.specs.Taking.{TakesItem};

use c_tree::outcome::{CFault, CValue};
use formatted_records::Field;
use run_bytes::{AccessType, RunBytes};
use taken_records::{Halt, RecordInput, Taken, Want};

/// Why an item gets no value.
#[derive(Clone, Copy)]
pub enum ItemHalt {
    /// Its field halts the input.
    Halts(Halt),
    /// Its value cannot be stored.
    Fault(CFault),
}

/// A pointer to what stands so many bytes behind.
fn place_behind(pointer: CValue, distance: usize) -> CValue
    requires { IsNear distance pointer }
    ensures { result ≡ arguments.shifted distance pointer }
{
    match pointer {
        CValue::Pointer { object, offset } => CValue::Pointer {
            object,
            offset: offset + distance,
        },
        other => other,
    }
}

/// Whether so many bytes from an offset on stand within an object; no bytes do so everywhere.
fn fits(extent: usize, offset: usize, size: usize) -> bool
    ensures within { result ≡ true → 0 < size → offset + size ≤ extent }
    ensures past { result ≡ false → (0 < size) × (extent < offset + size) }
{
    size == 0 || (offset <= extent && size <= extent - offset)
}

/// Why so many bytes from an offset of an object on cannot be stored: they do not stand within it.
fn place_fault(run: &RunBytes, object: usize, offset: usize, size: usize) -> Option<CFault>
    ensures { HasRoom run.now (values.Pointer object offset) size result }
{
    let extent = run.extent(object).unwrap_or(0);
    if fits(extent, offset, size) {
        return None;
    }
    match run.held_type(object) {
        Some(_) => Some(CFault::Kind),
        None => Some(CFault::Outside),
    }
}

/// Why so many bytes cannot be stored where a pointer points to. None where it points to no object: then the store itself says why.
fn room_fault(run: &RunBytes, pointer: CValue, size: usize) -> Option<CFault>
    ensures { HasRoom run.now pointer size result }
{
    match pointer {
        CValue::Pointer { object, offset } => place_fault(run, object, offset, size),
        _ => None,
    }
}

/// Stores blanks behind the bytes of a text that are done.
fn put_blanks(run: &mut RunBytes, pointer: CValue, done: usize, blanks: usize) -> Result<(), CFault>
    requires near { IsNear (done + blanks) pointer }
    requires small { done + blanks < 2 ^ 64 }
    ensures pads { PadsBehind pointer done blanks run.old run.new result }
    ensures forms { SameForms run.old run.new }
{
    let filler = [b' '; 64];
    let mut filled = 0;
    while filled < blanks {
        let count = usize::min(blanks - filled, filler.len());
        let place = place_behind(pointer, done + filled);
        match run.put_text(place, &filler[..count]) {
            Ok(()) => filled += count,
            Err(fault) => return Err(fault),
        }
    }
    Ok(())
}

/// Stores a text, and blanks behind it up to a length.
fn put_padded(run: &mut RunBytes, pointer: CValue, text: &[u8], size: usize) -> Result<(), CFault>
    requires { length text.now ≤ size }
    ensures puts { ComesTo (arguments.text_stored run.old pointer (text.now ++ replicate (size - length text.now) 32)) run.new result }
    ensures there { OnOk result (StandsThere size run.old pointer) }
    ensures forms { SameForms run.old run.new }
{
    match room_fault(run, pointer, size) {
        None => match run.put_text(pointer, text) {
            Ok(()) => put_blanks(run, pointer, text.len(), size - text.len()),
            Err(fault) => Err(fault),
        },
        Some(fault) => Err(fault),
    }
}

/// The number of a logical.
fn number_of(truth: bool) -> i32
    ensures { result ≡ (if truth then pos 1 else pos 0) }
{
    if truth { 1 } else { 0 }
}

/// Gives an item a value that its record gave.
fn give(
    run: &mut RunBytes,
    record: &RecordInput,
    taken: Taken,
    pointer: CValue,
    size: usize,
) -> Result<(), CFault>
    requires { IsSized size taken }
    ensures gives { GivesValue (value_in record.now taken) pointer size run.old run.new result }
    ensures there { OnOk result (StandsThere size run.old pointer) }
    ensures forms { SameForms run.old run.new }
{
    match taken {
        Taken::Int(number) => run.store(pointer, AccessType::Number, CValue::Number(number)),
        Taken::Logical(truth) => run.store(
            pointer,
            AccessType::Number,
            CValue::Number(number_of(truth)),
        ),
        Taken::Text { from, to, .. } => put_padded(run, pointer, record.characters(from, to), size),
    }
}

/// What an item of so many bytes wants under the descriptor that it gets: an item of other than four bytes is a text.
fn want_under(field: Field, size: usize) -> Want
    ensures wants { want_of result ≡ wanted_under (Some (descriptor_of field)) size }
    ensures sized { IsWanted size result }
{
    match field {
        Field::Int { .. } if size == 4 => Want::Int,
        Field::Logical { .. } if size == 4 => Want::Logical,
        _ => Want::Text(size),
    }
}

/// Gives an item of so many bytes the value of its field in a record, behind which the position stands.
///
/// # Errors
/// Why the field halts the input, which then stays as it was; or the fault of the item.
pub fn take_item(
    record: &mut RecordInput,
    run: &mut RunBytes,
    field: Field,
    pointer: CValue,
    size: usize,
) -> Result<(), ItemHalt>
    ensures takes { TakesItem (descriptor_of field) pointer size record.old record.new run.old run.new result }
    ensures there { OnOk result (StandsThere size run.old pointer) }
    ensures forms { SameForms run.old run.new }
{
    match record.take(field, want_under(field, size)) {
        Ok(taken) => match give(run, record, taken, pointer, size) {
            Ok(()) => Ok(()),
            Err(fault) => Err(ItemHalt::Fault(fault)),
        },
        Err(halt) => Err(ItemHalt::Halts(halt)),
    }
}
