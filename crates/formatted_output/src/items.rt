//! The items of an output, each under the descriptor that it gets (ANSI X3.9-1978, 12.8.2, 12.9.5.2 and 13.3).

ghost use Rattle.std.specs.Prelude.{◌≡◌, Some};
ghost use Rattle.f2c_outside.specs.Rows.{rows_of};
ghost use Rattle.c_tree.specs.TransferOutput as transfers;
ghost use Rattle.c_tree.specs.TransferOutput.{item_under};
ghost use Rattle.edit_rules.specs.Walks.{StandsIn};
ghost use Rattle.edit_rules.specs.Writer.{value_of};
ghost use Rattle.run_bytes.specs.Answers.{answered};
ghost use Rattle.formatted_records.specs.Sheets.{descriptor_of};
ghost use Rattle.formatted_output.specs.Reaching.{Reaches};
ghost use Rattle.c_tree.specs.LibraryArguments as arguments;
ghost use Rattle.listed_output.specs.Items.{StandsThere};
ghost use Rattle.formatted_output.specs.Putting.{PutsItem, PutsItems, items_given, list_shown};

use crate::acts::{Stop, Turn, act, stop_by, turn_of};
use crate::calls::FormattedOutput;
use c_tree::outcome::{CFault, CValue};
use control_lists::{count_from, length_from, number_through};
use edit_rules::{FormatWalk, ListValue};
use f2c_outside::devices::Device;
use f2c_outside::unit_table::UnitTable;
use formatted_records::{Field, RecordSheet};
use run_bytes::RunBytes;

/// Does what the format gives before the descriptor of the next item, and gives that descriptor.
pub(crate) fn next_field(
    walk: &mut FormatWalk,
    sheet: &mut RecordSheet,
    units: &mut UnitTable,
    unit: i32,
    format: &[u8],
) -> Result<Field, Stop>
    requires { StandsIn walk.old format.now }
    ensures { Reaches format.now walk.old walk.new unit sheet.old sheet.new (rows_of (λ b. (⟦<dyn Device as Device>⟧ b.vtable).device_state b.value) units.old) (rows_of (λ b. (⟦<dyn Device as Device>⟧ b.vtable).device_state b.value) units.new) result }
{
    'edits: loop {
        let edit = walk.next(format, true);
        match turn_of(edit) {
            Turn::Takes(field) => return Ok(field),
            Turn::Acts => {
                if let Err(stop) = act(sheet, units, unit, format, edit) {
                    return Err(stop);
                }
            }
            Turn::Ends => return Err(Stop::Number(4)),
        }
    }
}

/// An integer; an item of other than four bytes is none.
fn integer_at(run: &RunBytes, pointer: CValue, size: usize) -> Result<ListValue<'_>, CFault>
    ensures { answered value_of result ≡ transfers.if_four size (transfers.item_at transfers.IntegerItem run.now pointer size) }
{
    if size != 4 {
        return Ok(ListValue::Text(&[]));
    }
    match number_through(run, pointer) {
        Ok(number) => Ok(ListValue::Int(number)),
        Err(fault) => Err(fault),
    }
}

/// A logical; an item of other than four bytes is none.
fn logical_at(run: &RunBytes, pointer: CValue, size: usize) -> Result<ListValue<'_>, CFault>
    ensures { answered value_of result ≡ transfers.if_four size (transfers.item_at transfers.LogicalItem run.now pointer size) }
{
    if size != 4 {
        return Ok(ListValue::Text(&[]));
    }
    match number_through(run, pointer) {
        Ok(number) => Ok(ListValue::Logical(number != 0)),
        Err(fault) => Err(fault),
    }
}

/// The value of the item that a pointer points to, under its descriptor.
///
/// # Errors
/// The first fault of the item.
pub fn value_under(
    run: &RunBytes,
    field: Field,
    pointer: CValue,
    size: usize,
) -> Result<ListValue<'_>, CFault>
    ensures { answered value_of result ≡ item_under (Some (descriptor_of field)) run.now pointer size }
{
    match field {
        Field::Int { .. } => integer_at(run, pointer, size),
        Field::Logical { .. } => logical_at(run, pointer, size),
        Field::Text { .. } => match run.text(pointer, size) {
            Ok(text) => Ok(ListValue::Text(text)),
            Err(fault) => Err(fault),
        },
    }
}

/// Puts one item: what the format gives before its descriptor is done, then the item is fetched and written in its field.
pub(crate) fn put_item(
    output: &mut FormattedOutput,
    units: &mut UnitTable,
    format: &[u8],
    run: &RunBytes,
    pointer: CValue,
    size: usize,
) -> Result<(), Stop>
    requires { StandsIn output.old.walk format.now }
    ensures { PutsItem format.now output.old output.new run.now pointer size (rows_of (λ b. (⟦<dyn Device as Device>⟧ b.vtable).device_state b.value) units.old) (rows_of (λ b. (⟦<dyn Device as Device>⟧ b.vtable).device_state b.value) units.new) result }
{
    match next_field(
        &mut output.walk,
        &mut output.sheet,
        units,
        output.unit,
        format,
    ) {
        Ok(field) => match value_under(run, field, pointer, size) {
            Ok(value) => match output.sheet.field(field, value) {
                Ok(()) => Ok(()),
                Err(halt) => Err(stop_by(halt)),
            },
            Err(fault) => Err(Stop::Fault(fault)),
        },
        Err(stop) => Err(stop),
    }
}

/// The number of the items of a call, and the bytes of one.
#[derive(Clone, Copy)]
pub struct ItemList {
    /// How many items there are.
    pub count: usize,
    /// The bytes of one.
    pub size: usize,
}

/// What a call says of its items: a pointer to their count, and the length of one.
///
/// # Errors
/// The first fault of these arguments.
pub fn item_list(run: &RunBytes, count: CValue, size: CValue) -> Result<ItemList, CFault>
    ensures { answered list_shown result ≡ items_given run.now count size }
{
    let number = number_through(run, count)?;
    let count = count_from(number)?;
    let size = length_from(size)?;
    Ok(ItemList { count, size })
}

/// A pointer behind an item that is there. An empty text may stand anywhere.
pub fn behind(run: &RunBytes, pointer: CValue, size: usize) -> CValue
    ensures { StandsThere size run.now pointer → result ≡ arguments.shifted size pointer }
{
    match pointer {
        CValue::Pointer { object, offset } => match run.extent(object) {
            Some(extent) if offset < extent && size <= extent - offset => CValue::Pointer {
                object,
                offset: offset + size,
            },
            _ => pointer,
        },
        other => other,
    }
}

/// Puts so many items that stand one behind the other, each before the next.
pub(crate) fn put_items(
    output: &mut FormattedOutput,
    units: &mut UnitTable,
    format: &[u8],
    run: &RunBytes,
    list: ItemList,
    first: CValue,
) -> Result<(), Stop>
    requires { StandsIn output.old.walk format.now }
    ensures { PutsItems format.now output.old output.new run.now list.count list.size first (rows_of (λ b. (⟦<dyn Device as Device>⟧ b.vtable).device_state b.value) units.old) (rows_of (λ b. (⟦<dyn Device as Device>⟧ b.vtable).device_state b.value) units.new) result }
{
    let mut pointer = first;
    'items: for _ in 0..list.count {
        match put_item(output, units, format, run, pointer, list.size) {
            Ok(()) => pointer = behind(run, pointer, list.size),
            Err(stop) => return Err(stop),
        }
    }
    Ok(())
}
