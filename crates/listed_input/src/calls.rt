//! The calls of list-directed input on a unit (ANSI X3.9-1978, 12.8 and 13.6.1).

ghost use Rattle.std.specs.Prelude.{◌≡◌, List, [], ◌∷◌};
ghost use Rattle.c_tree.specs.Objects.{Object};
ghost use Rattle.f2c_outside.specs.Rows.{rows_of};
ghost use Rattle.item_deeds.specs.Forms.{SameForms};
ghost use Rattle.listed_input.specs.Transferring.{AnswersStart, AnswersItems, AnswersEnd, AnswersReading, start_of};
ghost use Rattle.listed_input.specs.Giving.{GivesItem, GivesItems};

use crate::ends::{InputEnd, ItemEnd, ItemRead, ended};
use crate::items::read_item;
use crate::kinds::Item;
use crate::reading::{LONGEST, RecordInReading};
use crate::records::{NextRecord, fetch};
use crate::texts::place_behind;
use c_tree::outcome::CValue;
use control_lists::{UnitControl, unit_control};
use edit_rules::ListReader;
use f2c_outside::devices::Device;
use f2c_outside::unit_table::UnitTable;
use listed_output::{ItemList, Passage, item_list};
use run_bytes::RunBytes;
use unit_answers::{CallEnd, numbered};

/// A list-directed input on a unit that is in progress.
#[derive(Clone, Copy)]
pub struct ListedInput {
    unit: i32,
    on_error: i32,
    on_end: i32,
    slashed: bool,
    reading: RecordInReading,
}

/// What a start does that meets no fault.
#[derive(Clone, Copy)]
pub enum Start {
    /// A transfer begins, and the call answers 0.
    Begins(ListedInput),
    /// The call answers this number of an error or of the end of the file, and no transfer begins.
    Answers(i32),
}

/// A start by a number that its caller gets, with which no transfer begins.
fn not_begun(answer: Result<i32, CallEnd>) -> Result<Start, CallEnd>
    ensures { result ≡ start_of answer }
{
    match answer {
        Ok(number) => Ok(Start::Answers(number)),
        Err(end) => Err(end),
    }
}

/// Begins an input on a unit that is connected: its first record is read.
fn begin_reading(units: &mut UnitTable, control: UnitControl) -> Result<Start, CallEnd>
    requires { Unit {0} }
    ensures { (objects : List Object) → AnswersReading control objects (rows_of (λ b. (⟦<dyn Device as Device>⟧ b.vtable).device_state b.value) units.old) (rows_of (λ b. (⟦<dyn Device as Device>⟧ b.vtable).device_state b.value) units.new) result }
{
    let mut line = [b' '; LONGEST];
    match fetch(units, control.unit, &mut line) {
        NextRecord::Record(used) => Ok(Start::Begins(ListedInput {
            unit: control.unit,
            on_error: control.on_error,
            on_end: control.on_end,
            slashed: false,
            reading: RecordInReading {
                reader: ListReader::start(),
                line,
                used,
            },
        })),
        NextRecord::Nothing(number) => {
            not_begun(numbered(number, control.on_error, control.on_end))
        }
        NextRecord::Failed => Err(CallEnd::Device(control.unit)),
    }
}

/// Begins a list-directed input on the unit of a control list, and reads its first record (12.8.1). Outside a transfer alone: in one it is
/// the fault `Library`, which is the caller's to answer.
///
/// # Errors
/// The first fault of the list; the end of the run where the list does not ask for it: by number 6, where the unit is not connected, by
/// number 5 for a record that is too long, and by number -1 where no record is left; the unit where its device failed.
pub fn s_rsle(run: &RunBytes, units: &mut UnitTable, pointer: CValue) -> Result<Start, CallEnd>
    requires { Unit {0} }
    ensures { AnswersStart run.now pointer (rows_of (λ b. (⟦<dyn Device as Device>⟧ b.vtable).device_state b.value) units.old) (rows_of (λ b. (⟦<dyn Device as Device>⟧ b.vtable).device_state b.value) units.new) result }
{
    match unit_control(run, pointer) {
        Ok(control) => {
            if units.is_connected(control.unit) {
                begin_reading(units, control)
            } else {
                not_begun(numbered(6, control.on_error, control.on_end))
            }
        }
        Err(fault) => Err(CallEnd::Fault(fault)),
    }
}

/// Gives one item its value. Behind a slash it keeps its own.
fn give_item(
    input: &mut ListedInput,
    units: &mut UnitTable,
    run: &mut RunBytes,
    item: Item,
) -> Result<(), ItemEnd>
    requires { Unit {0} }
    ensures gives { GivesItem item input.old input.new run.old run.new (rows_of (λ b. (⟦<dyn Device as Device>⟧ b.vtable).device_state b.value) units.old) (rows_of (λ b. (⟦<dyn Device as Device>⟧ b.vtable).device_state b.value) units.new) result }
    ensures forms { SameForms run.old run.new }
{
    if input.slashed {
        return Ok(());
    }
    match read_item(&mut input.reading, units, input.unit, run, item) {
        Ok(ItemRead::Given) => Ok(()),
        Ok(ItemRead::Slashed) => {
            input.slashed = true;
            Ok(())
        }
        Err(end) => Err(end),
    }
}

/// Gives items their values, which stand one behind the other.
fn give_items(
    input: &mut ListedInput,
    units: &mut UnitTable,
    run: &mut RunBytes,
    list: ItemList,
    first: CValue,
) -> Result<(), ItemEnd>
    requires { Unit {0} }
    ensures gives { GivesItems list first input.old input.new run.old run.new (rows_of (λ b. (⟦<dyn Device as Device>⟧ b.vtable).device_state b.value) units.old) (rows_of (λ b. (⟦<dyn Device as Device>⟧ b.vtable).device_state b.value) units.new) result }
    ensures forms { SameForms run.old run.new }
{
    let mut pointer = first;
    for _ in 0..list.count {
        let item = Item {
            kind: list.kind,
            pointer,
            size: list.size,
        };
        match give_item(input, units, run, item) {
            Ok(()) => pointer = place_behind(run, pointer, list.size),
            Err(end) => return Err(end),
        }
    }
    Ok(())
}

/// Gives so many items of a kind (3 integers, 8 logicals, 9 texts) their values, which stand one behind the other; each is read before
/// the next (12.8.2). An item that a null or a slash leaves keeps its value.
///
/// # Errors
/// The first fault of the arguments or of an item; the end of the run by the number of an error or of the end of the file, where the list
/// of the start does not ask for it; the unit where its device failed; `Uncounted` where 64 bits do not tell the steps for an item, which is
/// only where the unit stands behind 2^53 records or more.
pub fn do_lio(
    input: &mut ListedInput,
    units: &mut UnitTable,
    run: &mut RunBytes,
    kind: CValue,
    count: CValue,
    first: CValue,
    size: CValue,
) -> Result<Passage, InputEnd>
    requires { Unit {0} }
    ensures { AnswersItems run.old run.new (kind ∷ count ∷ first ∷ size ∷ []) input.old input.new (rows_of (λ b. (⟦<dyn Device as Device>⟧ b.vtable).device_state b.value) units.old) (rows_of (λ b. (⟦<dyn Device as Device>⟧ b.vtable).device_state b.value) units.new) result }
{
    match item_list(run, kind, count, size) {
        Ok(list) => match give_items(input, units, run, list, first) {
            Ok(()) => Ok(Passage::GoesOn),
            Err(end) => ended(input.unit, input.on_error, input.on_end, end),
        },
        Err(fault) => Err(InputEnd::Call(CallEnd::Fault(fault))),
    }
}

/// Ends an input: the rest of its record is left, and the call answers 0.
pub fn e_rsle(_input: ListedInput) -> i32
    ensures { AnswersEnd _input result }
{
    0
}
