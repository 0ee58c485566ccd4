//! The calls of a list-directed output on a unit (ANSI X3.9-1978, 12.8 and 13.6.2).

ghost use Rattle.std.specs.Prelude.{◌≡◌, [], ◌∷◌, List, Ok};
ghost use Rattle.f2c_outside.specs.Rows.{rows_of};
ghost use Rattle.c_tree.specs.TransferOutput as output;
ghost use Rattle.edit_rules.specs.edit_meaning.Listed.{ListedValue};
ghost use Rattle.listed_output.specs.Kinds.{kind_shown};
ghost use Rattle.listed_output.specs.Writing.{PutsItems};
ghost use Rattle.listed_output.specs.Transferring.{AnswersStart, AnswersItems, AnswersEnd, IsBegun, IsReady, over_by, start_of};

use crate::items::{all_there, behind, item_at, item_list};
use crate::kinds::ItemList;
use crate::making::{COLUMNS, RecordInMaking};
use crate::records::{put_value, write_record};
use c_tree::outcome::{CFault, CValue};
use control_lists::{UnitControl, unit_control};
use edit_rules::ListWriter;
use f2c_outside::devices::Device;
use f2c_outside::unit_table::UnitTable;
use run_bytes::RunBytes;
use run_state::UnitRefusal;
use unit_answers::{CallEnd, numbered, refused};

/// A list-directed output on a unit that is in progress.
#[derive(Clone, Copy)]
pub struct ListedOutput {
    unit: i32,
    on_error: i32,
    on_end: i32,
    making: RecordInMaking,
}

/// What a start does that meets no fault.
#[derive(Clone, Copy)]
pub enum Start {
    /// A transfer begins, and the call answers 0.
    Begins(ListedOutput),
    /// The call answers this number of an error, and no transfer begins.
    Answers(i32),
}

/// Where a transfer stands behind a call.
#[derive(Clone, Copy, Debug, PartialEq, Eq)]
pub enum Passage {
    /// It goes on, and the call answers 0.
    GoesOn,
    /// It is over by this number, which the call answers.
    Over(i32),
}

/// The output that a control list begins.
fn begun(control: UnitControl) -> ListedOutput
    ensures { IsBegun control result }
{
    ListedOutput {
        unit: control.unit,
        on_error: control.on_error,
        on_end: control.on_end,
        making: RecordInMaking {
            writer: ListWriter::start(),
            line: [b' '; COLUMNS],
        },
    }
}

/// A start by a number that its caller gets, with which no transfer begins.
fn not_begun(answer: Result<i32, CallEnd>) -> Result<Start, CallEnd>
    ensures { result ≡ start_of answer }
{
    match answer {
        Ok(number) => Ok(Start::Answers(number)),
        Err(end) => Err(end),
    }
}

/// Begins a list-directed output on the unit of a control list (12.8.1). Outside a transfer alone: in one it is the fault `Library`, which
/// is the caller's to answer.
///
/// # Errors
/// The first fault of the list; the end of the run by number 6, where the unit is not connected and the list does not ask for errors.
pub fn s_wsle(run: &RunBytes, units: &UnitTable, pointer: CValue) -> Result<Start, CallEnd>
    ensures { AnswersStart run.now pointer (rows_of (λ b. (⟦<dyn Device as Device>⟧ b.vtable).device_state b.value) units.now) result }
{
    match unit_control(run, pointer) {
        Ok(control) => {
            if units.is_connected(control.unit) {
                Ok(Start::Begins(begun(control)))
            } else {
                not_begun(numbered(6, control.on_error, control.on_end))
            }
        }
        Err(fault) => Err(CallEnd::Fault(fault)),
    }
}

/// Puts items behind the values so far, each before the next, and writes the records that they complete. Of items that are not all there
/// nothing is said.
fn put_items(
    making: &mut RecordInMaking,
    units: &mut UnitTable,
    unit: i32,
    run: &RunBytes,
    list: ItemList,
    first: CValue,
) -> Result<(), UnitRefusal>
    requires { Unit {0} }
    ensures { (values : List ListedValue) → output.items_at (kind_shown list.kind) run.now list.size list.count first ≡ Ok values →
        PutsItems unit values making.old.writer making.old.line making.new.writer making.new.line (rows_of (λ b. (⟦<dyn Device as Device>⟧ b.vtable).device_state b.value) units.old) (rows_of (λ b. (⟦<dyn Device as Device>⟧ b.vtable).device_state b.value) units.new) result }
{
    let mut pointer = first;
    for _ in 0..list.count {
        match item_at(run, list.kind, pointer, list.size) {
            Ok(value) => match put_value(making, units, unit, value) {
                Ok(()) => pointer = behind(run, pointer, list.size),
                Err(refusal) => return Err(refusal),
            },
            Err(_) => return Ok(()),
        }
    }
    Ok(())
}

/// What a call says of its items, all of which are there.
fn ready_items(
    run: &RunBytes,
    kind: CValue,
    count: CValue,
    first: CValue,
    size: CValue,
) -> Result<ItemList, CFault>
    ensures { IsReady run.now kind count first size result }
{
    match item_list(run, kind, count, size) {
        Ok(list) => match all_there(run, list, first) {
            Ok(()) => Ok(list),
            Err(fault) => Err(fault),
        },
        Err(fault) => Err(fault),
    }
}

/// Puts so many items of a kind (3 integers, 8 logicals, 9 texts), which stand one behind the other (12.8.2). All are fetched before one
/// is put.
///
/// # Errors
/// The first fault of the arguments or of an item; the end of the run by the number with which the unit refuses a record, where the list
/// of the start does not ask for it; the unit where its device failed.
pub fn do_lio(
    output: &mut ListedOutput,
    units: &mut UnitTable,
    run: &RunBytes,
    kind: CValue,
    count: CValue,
    first: CValue,
    size: CValue,
) -> Result<Passage, CallEnd>
    requires { Unit {0} }
    ensures { AnswersItems run.now (kind ∷ count ∷ first ∷ size ∷ []) output.old output.new (rows_of (λ b. (⟦<dyn Device as Device>⟧ b.vtable).device_state b.value) units.old) (rows_of (λ b. (⟦<dyn Device as Device>⟧ b.vtable).device_state b.value) units.new) result }
{
    match ready_items(run, kind, count, first, size) {
        Ok(list) => match put_items(&mut output.making, units, output.unit, run, list, first) {
            Ok(()) => Ok(Passage::GoesOn),
            Err(refusal) => over(refused(output.unit, refusal, output.on_error, output.on_end)),
        },
        Err(fault) => Err(CallEnd::Fault(fault)),
    }
}

/// The end of an output by a number that its caller gets.
fn over(answer: Result<i32, CallEnd>) -> Result<Passage, CallEnd>
    ensures { result ≡ over_by answer }
{
    match answer {
        Ok(number) => Ok(Passage::Over(number)),
        Err(end) => Err(end),
    }
}

/// Ends an output: its last record is written, and the call answers 0 or the number with which the unit refuses it (13.6.2).
///
/// # Errors
/// The end of the run by that number, where the list of the start does not ask for it; the unit where its device failed.
pub fn e_wsle(output: ListedOutput, units: &mut UnitTable) -> Result<i32, CallEnd>
    requires { Unit {0} }
    ensures { AnswersEnd output (rows_of (λ b. (⟦<dyn Device as Device>⟧ b.vtable).device_state b.value) units.old) (rows_of (λ b. (⟦<dyn Device as Device>⟧ b.vtable).device_state b.value) units.new) result }
{
    let used = output.making.writer.used();
    match write_record(units, output.unit, &output.making.line[..used]) {
        Ok(()) => Ok(0),
        Err(refusal) => refused(output.unit, refusal, output.on_error, output.on_end),
    }
}
