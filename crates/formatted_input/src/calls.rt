//! The calls of a formatted input on a unit (ANSI X3.9-1978, 12.8 and 13).

ghost use Rattle.std.specs.Prelude.{◌≡◌, ◌≤◌, [], ◌∷◌, length};
ghost use Rattle.f2c_outside.specs.Rows.{rows_of};
ghost use Rattle.c_tree.specs.FormatsGiven.{format_at};
ghost use Rattle.edit_rules.specs.Walks.{StandsIn};
ghost use Rattle.formatted_input.specs.Transferring.{AnswersStart, AnswersReading, AnswersUnder, AnswersItems, AnswersEnd, over_by, start_of, stop_answer};

use crate::acts::Stop;
use crate::endings::close;
use crate::items::give_items;
use c_tree::outcome::CValue;
use control_lists::{UnitControl, unit_control, unit_format};
use edit_rules::FormatWalk;
use f2c_outside::devices::Device;
use f2c_outside::unit_table::UnitTable;
use formatted_output::{Passage, item_list, read_format};
use listed_input::{LONGEST, NextRecord, fetch};
use run_bytes::RunBytes;
use taken_records::RecordInput;
use unit_answers::{CallEnd, numbered};

/// A formatted input on a unit that is in progress.
#[derive(Clone, Copy)]
pub struct FormattedInput {
    pub(crate) unit: i32,
    pub(crate) on_error: i32,
    pub(crate) on_end: i32,
    pub(crate) walk: FormatWalk,
    pub(crate) record: RecordInput,
}

/// What a start does that meets no fault.
#[derive(Clone, Copy)]
pub enum Start {
    /// A transfer begins, and the call answers 0.
    Begins(FormattedInput),
    /// The call answers this number of an error or of the end of the file, and no transfer begins.
    Answers(i32),
}

/// What a call answers where an input goes no further.
fn stopped(unit: i32, on_error: i32, on_end: i32, stop: Stop) -> Result<i32, CallEnd>
    ensures { result ≡ stop_answer unit on_error on_end stop }
{
    match stop {
        Stop::Number(number) => numbered(number, on_error, on_end),
        Stop::Device => Err(CallEnd::Device(unit)),
        Stop::Fault(fault) => Err(CallEnd::Fault(fault)),
    }
}

/// A start by a number that its caller gets, with which no transfer begins.
fn not_begun(answer: Result<i32, CallEnd>) -> Result<Start, CallEnd>
    ensures { result ≡ start_of answer }
{
    match answer {
        Ok(number) => Ok(Start::Answers(number)),
        Err(end) => Err(end),
    }
}

/// Begins an input on a unit that is connected, under the format that begins a text: its first record is read.
fn begin_reading(
    units: &mut UnitTable,
    control: UnitControl,
    format: &[u8],
) -> Result<Start, CallEnd>
    requires { Unit {0} }
    ensures { AnswersReading control (rows_of (λ b. (⟦<dyn Device as Device>⟧ b.vtable).device_state b.value) units.old) (rows_of (λ b. (⟦<dyn Device as Device>⟧ b.vtable).device_state b.value) units.new) format.now result }
{
    let zeros = units.zero_blanks(control.unit);
    let mut line = [b' '; LONGEST];
    match fetch(units, control.unit, &mut line) {
        NextRecord::Record(used) => Ok(Start::Begins(FormattedInput {
            unit: control.unit,
            on_error: control.on_error,
            on_end: control.on_end,
            walk: FormatWalk::start(format),
            record: RecordInput::begin(&line[..used], zeros),
        })),
        NextRecord::Nothing(number) => {
            not_begun(numbered(number, control.on_error, control.on_end))
        }
        NextRecord::Failed => Err(CallEnd::Device(control.unit)),
    }
}

/// The rest of a start, where the unit is connected: the format is read, and then the first record.
fn start_under(
    run: &RunBytes,
    units: &mut UnitTable,
    control: UnitControl,
    given: CValue,
    format: &mut [u8],
) -> Result<Start, CallEnd>
    requires { 2048 ≤ length format.old }
    ensures { AnswersUnder (format_at run.now given) run.now control (rows_of (λ b. (⟦<dyn Device as Device>⟧ b.vtable).device_state b.value) units.old) (rows_of (λ b. (⟦<dyn Device as Device>⟧ b.vtable).device_state b.value) units.new) format.new result }
{
    match read_format(run, given, format) {
        Ok(true) => begin_reading(units, control, format),
        Ok(false) => not_begun(numbered(10, control.on_error, control.on_end)),
        Err(fault) => Err(CallEnd::Fault(fault)),
    }
}

/// Begins a formatted input on the unit of a control list, and reads its first record (12.8.1). Outside a transfer alone: in one it is the
/// fault `Library`, which is the caller's to answer. The format is copied to the front of a buffer of 2,048 bytes, which stays as it is as
/// long as the transfer is in progress.
///
/// # Errors
/// The first fault of the list or of the format; the end of the run where the list does not ask for it: by number 6, where the unit is not
/// connected, by number 10, where the format is none or has more than 2,048 bytes, by number 5 for a record that is too long, and by number
/// -1 where no record is left; the unit where its device failed.
pub fn s_rsfe(
    run: &RunBytes,
    units: &mut UnitTable,
    pointer: CValue,
    format: &mut [u8],
) -> Result<Start, CallEnd>
    requires { 2048 ≤ length format.old }
    ensures { AnswersStart run.now pointer (rows_of (λ b. (⟦<dyn Device as Device>⟧ b.vtable).device_state b.value) units.old) (rows_of (λ b. (⟦<dyn Device as Device>⟧ b.vtable).device_state b.value) units.new) format.new result }
{
    match unit_control(run, pointer) {
        Ok(control) => match unit_format(run, pointer) {
            Ok(given) => {
                if units.is_connected(control.unit) {
                    start_under(run, units, control, given, format)
                } else {
                    not_begun(numbered(6, control.on_error, control.on_end))
                }
            }
            Err(fault) => Err(CallEnd::Fault(fault)),
        },
        Err(fault) => Err(CallEnd::Fault(fault)),
    }
}

/// The end of an input by a number that its caller gets.
fn over(answer: Result<i32, CallEnd>) -> Result<Passage, CallEnd>
    ensures { result ≡ over_by answer }
{
    match answer {
        Ok(number) => Ok(Passage::Over(number)),
        Err(end) => Err(end),
    }
}

/// Gives so many items of a length, which stand one behind the other, their values (12.8.2). Each is stored before the next is read. The
/// buffer is that of the start, and the input stands in the format there.
///
/// # Errors
/// The first fault of the arguments or of an item; the end of the run by the number of an error or of the end of the file, where the list
/// of the start does not ask for it; the unit where its device failed.
pub fn do_fio(
    input: &mut FormattedInput,
    units: &mut UnitTable,
    run: &mut RunBytes,
    count: CValue,
    first: CValue,
    size: CValue,
    format: &[u8],
) -> Result<Passage, CallEnd>
    requires { StandsIn input.old.walk format.now }
    ensures { AnswersItems format.now run.old run.new (count ∷ first ∷ size ∷ []) input.old input.new (rows_of (λ b. (⟦<dyn Device as Device>⟧ b.vtable).device_state b.value) units.old) (rows_of (λ b. (⟦<dyn Device as Device>⟧ b.vtable).device_state b.value) units.new) result }
{
    match item_list(run, count, size) {
        Ok(list) => match give_items(input, units, format, run, list, first) {
            Ok(()) => Ok(Passage::GoesOn),
            Err(stop) => over(stopped(input.unit, input.on_error, input.on_end, stop)),
        },
        Err(fault) => Err(CallEnd::Fault(fault)),
    }
}

/// Ends an input: what its format gives behind the last item is done, the rest of its record is left, and the call answers 0 or the number
/// of the error or of the end of the file (12.9.5.1). The buffer is that of its start, and the input stands in the format there.
///
/// # Errors
/// The end of the run by that number, where the list of the start does not ask for it; the unit where its device failed.
pub fn e_rsfe(input: FormattedInput, units: &mut UnitTable, format: &[u8]) -> Result<i32, CallEnd>
    requires { StandsIn input.walk format.now }
    ensures { AnswersEnd format.now input (rows_of (λ b. (⟦<dyn Device as Device>⟧ b.vtable).device_state b.value) units.old) (rows_of (λ b. (⟦<dyn Device as Device>⟧ b.vtable).device_state b.value) units.new) result }
{
    let mut walk = input.walk;
    let mut record = input.record;
    match close(&mut walk, &mut record, units, input.unit, format) {
        Ok(()) => Ok(0),
        Err(stop) => stopped(input.unit, input.on_error, input.on_end, stop),
    }
}
