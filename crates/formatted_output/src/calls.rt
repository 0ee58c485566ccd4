//! The calls of a formatted output on a unit (ANSI X3.9-1978, 12.8 and 13).

ghost use Rattle.std.specs.Prelude.{◌≡◌, ◌≤◌, [], ◌∷◌, length};
ghost use Rattle.f2c_outside.specs.Rows.{rows_of};
ghost use Rattle.c_tree.specs.FormatsGiven.{format_at};
ghost use Rattle.edit_rules.specs.Walks.{StandsIn};
ghost use Rattle.formatted_output.specs.Transferring.{AnswersStart, AnswersItems, AnswersEnd, FormatStarts, IsBegun, over_by, start_of, stop_answer};

use crate::acts::Stop;
use crate::endings::finish;
use crate::formats::read_format;
use crate::items::{item_list, put_items};
use c_tree::outcome::CValue;
use control_lists::{UnitControl, unit_control, unit_format};
use edit_rules::FormatWalk;
use f2c_outside::devices::Device;
use f2c_outside::unit_table::UnitTable;
use formatted_records::RecordSheet;
use run_bytes::RunBytes;
use unit_answers::{CallEnd, numbered, refused};

/// A formatted output on a unit that is in progress.
#[derive(Clone, Copy)]
pub struct FormattedOutput {
    pub(crate) unit: i32,
    pub(crate) on_error: i32,
    pub(crate) on_end: i32,
    pub(crate) walk: FormatWalk,
    pub(crate) sheet: RecordSheet,
}

/// What a start does that meets no fault.
#[derive(Clone, Copy)]
pub enum Start {
    /// A transfer begins, and the call answers 0.
    Begins(FormattedOutput),
    /// The call answers this number of an error, and no transfer begins.
    Answers(i32),
}

/// Where a transfer stands behind a call.
#[derive(Clone, Copy, Debug, PartialEq, Eq)]
pub enum Passage {
    /// It goes on, and the call answers 0.
    GoesOn,
    /// It is over by this number, which the call answers.
    Over(i32),
}

/// The output that a control list begins, under the format that begins a text.
fn begun(control: UnitControl, format: &[u8]) -> FormattedOutput
    ensures { IsBegun control format.now result }
{
    FormattedOutput {
        unit: control.unit,
        on_error: control.on_error,
        on_end: control.on_end,
        walk: FormatWalk::start(format),
        sheet: RecordSheet::on_unit(),
    }
}

/// A start by a number that its caller gets, with which no transfer begins.
fn not_begun(answer: Result<i32, CallEnd>) -> Result<Start, CallEnd>
    ensures { result ≡ start_of answer }
{
    match answer {
        Ok(number) => Ok(Start::Answers(number)),
        Err(end) => Err(end),
    }
}

/// The rest of a start, where the unit is connected: the format is read.
fn start_under(
    run: &RunBytes,
    control: UnitControl,
    given: CValue,
    format: &mut [u8],
) -> Result<Start, CallEnd>
    requires { 2048 ≤ length format.old }
    ensures { FormatStarts (format_at run.now given) control format.new result }
{
    match read_format(run, given, format) {
        Ok(true) => Ok(Start::Begins(begun(control, format))),
        Ok(false) => not_begun(numbered(10, control.on_error, control.on_end)),
        Err(fault) => Err(CallEnd::Fault(fault)),
    }
}

/// Begins a formatted output on the unit of a control list (12.8.1). Outside a transfer alone: in one it is the fault `Library`, which is the
/// caller's to answer. The format is copied to the front of a buffer of 2,048 bytes, which stays as it is as long as the transfer is in
/// progress.
///
/// # Errors
/// The first fault of the list or of the format; the end of the run by number 6, where the unit is not connected, and by number 10, where the
/// format is none or has more than 2,048 bytes, and the list does not ask for errors.
pub fn s_wsfe(
    run: &RunBytes,
    units: &UnitTable,
    pointer: CValue,
    format: &mut [u8],
) -> Result<Start, CallEnd>
    requires { 2048 ≤ length format.old }
    ensures { AnswersStart run.now pointer (rows_of (λ b. (⟦<dyn Device as Device>⟧ b.vtable).device_state b.value) units.now) format.new result }
{
    match unit_control(run, pointer) {
        Ok(control) => match unit_format(run, pointer) {
            Ok(given) => {
                if units.is_connected(control.unit) {
                    start_under(run, control, given, format)
                } else {
                    not_begun(numbered(6, control.on_error, control.on_end))
                }
            }
            Err(fault) => Err(CallEnd::Fault(fault)),
        },
        Err(fault) => Err(CallEnd::Fault(fault)),
    }
}

/// What a call answers where an output goes no further.
fn stopped(unit: i32, on_error: i32, on_end: i32, stop: Stop) -> Result<i32, CallEnd>
    ensures { result ≡ stop_answer unit on_error on_end stop }
{
    match stop {
        Stop::Number(number) => numbered(number, on_error, on_end),
        Stop::Refused(refusal) => refused(unit, refusal, on_error, on_end),
        Stop::Fault(fault) => Err(CallEnd::Fault(fault)),
    }
}

/// The end of an output by a number that its caller gets.
fn over(answer: Result<i32, CallEnd>) -> Result<Passage, CallEnd>
    ensures { result ≡ over_by answer }
{
    match answer {
        Ok(number) => Ok(Passage::Over(number)),
        Err(end) => Err(end),
    }
}

/// Puts so many items of a length, which stand one behind the other (12.8.2). Each is fetched when its descriptor is come to. The buffer is
/// that of the start, and the output stands in the format there.
///
/// # Errors
/// The first fault of the arguments or of an item; the end of the run by the number of an error, where the list of the start does not ask for
/// it; the unit where its device failed.
pub fn do_fio(
    output: &mut FormattedOutput,
    units: &mut UnitTable,
    run: &RunBytes,
    count: CValue,
    first: CValue,
    size: CValue,
    format: &[u8],
) -> Result<Passage, CallEnd>
    requires { StandsIn output.old.walk format.now }
    ensures { AnswersItems format.now run.now (count ∷ first ∷ size ∷ []) output.old output.new (rows_of (λ b. (⟦<dyn Device as Device>⟧ b.vtable).device_state b.value) units.old) (rows_of (λ b. (⟦<dyn Device as Device>⟧ b.vtable).device_state b.value) units.new) result }
{
    match item_list(run, count, size) {
        Ok(list) => match put_items(output, units, format, run, list, first) {
            Ok(()) => Ok(Passage::GoesOn),
            Err(stop) => over(stopped(output.unit, output.on_error, output.on_end, stop)),
        },
        Err(fault) => Err(CallEnd::Fault(fault)),
    }
}

/// Ends an output: what its format gives behind the last item is done, its last record is written, and the call answers 0 or the number of
/// the error (12.9.5.2). The buffer is that of its start, and the output stands in the format there.
///
/// # Errors
/// The end of the run by that number, where the list of the start does not ask for it; the unit where its device failed.
pub fn e_wsfe(output: FormattedOutput, units: &mut UnitTable, format: &[u8]) -> Result<i32, CallEnd>
    requires { StandsIn output.walk format.now }
    ensures { AnswersEnd format.now output (rows_of (λ b. (⟦<dyn Device as Device>⟧ b.vtable).device_state b.value) units.old) (rows_of (λ b. (⟦<dyn Device as Device>⟧ b.vtable).device_state b.value) units.new) result }
{
    let mut walk = output.walk;
    let mut sheet = output.sheet;
    match finish(&mut walk, &mut sheet, units, output.unit, format) {
        Ok(()) => Ok(0),
        Err(stop) => stopped(output.unit, output.on_error, output.on_end, stop),
    }
}
