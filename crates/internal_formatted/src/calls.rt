//! The calls of a formatted output on an internal file (ANSI X3.9-1978, 12.2.5, 12.8 and 13).

ghost use Rattle.std.specs.Prelude.{◌≡◌, ◌≤◌, [], ◌∷◌, length};
ghost use Rattle.c_tree.specs.FormatsGiven.{format_at};
ghost use Rattle.edit_rules.specs.Walks.{StandsIn};
ghost use Rattle.edit_rules.specs.edit_meaning.EditedRecords.{internal_sheet};
ghost use Rattle.formatted_records.specs.Sheets.{Begins};
ghost use Rattle.formatted_output.specs.Transferring.{over_by};
ghost use Rattle.internal_formatted.specs.Transferring.{AnswersStart, AnswersItems, AnswersEnd, FormatStarts, IsBegun, start_of, stop_answer, none_answer};

use crate::acts::Stop;
use crate::endings::finish;
use crate::items::put_items;
use c_tree::outcome::CValue;
use control_lists::{InternalControl, internal_control, internal_format};
use edit_rules::FormatWalk;
use formatted_output::{Passage, item_list, read_format};
use formatted_records::RecordSheet;
use internal_output::{FileRecords, refused};
use run_bytes::RunBytes;
use unit_answers::{CallEnd, numbered};

/// A formatted output on an internal file that is in progress.
#[derive(Clone, Copy)]
pub struct InternalFormatted {
    pub(crate) file: FileRecords,
    pub(crate) on_error: i32,
    pub(crate) on_end: i32,
    pub(crate) walk: FormatWalk,
    pub(crate) sheet: RecordSheet,
}

/// What a start does that meets no fault.
#[derive(Clone, Copy)]
pub enum Start {
    /// A transfer begins, and the call answers 0.
    Begins(InternalFormatted),
    /// The call answers this number of an error, and no transfer begins.
    Answers(i32),
}

/// The first record of a file that has so many records, each of so many columns; of a file without records it is not used.
fn first_record(records: usize, columns: usize) -> RecordSheet
    ensures { (records ≡ 0 → ⊥) → Begins (internal_sheet records columns) result }
{
    match RecordSheet::in_file(records, columns) {
        Ok(sheet) => sheet,
        Err(_) => RecordSheet::on_unit(),
    }
}

/// The output that a control list begins, under the format that begins a text.
fn begun(control: InternalControl, format: &[u8]) -> InternalFormatted
    ensures { IsBegun control format.now result }
{
    InternalFormatted {
        file: FileRecords {
            object: control.object,
            offset: control.offset,
            size: control.size,
            count: control.count,
            position: 0,
        },
        on_error: control.on_error,
        on_end: control.on_end,
        walk: FormatWalk::start(format),
        sheet: first_record(control.count, control.size),
    }
}

/// A start by a number that its caller gets, with which no transfer begins.
fn not_begun(answer: Result<i32, CallEnd>) -> Result<Start, CallEnd>
    ensures { result ≡ start_of answer }
{
    match answer {
        Ok(number) => Ok(Start::Answers(number)),
        Err(end) => Err(end),
    }
}

/// The rest of a start, once its list is read: the format is read.
fn start_under(
    run: &RunBytes,
    control: InternalControl,
    given: CValue,
    format: &mut [u8],
) -> Result<Start, CallEnd>
    requires { 2048 ≤ length format.old }
    ensures { FormatStarts (format_at run.now given) control format.new result }
{
    match read_format(run, given, format) {
        Ok(true) => Ok(Start::Begins(begun(control, format))),
        Ok(false) => not_begun(numbered(10, control.on_error, control.on_end)),
        Err(fault) => Err(CallEnd::Fault(fault)),
    }
}

/// Begins a formatted output on the internal file of a control list (12.8.1). Outside a transfer alone: in one it is the fault `Library`,
/// which is the caller's to answer. The format is copied to the front of a buffer of 2,048 bytes, which stays as it is as long as the
/// transfer is in progress.
///
/// # Errors
/// The first fault of the list or of the format; the end of the run by number 10, where the format is none or has more than 2,048 bytes,
/// and the list does not ask for errors.
pub fn s_wsfi(run: &RunBytes, pointer: CValue, format: &mut [u8]) -> Result<Start, CallEnd>
    requires { 2048 ≤ length format.old }
    ensures { AnswersStart run.now pointer format.new result }
{
    match internal_control(run, pointer) {
        Ok(control) => match internal_format(run, pointer) {
            Ok(given) => start_under(run, control, given, format),
            Err(fault) => Err(CallEnd::Fault(fault)),
        },
        Err(fault) => Err(CallEnd::Fault(fault)),
    }
}

/// What a call answers where an output goes no further.
fn stopped(on_error: i32, on_end: i32, stop: Stop) -> Result<i32, CallEnd>
    ensures { result ≡ stop_answer on_error on_end stop }
{
    match stop {
        Stop::Number(number) => numbered(number, on_error, on_end),
        Stop::Refused(refusal) => refused(refusal, on_error, on_end),
        Stop::Fault(fault) => Err(CallEnd::Fault(fault)),
    }
}

/// The end of an output by a number that its caller gets.
fn over(answer: Result<i32, CallEnd>) -> Result<Passage, CallEnd>
    ensures { result ≡ over_by answer }
{
    match answer {
        Ok(number) => Ok(Passage::Over(number)),
        Err(end) => Err(end),
    }
}

/// What a call with so many items answers on a file that has no record.
fn without_records(count: usize, on_error: i32, on_end: i32) -> Result<Passage, CallEnd>
    ensures { result ≡ none_answer count on_error on_end }
{
    if count == 0 {
        Ok(Passage::GoesOn)
    } else {
        over(numbered(-1, on_error, on_end))
    }
}

/// Puts so many items of a length, which stand one behind the other (12.8.2). Each is fetched when its descriptor is come to, behind the
/// records that are complete by then. The buffer is that of the start, and the output stands in the format there.
///
/// # Errors
/// The first fault of the arguments, of an item or of the file, in which a part of the output may stand then; the end of the run by the
/// number of an error, where the list of the start does not ask for it: -1 where the file is used up.
pub fn do_fio(
    output: &mut InternalFormatted,
    run: &mut RunBytes,
    count: CValue,
    first: CValue,
    size: CValue,
    format: &[u8],
) -> Result<Passage, CallEnd>
    requires { StandsIn output.old.walk format.now }
    ensures { AnswersItems format.now (count ∷ first ∷ size ∷ []) output.old output.new run.old run.new result }
{
    match item_list(run, count, size) {
        Ok(list) => {
            if output.file.count == 0 {
                return without_records(list.count, output.on_error, output.on_end);
            }
            match put_items(output, run, format, list, first) {
                Ok(()) => Ok(Passage::GoesOn),
                Err(stop) => over(stopped(output.on_error, output.on_end, stop)),
            }
        }
        Err(fault) => Err(CallEnd::Fault(fault)),
    }
}

/// Ends an output: what its format gives behind the last item is done, its last record is stored, and the call answers 0 or the number of
/// the error (12.9.5.2). The buffer is that of its start, and the output stands in the format there.
///
/// # Errors
/// The fault of the file, in which a part of the output may stand then; the end of the run by that number, where the list of the start does
/// not ask for it.
pub fn e_wsfi(output: InternalFormatted, run: &mut RunBytes, format: &[u8]) -> Result<i32, CallEnd>
    requires { StandsIn output.walk format.now }
    ensures { AnswersEnd format.now output run.old run.new result }
{
    if output.file.count == 0 {
        return numbered(-1, output.on_error, output.on_end);
    }
    let mut walk = output.walk;
    let mut sheet = output.sheet;
    let mut file = output.file;
    match finish(&mut walk, &mut sheet, &mut file, run, format) {
        Ok(()) => Ok(0),
        Err(stop) => stopped(output.on_error, output.on_end, stop),
    }
}
