//! The calls of a formatted input on an internal file (ANSI X3.9-1978, 12.2.5, 12.8 and 13).

ghost use Rattle.std.specs.Prelude.{◌≡◌, ◌≤◌, [], ◌∷◌, length};
ghost use Rattle.c_tree.specs.FormatsGiven.{format_at};
ghost use Rattle.edit_rules.specs.Walks.{StandsIn};
ghost use Rattle.formatted_output.specs.Transferring.{over_by};
ghost use Rattle.internal_formatted_input.specs.Transferring.{AnswersStart, AnswersItems, AnswersEnd, FirstReads, FormatStarts, start_of, stop_answer};

use crate::acts::Stop;
use crate::endings::close;
use crate::items::give_items;
use c_tree::outcome::CValue;
use control_lists::{InternalControl, internal_control, internal_format};
use edit_rules::FormatWalk;
use formatted_output::{Passage, item_list, read_format};
use internal_output::FileRecords;
use internal_records::{RecordEnd, next_record};
use run_bytes::RunBytes;
use taken_records::RecordInput;
use unit_answers::{CallEnd, numbered};

/// A formatted input on an internal file that is in progress.
#[derive(Clone, Copy)]
pub struct InternalFormattedInput {
    pub(crate) file: FileRecords,
    pub(crate) on_error: i32,
    pub(crate) on_end: i32,
    pub(crate) walk: FormatWalk,
    pub(crate) record: RecordInput,
}

/// What a start does that meets no fault.
#[derive(Clone, Copy)]
pub enum Start {
    /// A transfer begins, and the call answers 0.
    Begins(InternalFormattedInput),
    /// The call answers this number of an error or of the end of the file, and no transfer begins.
    Answers(i32),
}

/// A start by a number that its caller gets, with which no transfer begins.
fn not_begun(answer: Result<i32, CallEnd>) -> Result<Start, CallEnd>
    ensures { result ≡ start_of answer }
{
    match answer {
        Ok(number) => Ok(Start::Answers(number)),
        Err(end) => Err(end),
    }
}

/// Begins an input under the format that begins a text: its first record is read.
fn begin_reading(run: &RunBytes, control: InternalControl, format: &[u8]) -> Result<Start, CallEnd>
    ensures { FirstReads run.now control format.now result }
{
    let mut file = FileRecords {
        object: control.object,
        offset: control.offset,
        size: control.size,
        count: control.count,
        position: 0,
    };
    match next_record(run, &mut file) {
        Ok(line) => Ok(Start::Begins(InternalFormattedInput {
            file,
            on_error: control.on_error,
            on_end: control.on_end,
            walk: FormatWalk::start(format),
            record: RecordInput::begin(line, false),
        })),
        Err(RecordEnd::Number(number)) => {
            not_begun(numbered(number, control.on_error, control.on_end))
        }
        Err(RecordEnd::Fault(fault)) => Err(CallEnd::Fault(fault)),
    }
}

/// The rest of a start, once its list is read: the format is read, and then the first record.
fn start_under(
    run: &RunBytes,
    control: InternalControl,
    given: CValue,
    format: &mut [u8],
) -> Result<Start, CallEnd>
    requires { 2048 ≤ length format.old }
    ensures { FormatStarts (format_at run.now given) run.now control format.new result }
{
    match read_format(run, given, format) {
        Ok(true) => begin_reading(run, control, format),
        Ok(false) => not_begun(numbered(10, control.on_error, control.on_end)),
        Err(fault) => Err(CallEnd::Fault(fault)),
    }
}

/// Begins a formatted input on the internal file of a control list, and reads its first record (12.8.1). Outside a transfer alone: in one it
/// is the fault `Library`, which is the caller's to answer. The format is copied to the front of a buffer of 2,048 bytes, which stays as it is
/// as long as the transfer is in progress.
///
/// # Errors
/// The first fault of the list, of the format or of the first record; the end of the run where the list does not ask for it: by number 10,
/// where the format is none or has more than 2,048 bytes, by number 5 for records that are too long, and by number -1 where the file has none.
pub fn s_rsfi(run: &RunBytes, pointer: CValue, format: &mut [u8]) -> Result<Start, CallEnd>
    requires { 2048 ≤ length format.old }
    ensures { AnswersStart run.now pointer format.new result }
{
    match internal_control(run, pointer) {
        Ok(control) => match internal_format(run, pointer) {
            Ok(given) => start_under(run, control, given, format),
            Err(fault) => Err(CallEnd::Fault(fault)),
        },
        Err(fault) => Err(CallEnd::Fault(fault)),
    }
}

/// What a call answers where an input goes no further.
fn stopped(on_error: i32, on_end: i32, stop: Stop) -> Result<i32, CallEnd>
    ensures { result ≡ stop_answer on_error on_end stop }
{
    match stop {
        Stop::Number(number) => numbered(number, on_error, on_end),
        Stop::Fault(fault) => Err(CallEnd::Fault(fault)),
    }
}

/// The end of an input by a number that its caller gets.
fn over(answer: Result<i32, CallEnd>) -> Result<Passage, CallEnd>
    ensures { result ≡ over_by answer }
{
    match answer {
        Ok(number) => Ok(Passage::Over(number)),
        Err(end) => Err(end),
    }
}

/// Gives so many items of a length, which stand one behind the other, their values (12.8.2). Each is stored before the next is read. The
/// buffer is that of the start, and the input stands in the format there.
///
/// # Errors
/// The first fault of the arguments, of an item or of a record; the end of the run by the number of an error, where the list of the start does
/// not ask for it: -1 where the file is used up.
pub fn do_fio(
    input: &mut InternalFormattedInput,
    run: &mut RunBytes,
    count: CValue,
    first: CValue,
    size: CValue,
    format: &[u8],
) -> Result<Passage, CallEnd>
    requires { StandsIn input.old.walk format.now }
    ensures { AnswersItems format.now (count ∷ first ∷ size ∷ []) input.old input.new run.old run.new result }
{
    match item_list(run, count, size) {
        Ok(list) => match give_items(input, run, format, list, first) {
            Ok(()) => Ok(Passage::GoesOn),
            Err(stop) => over(stopped(input.on_error, input.on_end, stop)),
        },
        Err(fault) => Err(CallEnd::Fault(fault)),
    }
}

/// Ends an input: what its format gives behind the last item is done, the rest of its record is left, and the call answers 0 or the number
/// of the error or of the end of the file (12.9.5.1). The buffer is that of its start, and the input stands in the format there.
///
/// # Errors
/// The fault of a record; the end of the run by that number, where the list of the start does not ask for it.
pub fn e_rsfi(input: InternalFormattedInput, run: &RunBytes, format: &[u8]) -> Result<i32, CallEnd>
    requires { StandsIn input.walk format.now }
    ensures { AnswersEnd format.now input run.now result }
{
    let mut walk = input.walk;
    let mut record = input.record;
    let mut file = input.file;
    match close(&mut walk, &mut record, &mut file, run, format) {
        Ok(()) => Ok(0),
        Err(stop) => stopped(input.on_error, input.on_end, stop),
    }
}
