//! The calls of a list-directed output on an internal file (ANSI X3.9-1978, 12.2.5, 12.8 and 13.6.2).

ghost use Rattle.std.specs.Prelude.{◌≡◌, [], ◌∷◌, length};
ghost use Rattle.library_calls.specs.Room.{HasRoom};
ghost use Rattle.listed_output.specs.Transferring.{over_by};
ghost use Rattle.internal_output.specs.Transferring.{AnswersStart, AnswersItems, AnswersEnd, IsBegun};

use crate::files::{FileRecords, refused, write_record};
use crate::items::ready_items;
use crate::puts::put_items;
use c_tree::outcome::{CFault, CValue};
use control_lists::{InternalControl, internal_control};
use edit_rules::ListWriter;
use listed_output::{COLUMNS, Passage, RecordInMaking};
use run_bytes::RunBytes;
use unit_answers::CallEnd;

/// A list-directed output on an internal file that is in progress.
#[derive(Clone, Copy)]
pub struct InternalOutput {
    file: FileRecords,
    on_error: i32,
    on_end: i32,
    making: RecordInMaking,
}

/// The output that a control list begins.
fn begun(control: InternalControl) -> InternalOutput
    ensures { IsBegun control result }
{
    InternalOutput {
        file: FileRecords {
            object: control.object,
            offset: control.offset,
            size: control.size,
            count: control.count,
            position: 0,
        },
        on_error: control.on_error,
        on_end: control.on_end,
        making: RecordInMaking {
            writer: ListWriter::start(),
            line: [b' '; COLUMNS],
        },
    }
}

/// Begins a list-directed output on the internal file of a control list (12.8.1), which answers 0 where it has no fault. Outside a transfer
/// alone: in one it is the fault `Library`, which is the caller's to answer.
///
/// # Errors
/// The first fault of the list.
pub fn s_wsli(run: &RunBytes, pointer: CValue) -> Result<InternalOutput, CFault>
    ensures { AnswersStart run.now pointer result }
{
    match internal_control(run, pointer) {
        Ok(control) => Ok(begun(control)),
        Err(fault) => Err(fault),
    }
}

/// The end of an output by a number that its caller gets.
fn over(answer: Result<i32, CallEnd>) -> Result<Passage, CallEnd>
    ensures { result ≡ over_by answer }
{
    match answer {
        Ok(number) => Ok(Passage::Over(number)),
        Err(end) => Err(end),
    }
}

/// Puts so many items of a kind (3 integers, 8 logicals, 9 texts), which stand one behind the other (12.8.2). All are fetched before one
/// is put, into a buffer that is as long as the largest object.
///
/// # Errors
/// The first fault of the arguments, of an item or of the file, in which a part of the output may stand then; the end of the run by the
/// number with which a record is refused, where the list of the start does not ask for it: -1 where the file is used up, and 5 where the
/// record is longer than those of the file.
pub fn do_lio(
    output: &mut InternalOutput,
    run: &mut RunBytes,
    buffer: &mut [u8],
    kind: CValue,
    count: CValue,
    first: CValue,
    size: CValue,
) -> Result<Passage, CallEnd>
    requires { HasRoom (length buffer.old) run.old }
    ensures { AnswersItems (kind ∷ count ∷ first ∷ size ∷ []) output.old output.new run.old run.new result }
{
    match ready_items(run, buffer, kind, count, first, size) {
        Ok((list, used)) => match put_items(
            &mut output.making,
            &mut output.file,
            run,
            list,
            &buffer[..used],
        ) {
            Ok(()) => Ok(Passage::GoesOn),
            Err(refusal) => over(refused(refusal, output.on_error, output.on_end)),
        },
        Err(fault) => Err(CallEnd::Fault(fault)),
    }
}

/// Ends an output: its last record is stored, and the call answers 0 or the number with which the record is refused (13.6.2).
///
/// # Errors
/// The fault of the file, in which a part of the record may stand then; the end of the run by that number, where the list of the start
/// does not ask for it.
pub fn e_wsli(output: InternalOutput, run: &mut RunBytes) -> Result<i32, CallEnd>
    ensures { AnswersEnd output run.old run.new result }
{
    let used = output.making.writer.used();
    let mut file = output.file;
    match write_record(&mut file, run, &output.making.line[..used]) {
        Ok(()) => Ok(0),
        Err(refusal) => refused(refusal, output.on_error, output.on_end),
    }
}
