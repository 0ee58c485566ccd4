//! The calls of list-directed input on an internal file (ANSI X3.9-1978, 12.2.5, 12.8 and 13.6.1).

ghost use Rattle.std.specs.Prelude.{◌≡◌, [], ◌∷◌, length};
ghost use Rattle.item_deeds.specs.Forms.{SameForms};
ghost use Rattle.library_calls.specs.Room.{HasRoom};
ghost use Rattle.control_lists.specs.Controls.{file_shown};
ghost use Rattle.internal_output.specs.Files.{file_of};
ghost use Rattle.internal_input.specs.Transferring.{AnswersStart, AnswersItems, AnswersEnd, AnswersReading, start_of};
ghost use Rattle.internal_input.specs.Giving.{GivesItem, GivesItems};

use crate::ends::{ItemEnd, ItemRead, ended};
use crate::items::read_item;
use crate::records::fetch;
use crate::texts::place_behind;
use c_tree::outcome::CValue;
use control_lists::{InternalControl, internal_control};
use edit_rules::ListReader;
use internal_output::FileRecords;
use internal_records::RecordEnd;
use listed_input::{Item, LONGEST, RecordInReading};
use listed_output::{ItemList, Passage, item_list};
use run_bytes::RunBytes;
use unit_answers::{CallEnd, numbered};

/// A list-directed input on an internal file that is in progress.
#[derive(Clone, Copy)]
pub struct InternalInput {
    file: FileRecords,
    on_error: i32,
    on_end: i32,
    slashed: bool,
    reading: RecordInReading,
}

/// What a start does that meets no fault.
#[derive(Clone, Copy)]
pub enum Start {
    /// A transfer begins, and the call answers 0.
    Begins(InternalInput),
    /// The call answers this number of an error or of the end of the file, and no transfer begins.
    Answers(i32),
}

/// A start by a number that its caller gets, with which no transfer begins.
fn not_begun(answer: Result<i32, CallEnd>) -> Result<Start, CallEnd>
    ensures { result ≡ start_of answer }
{
    match answer {
        Ok(number) => Ok(Start::Answers(number)),
        Err(end) => Err(end),
    }
}

/// The internal file of a control list, at its start.
fn file_at_start(control: InternalControl) -> FileRecords
    ensures { file_of result ≡ file_shown control }
{
    FileRecords {
        object: control.object,
        offset: control.offset,
        size: control.size,
        count: control.count,
        position: 0,
    }
}

/// Begins an input on an internal file: its first record is read.
fn begin_reading(run: &RunBytes, control: InternalControl) -> Result<Start, CallEnd>
    ensures { AnswersReading control run.now result }
{
    let mut file = file_at_start(control);
    let mut line = [b' '; LONGEST];
    match fetch(run, &mut file, &mut line) {
        Ok(used) => Ok(Start::Begins(InternalInput {
            file,
            on_error: control.on_error,
            on_end: control.on_end,
            slashed: false,
            reading: RecordInReading {
                reader: ListReader::start(),
                line,
                used,
            },
        })),
        Err(RecordEnd::Number(number)) => {
            not_begun(numbered(number, control.on_error, control.on_end))
        }
        Err(RecordEnd::Fault(fault)) => Err(CallEnd::Fault(fault)),
    }
}

/// Begins a list-directed input on the internal file of a control list, and reads its first record (12.8.1). Outside a transfer alone: in
/// one it is the fault `Library`, which is the caller's to answer.
///
/// # Errors
/// The first fault of the list or of the first record; the end of the run where the list does not ask for it: by number 5 for a record
/// that is too long, and by number -1 where the file has no record.
pub fn s_rsli(run: &RunBytes, pointer: CValue) -> Result<Start, CallEnd>
    ensures { AnswersStart run.now pointer result }
{
    match internal_control(run, pointer) {
        Ok(control) => begin_reading(run, control),
        Err(fault) => Err(CallEnd::Fault(fault)),
    }
}

/// Gives one item its value. Behind a slash it keeps its own.
fn give_item(
    input: &mut InternalInput,
    run: &mut RunBytes,
    buffer: &mut [u8],
    item: Item,
) -> Result<(), ItemEnd>
    requires { HasRoom (length buffer.old) run.old }
    ensures gives { GivesItem item input.old input.new run.old run.new result }
    ensures forms { SameForms run.old run.new }
{
    if input.slashed {
        return Ok(());
    }
    match read_item(&mut input.reading, &mut input.file, run, buffer, item) {
        Ok(ItemRead::Given) => Ok(()),
        Ok(ItemRead::Slashed) => {
            input.slashed = true;
            Ok(())
        }
        Err(end) => Err(end),
    }
}

/// Gives items their values, which stand one behind the other.
fn give_items(
    input: &mut InternalInput,
    run: &mut RunBytes,
    buffer: &mut [u8],
    list: ItemList,
    first: CValue,
) -> Result<(), ItemEnd>
    requires { HasRoom (length buffer.old) run.old }
    ensures gives { GivesItems list first input.old input.new run.old run.new result }
    ensures forms { SameForms run.old run.new }
{
    let mut pointer = first;
    for _ in 0..list.count {
        let item = Item {
            kind: list.kind,
            pointer,
            size: list.size,
        };
        match give_item(input, run, buffer, item) {
            Ok(()) => pointer = place_behind(pointer, list.size),
            Err(end) => return Err(end),
        }
    }
    Ok(())
}

/// Gives so many items of a kind (3 integers, 8 logicals, 9 texts) their values, which stand one behind the other; each is read before
/// the next (12.8.2). An item that a null or a slash leaves keeps its value. The buffer, in which a text is put together, is as long as
/// the largest object.
///
/// # Errors
/// The first fault of the arguments, of an item or of a record; the end of the run by the number of an error or of the end of the file,
/// where the list of the start does not ask for it.
pub fn do_lio(
    input: &mut InternalInput,
    run: &mut RunBytes,
    buffer: &mut [u8],
    kind: CValue,
    count: CValue,
    first: CValue,
    size: CValue,
) -> Result<Passage, CallEnd>
    requires { HasRoom (length buffer.old) run.old }
    ensures { AnswersItems (kind ∷ count ∷ first ∷ size ∷ []) input.old input.new run.old run.new result }
{
    match item_list(run, kind, count, size) {
        Ok(list) => match give_items(input, run, buffer, list, first) {
            Ok(()) => Ok(Passage::GoesOn),
            Err(end) => ended(input.on_error, input.on_end, end),
        },
        Err(fault) => Err(CallEnd::Fault(fault)),
    }
}

/// Ends an input: the rest of its record is left, and the call answers 0.
pub fn e_rsli(_input: InternalInput) -> i32
    ensures { AnswersEnd _input result }
{
    0
}
