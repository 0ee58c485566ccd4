//! The items of a call, each read before the next (ANSI X3.9-1978, 12.8.2 and 13.6.1).

ghost use Rattle.std.specs.Prelude.{◌≡◌, ◌≤◌, ℕ, pos, List, length, if◌then◌else◌};
ghost use Rattle.edit_rules.specs.Reader.{StandsIn, IsWithin};
ghost use Rattle.item_deeds.specs.Forms.{SameForms};
ghost use Rattle.library_calls.specs.Room.{HasRoom};
ghost use Rattle.listed_input.specs.declared.reading.RecordInReading as at;
ghost use Rattle.listed_input.specs.Reading.{line_of, place_of, Gives};
ghost use Rattle.listed_input.specs.Searching.{GoesAnywhere};
ghost use Rattle.internal_output.specs.Files.{file_of};
ghost use Rattle.internal_input.specs.Reading.{ReadsItem};
ghost use Rattle.internal_input.specs.Searching.{Search, Seeking, Steps, kind_in};
ghost use Rattle.internal_input.specs.Steps.{StepsNumber, StepsText, StepsRecord, StepsBad};

use crate::ends::{ItemEnd, ItemRead, Step};
use crate::records::read_next;
use crate::texts::{gather, store_part, store_whole};
use c_tree::outcome::CValue;
use edit_rules::ListItem;
use internal_output::FileRecords;
use internal_records::RecordEnd;
use listed_input::{Item, RecordInReading, kind_read};
use run_bytes::{AccessType, RunBytes};

/// The number of a logical.
fn number_of(truth: bool) -> i32
    ensures { result ≡ (if truth then pos 1 else pos 0) }
{
    if truth { 1 } else { 0 }
}

/// Stores a number, which an item is given.
fn take_number(run: &mut RunBytes, item: Item, number: i32) -> Result<Step, ItemEnd>
    ensures steps { StepsNumber item number run.old run.new result }
    ensures forms { SameForms run.old run.new }
{
    match run.store(item.pointer, AccessType::Number, CValue::Number(number)) {
        Ok(()) => Ok(Step::Read(ItemRead::Given)),
        Err(fault) => Err(ItemEnd::Fault(fault)),
    }
}

/// Puts a piece of a text behind the bytes so far, and stores the text behind its last piece.
fn take_text(
    run: &mut RunBytes,
    buffer: &mut [u8],
    item: Item,
    done: usize,
    piece: &[u8],
    more: bool,
) -> Result<Step, ItemEnd>
    requires within { done ≤ item.size }
    requires room { HasRoom (length buffer.old) run.old }
    ensures steps { StepsText more item done piece.now buffer.old buffer.new run.old run.new result }
    ensures forms { SameForms run.old run.new }
{
    let behind = gather(buffer, item.size, done, piece);
    if more {
        return Ok(Step::GoesOn(behind));
    }
    match store_whole(run, buffer, item.pointer, item.size, behind) {
        Ok(()) => Ok(Step::Read(ItemRead::Given)),
        Err(fault) => Err(ItemEnd::Fault(fault)),
    }
}

/// Ends a transfer with a number, once the bytes of a text so far are stored.
fn stop(
    run: &mut RunBytes,
    buffer: &[u8],
    item: Item,
    done: usize,
    number: i32,
) -> Result<Step, ItemEnd>
    requires { HasRoom (length buffer.now) run.old }
    ensures steps { StepsBad item done number buffer.now run.old run.new result }
    ensures forms { SameForms run.old run.new }
{
    match store_part(run, buffer, item.pointer, done) {
        Ok(()) => Err(ItemEnd::Number(number)),
        Err(fault) => Err(ItemEnd::Fault(fault)),
    }
}

/// Goes on in the next record.
fn take_record(
    reading: &mut RecordInReading,
    file: &mut FileRecords,
    run: &mut RunBytes,
    buffer: &[u8],
    item: Item,
    done: usize,
) -> Result<Step, ItemEnd>
    requires anywhere { (line : List ℕ) → StandsIn reading.old.reader line }
    requires room { HasRoom (length buffer.now) run.old }
    ensures steps { StepsRecord item done buffer.now reading.old reading.new run.old run.new (file_of file.old) (file_of file.new) result }
    ensures forms { SameForms run.old run.new }
{
    match read_next(reading, file, run) {
        Ok(()) => Ok(Step::GoesOn(done)),
        Err(RecordEnd::Number(number)) => stop(run, buffer, item, done, number),
        Err(RecordEnd::Fault(fault)) => Err(ItemEnd::Fault(fault)),
    }
}

/// Gives an item what its record gives it, whose text has so many bytes so far.
fn take_item(
    given: ListItem,
    reading: &mut RecordInReading,
    file: &mut FileRecords,
    run: &mut RunBytes,
    buffer: &mut [u8],
    item: Item,
    done: usize,
) -> Result<Step, ItemEnd>
    requires done { done ≤ item.size }
    requires within { IsWithin (line_of reading.old) given }
    requires anywhere { GoesAnywhere given reading.old.reader }
    requires room { HasRoom (length buffer.old) run.old }
    ensures steps { (from : Search) → (before : at.RecordInReading) → from.item ≡ item → from.objects ≡ run.old → Gives (kind_in from) before reading.old given →
        Seeking from before (file_of file.old) buffer.old done →
        Steps from before (file_of file.old) reading.new run.new (file_of file.new) buffer.new result }
    ensures forms { SameForms run.old run.new }
{
    match given {
        ListItem::Int(number) => take_number(run, item, number),
        ListItem::Logical(truth) => take_number(run, item, number_of(truth)),
        ListItem::Text { from, to, more } => {
            let line = &reading.line[..reading.used];
            take_text(run, buffer, item, done, &line[from..to], more)
        }
        ListItem::Null => Ok(Step::Read(ItemRead::Given)),
        ListItem::Slash => Ok(Step::Read(ItemRead::Slashed)),
        ListItem::NeedLine => take_record(reading, file, run, buffer, item, done),
        ListItem::Bad(number) => stop(run, buffer, item, done, i32::from(number)),
    }
}

/// Reads one item: its value is sought in the record that is being read and in as many behind it as it takes. The buffer is as long as the
/// largest object.
pub(crate) fn read_item(
    reading: &mut RecordInReading,
    file: &mut FileRecords,
    run: &mut RunBytes,
    buffer: &mut [u8],
    item: Item,
) -> Result<ItemRead, ItemEnd>
    requires { HasRoom (length buffer.old) run.old }
    ensures reads { ReadsItem item (place_of reading.old) (place_of reading.new) run.old run.new (file_of file.old) (file_of file.new) result }
    ensures forms { SameForms run.old run.new }
{
    let kind = kind_read(item.kind);
    let mut done = 0;
    loop {
        let given = reading.next(kind);
        match take_item(given, reading, file, run, buffer, item, done) {
            Ok(Step::GoesOn(behind)) => done = behind,
            Ok(Step::Read(read)) => return Ok(read),
            Err(end) => return Err(end),
        }
    }
}
