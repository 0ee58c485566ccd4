//! The items of a call, each read before the next (ANSI X3.9-1978, 12.8.2 and 13.6.1).

ghost use Rattle.std.specs.Prelude.{◌≡◌, ◌≤◌, ℕ, pos, List, if◌then◌else◌};
ghost use Rattle.edit_rules.specs.Reader.{StandsIn, IsWithin};
ghost use Rattle.f2c_outside.specs.Rows.{rows_of};
ghost use Rattle.item_deeds.specs.Forms.{SameForms};
ghost use Rattle.listed_input.specs.declared.reading.RecordInReading as at;
ghost use Rattle.listed_input.specs.Reading.{line_of, place_of, Gives, ReadsItem};
ghost use Rattle.listed_input.specs.Searching.{Search, Seeking, Steps, GoesAnywhere, kind_in};
ghost use Rattle.listed_input.specs.Steps.{StepsNumber, StepsText, StepsRecord};

use crate::ends::{ItemEnd, ItemRead, Step};
use crate::kinds::{Item, kind_read};
use crate::reading::RecordInReading;
use crate::records::next_record;
use crate::texts::{pad, put_piece};
use c_tree::outcome::CValue;
use edit_rules::ListItem;
use f2c_outside::devices::Device;
use f2c_outside::unit_table::UnitTable;
use run_bytes::{AccessType, RunBytes};

/// The number of a logical.
fn number_of(truth: bool) -> i32
    ensures { result ≡ (if truth then pos 1 else pos 0) }
{
    if truth { 1 } else { 0 }
}

/// Stores a number, which an item is given.
fn take_number(run: &mut RunBytes, item: Item, number: i32) -> Result<Step, ItemEnd>
    ensures steps { StepsNumber item number run.old run.new result }
    ensures forms { SameForms run.old run.new }
{
    match run.store(item.pointer, AccessType::Number, CValue::Number(number)) {
        Ok(()) => Ok(Step::Read(ItemRead::Given)),
        Err(fault) => Err(ItemEnd::Fault(fault)),
    }
}

/// Stores a piece of a text behind the bytes that are done, and blanks behind the last one.
fn take_text(
    run: &mut RunBytes,
    item: Item,
    done: usize,
    piece: &[u8],
    more: bool,
) -> Result<Step, ItemEnd>
    requires { done ≤ item.size }
    ensures steps { StepsText more item done piece.now run.old run.new result }
    ensures forms { SameForms run.old run.new }
{
    match put_piece(run, item.pointer, item.size, done, piece) {
        Ok(behind) => {
            if more {
                return Ok(Step::GoesOn(behind));
            }
            match pad(run, item.pointer, item.size, behind) {
                Ok(()) => Ok(Step::Read(ItemRead::Given)),
                Err(end) => Err(end),
            }
        }
        Err(end) => Err(end),
    }
}

/// Goes on in the next record.
fn take_record(
    reading: &mut RecordInReading,
    units: &mut UnitTable,
    unit: i32,
    done: usize,
) -> Result<Step, ItemEnd>
    requires { (line : List ℕ) → StandsIn reading.old.reader line }
    ensures { StepsRecord unit done reading.old reading.new (rows_of (λ b. (⟦<dyn Device as Device>⟧ b.vtable).device_state b.value) units.old) (rows_of (λ b. (⟦<dyn Device as Device>⟧ b.vtable).device_state b.value) units.new) result }
{
    match next_record(reading, units, unit) {
        Ok(()) => Ok(Step::GoesOn(done)),
        Err(end) => Err(end),
    }
}

/// Gives an item what its record gives it, of whose text so many bytes are done.
fn take_item(
    given: ListItem,
    reading: &mut RecordInReading,
    units: &mut UnitTable,
    unit: i32,
    run: &mut RunBytes,
    item: Item,
    done: usize,
) -> Result<Step, ItemEnd>
    requires done { done ≤ item.size }
    requires within { IsWithin (line_of reading.old) given }
    requires anywhere { GoesAnywhere given reading.old.reader }
    ensures steps { (from : Search) → (before : at.RecordInReading) → from.unit ≡ unit → from.item ≡ item → Gives (kind_in from) before reading.old given →
        Seeking from before run.old (rows_of (λ b. (⟦<dyn Device as Device>⟧ b.vtable).device_state b.value) units.old) done →
        Steps from reading.new run.new (rows_of (λ b. (⟦<dyn Device as Device>⟧ b.vtable).device_state b.value) units.new) result }
    ensures forms { SameForms run.old run.new }
{
    match given {
        ListItem::Int(number) => take_number(run, item, number),
        ListItem::Logical(truth) => take_number(run, item, number_of(truth)),
        ListItem::Text { from, to, more } => {
            let line = &reading.line[..reading.used];
            take_text(run, item, done, &line[from..to], more)
        }
        ListItem::Null => Ok(Step::Read(ItemRead::Given)),
        ListItem::Slash => Ok(Step::Read(ItemRead::Slashed)),
        ListItem::NeedLine => take_record(reading, units, unit, done),
        ListItem::Bad(number) => Err(ItemEnd::Number(i32::from(number))),
    }
}

/// Reads one item: its value is sought in the record that is being read and in as many behind it as it takes.
pub(crate) fn read_item(
    reading: &mut RecordInReading,
    units: &mut UnitTable,
    unit: i32,
    run: &mut RunBytes,
    item: Item,
) -> Result<ItemRead, ItemEnd>
    requires { Unit {0} }
    ensures reads { ReadsItem unit item (place_of reading.old) (place_of reading.new) run.old run.new (rows_of (λ b. (⟦<dyn Device as Device>⟧ b.vtable).device_state b.value) units.old) (rows_of (λ b. (⟦<dyn Device as Device>⟧ b.vtable).device_state b.value) units.new) result }
    ensures forms { SameForms run.old run.new }
{
    let kind = kind_read(item.kind);
    let mut done = 0;
    for _ in 0..usize::MAX {
        let given = reading.next(kind);
        match take_item(given, reading, units, unit, run, item, done) {
            Ok(Step::GoesOn(behind)) => done = behind,
            Ok(Step::Read(read)) => return Ok(read),
            Err(end) => return Err(end),
        }
    }
    Err(ItemEnd::Uncounted)
}
