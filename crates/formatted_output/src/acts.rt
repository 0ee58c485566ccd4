//! The edits that take no item (ANSI X3.9-1978, 13.5).

ghost use Rattle.std.specs.Prelude.{◌≡◌, ◌-◌, ◌∷◌, [], List, ℕ, Some, false, take, drop};
ghost use Rattle.f2c_outside.specs.Rows.{rows_of};
ghost use Rattle.c_tree.specs.TransferOutput.{halt_number};
ghost use Rattle.edit_rules.specs.edit_meaning.Formats.{Control, Literal, NextRecord, Act};
ghost use Rattle.edit_rules.specs.edit_meaning.ListItems.{characters};
ghost use Rattle.edit_rules.specs.edit_meaning.EditedRecords.{Sheet, unit_sheet, with_control};
ghost use Rattle.edit_rules.specs.PartPlaces.{edit_in, literal_of};
ghost use Rattle.listed_output.specs.Writing.{Writes};
ghost use Rattle.formatted_records.specs.Sheets as sheets;
ghost use Rattle.formatted_output.specs.Acting.{IsUndoubled, TurnOf, InRecord, Does};

use c_tree::outcome::CFault;
use edit_rules::Edit;
use f2c_outside::devices::Device;
use f2c_outside::unit_table::UnitTable;
use formatted_records::{Field, Halt, RecordSheet};
use run_state::UnitRefusal;

/// The columns of a record.
const COLUMNS: usize = 1024;

/// Why an output goes no further.
#[derive(Clone, Copy)]
pub(crate) enum Stop {
    /// Its record or its format halts it, by the number of an error.
    Number(i32),
    /// The unit refuses a record.
    Refused(UnitRefusal),
    /// An item has a fault.
    Fault(CFault),
}

/// What an edit is for.
#[derive(Clone, Copy)]
pub enum Turn {
    /// It takes an item.
    Takes(Field),
    /// It takes none.
    Acts,
    /// The format gives no further edit.
    Ends,
}

/// What an edit of a walk is for.
pub fn turn_of(edit: Edit) -> Turn
    ensures { (text : List ℕ) → TurnOf (edit_in text edit) result }
{
    match edit {
        Edit::Int { width, least } => Turn::Takes(Field::Int { width, least }),
        Edit::Logical { width } => Turn::Takes(Field::Logical { width }),
        Edit::Text { width } => Turn::Takes(Field::Text { width }),
        Edit::Done | Edit::NoDescriptor => Turn::Ends,
        _ => Turn::Acts,
    }
}

/// The number of the error by which a record halts an output.
pub(crate) fn stop_by(halt: Halt) -> Stop
    ensures { result ≡ Stop.Number (halt_number (sheets.halt_of halt)) }
{
    match halt {
        Halt::PastColumns => Stop::Number(5),
        Halt::EndOfRecords => Stop::Number(-1),
        Halt::OtherType => Stop::Number(4),
    }
}

/// Writes one record to a unit.
pub(crate) fn write_record(
    units: &mut UnitTable,
    unit: i32,
    record: &[u8],
) -> Result<(), UnitRefusal>
    requires { Unit {0} }
    ensures { Writes unit (record.now ∷ []) (rows_of (λ b. (⟦<dyn Device as Device>⟧ b.vtable).device_state b.value) units.old) (rows_of (λ b. (⟦<dyn Device as Device>⟧ b.vtable).device_state b.value) units.new) result }
{
    units.write_to(unit, record)
}

/// Copies the characters of a text between apostrophes, in which they are doubled. None where there are more than the line has columns.
fn undoubled(text: &[u8], into: &mut [u8]) -> Option<usize>
    ensures { IsUndoubled (characters false text.now) into.new result }
{
    let mut quoted = false;
    let mut used = 0;
    for character in text {
        let is_quote = *character == b'\'';
        if is_quote && !quoted {
            quoted = true;
        } else if quoted && !is_quote {
            return Some(used);
        } else if used == into.len() {
            return None;
        } else {
            into[used] = *character;
            used += 1;
            quoted = false;
        }
    }
    Some(used)
}

/// The characters of a text from a place up to another.
fn between(text: &[u8], from: usize, to: usize) -> &[u8]
    ensures { result.now ≡ take (to - from) (drop from text.now) }
{
    let rest = &text[from.min(text.len())..];
    let count = to.saturating_sub(from);
    &rest[..count.min(rest.len())]
}

/// Writes a literal in which apostrophes are doubled.
fn put_quoted(sheet: &mut RecordSheet, text: &[u8]) -> Result<(), Halt>
    ensures { (page : Sheet) → sheets.Acts page (with_control page (Literal (characters false text.now))) sheet.old sheet.new result }
{
    let mut line = [b' '; COLUMNS];
    match undoubled(text, &mut line) {
        Some(used) => sheet.literal(&line[..used]),
        None => Err(Halt::PastColumns),
    }
}

/// Writes a literal.
fn put_literal(sheet: &mut RecordSheet, text: &[u8], doubled: bool) -> Result<(), Halt>
    ensures { (page : Sheet) → sheets.Acts page (with_control page (Literal (literal_of doubled text.now))) sheet.old sheet.new result }
{
    if doubled {
        put_quoted(sheet, text)
    } else {
        sheet.literal(text)
    }
}

/// Does an edit in the record in the making, on any sheet. The next record is none of them.
///
/// # Errors
/// `PastColumns` where the record has no such column.
pub fn edit_record(sheet: &mut RecordSheet, format: &[u8], edit: Edit) -> Result<(), Halt>
    ensures { (control : Control) → edit_in format.now edit ≡ Some (Act control) → InRecord edit → (page : Sheet) → sheets.Acts page (with_control page control) sheet.old sheet.new result }
{
    match edit {
        Edit::Literal { from, to, doubled } => put_literal(
            sheet,
            between(format, from, to),
            doubled,
        ),
        Edit::Column(column) => sheet.to_column(column),
        Edit::Left(columns) => sheet.left_by(columns),
        Edit::Right(columns) => sheet.right_by(columns),
        Edit::ShowPlus(plus) => {
            sheet.plus_signs(plus);
            Ok(())
        }
        _ => Ok(()),
    }
}

/// Writes the record in the making, and begins the next one.
fn next_record(sheet: &mut RecordSheet, units: &mut UnitTable, unit: i32) -> Result<(), Stop>
    requires { Unit {0} }
    ensures { Does (with_control unit_sheet NextRecord) unit sheet.old sheet.new (rows_of (λ b. (⟦<dyn Device as Device>⟧ b.vtable).device_state b.value) units.old) (rows_of (λ b. (⟦<dyn Device as Device>⟧ b.vtable).device_state b.value) units.new) result }
{
    match write_record(units, unit, sheet.record()) {
        Ok(()) => match sheet.next_record() {
            Ok(()) => Ok(()),
            Err(halt) => Err(stop_by(halt)),
        },
        Err(refusal) => Err(Stop::Refused(refusal)),
    }
}

/// Does an edit that takes no item.
pub(crate) fn act(
    sheet: &mut RecordSheet,
    units: &mut UnitTable,
    unit: i32,
    format: &[u8],
    edit: Edit,
) -> Result<(), Stop>
    requires { Unit {0} }
    ensures { (control : Control) → edit_in format.now edit ≡ Some (Act control) →
        Does (with_control unit_sheet control) unit sheet.old sheet.new (rows_of (λ b. (⟦<dyn Device as Device>⟧ b.vtable).device_state b.value) units.old) (rows_of (λ b. (⟦<dyn Device as Device>⟧ b.vtable).device_state b.value) units.new) result }
{
    match edit {
        Edit::NextRecord => next_record(sheet, units, unit),
        _ => match edit_record(sheet, format, edit) {
            Ok(()) => Ok(()),
            Err(halt) => Err(stop_by(halt)),
        },
    }
}
