//! Values in their fields (ANSI X3.9-1978, sections 13.5.9 to 13.5.11).

ghost use Rattle.std.specs.Prelude.{◌≡◌, ◌≤◌, ◌<◌, length, take};
ghost use Rattle.edit_rules.specs.edit_meaning.Formats.{IntIn, LogicalIn, TextIn, Literal};
ghost use Rattle.edit_rules.specs.edit_meaning.EditedFields.{logical_field};
ghost use Rattle.edit_rules.specs.edit_meaning.Listed.{Int, Logical, Text};
ghost use Rattle.edit_rules.specs.edit_meaning.EditedRecords.{Sheet, field_of, with_control, with_field};
ghost use Rattle.edit_rules.specs.Writer.{value_of};
ghost use Rattle.formatted_records.specs.Sheets.{Acts, descriptor_of};

use crate::halt::Halt;
use crate::sheet::{COLUMNS, RecordSheet};
use edit_rules::{ListValue, edit_int, edit_logical, edit_text};

/// The field of a value: its descriptor.
#[derive(Clone, Copy, Debug, PartialEq, Eq)]
pub enum Field {
    /// Iw and Iw.m.
    Int {
        /// The columns of the field.
        width: usize,
        /// The least number of digits, one where nothing is said.
        least: Option<usize>,
    },
    /// Lw.
    Logical {
        /// The columns of the field.
        width: usize,
    },
    /// A and Aw.
    Text {
        /// The columns of the field, as many as the text has where nothing is said.
        width: Option<usize>,
    },
}

/// Writes an integer.
fn put_int(
    sheet: &mut RecordSheet,
    value: i32,
    width: usize,
    least: Option<usize>,
) -> Result<(), Halt>
    ensures { (on : Sheet) → Acts on (λ out. with_field on (field_of (IntIn width least) (Int value) out.plus) out) sheet.old sheet.new result }
{
    if width > COLUMNS {
        return Err(Halt::PastColumns);
    }
    let mut field = [b' '; COLUMNS];
    edit_int(value, width, least, sheet.shows_plus(), &mut field[..width]);
    sheet.literal(&field[..width])
}

/// Writes a logical into some columns.
fn put_truth(sheet: &mut RecordSheet, value: bool, columns: usize) -> Result<(), Halt>
    requires some { 0 < columns }
    requires within { columns ≤ 1024 }
    ensures { (on : Sheet) → Acts on (with_control on (Literal (logical_field value columns))) sheet.old sheet.new result }
{
    let mut field = [b' '; COLUMNS];
    edit_logical(value, &mut field[..columns]);
    sheet.literal(&field[..columns])
}

/// Writes a logical.
fn put_logical(sheet: &mut RecordSheet, value: bool, width: usize) -> Result<(), Halt>
    ensures { (on : Sheet) → Acts on (λ out. with_field on (field_of (LogicalIn width) (Logical value) out.plus) out) sheet.old sheet.new result }
{
    if width > COLUMNS {
        return Err(Halt::PastColumns);
    }
    put_truth(sheet, value, width.max(1))
}

/// Writes a text into a field of so many columns.
fn put_text(sheet: &mut RecordSheet, value: &[u8], width: usize) -> Result<(), Halt>
    ensures { (on : Sheet) → Acts on (λ out. with_field on (field_of (TextIn (Some width)) (Text value.now) out.plus) out) sheet.old sheet.new result }
{
    if width > COLUMNS {
        return Err(Halt::PastColumns);
    }
    let mut field = [b' '; COLUMNS];
    edit_text(value, &mut field[..width]);
    sheet.literal(&field[..width])
}

/// Writes a text as it is.
fn put_whole(sheet: &mut RecordSheet, value: &[u8]) -> Result<(), Halt>
    ensures { (on : Sheet) → Acts on (λ out. with_field on (field_of (TextIn None) (Text value.now) out.plus) out) sheet.old sheet.new result }
{
    sheet.literal(value)
}

impl RecordSheet {
    /// Writes a value in its field at the position, which moves behind it.
    ///
    /// # Errors
    /// `OtherType` where the field is for another type; `PastColumns` where it goes past the last column. The sheet stays as it was.
    pub fn field(&mut self, field: Field, value: ListValue<'_>) -> Result<(), Halt>
        ensures { (on : Sheet) → Acts on (λ out. with_field on (field_of (descriptor_of field) (value_of value.entry) out.plus) out) self.old self.new result }
    {
        match (field, value) {
            (Field::Int { width, least }, ListValue::Int(value)) => put_int(
                self, value, width, least,
            ),
            (Field::Logical { width }, ListValue::Logical(value)) => put_logical(
                self, value, width,
            ),
            (Field::Text { width: Some(width) }, ListValue::Text(value)) => put_text(
                self, value, width,
            ),
            (Field::Text { width: None }, ListValue::Text(value)) => put_whole(self, value),
            _ => Err(Halt::OtherType),
        }
    }
}
