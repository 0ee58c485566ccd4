//! The record in the making of a formatted output.

ghost use Rattle.std.specs.Prelude.{◌≡◌, ◌≤◌, ◌∷◌, [], List, ℕ, Some, None};
ghost use Rattle.edit_rules.specs.edit_meaning.Formats.{Literal, ToColumn, LeftBy, RightBy, NextRecord, PlusSigns};
ghost use Rattle.edit_rules.specs.edit_meaning.EditedRecords.{Sheet, unit_sheet, internal_sheet, with_control, with_text, moved_to};

use crate::columns::write_at;
use crate::halt::Halt;

/// The columns of a record.
pub(crate) const COLUMNS: usize = 1024;

/// The record in the making, which is the front of a line, and the position in it.
#[derive(Clone, Copy, Debug)]
pub struct RecordSheet {
    line: [u8; COLUMNS],
    used: usize,
    before: usize,
    plus: bool,
    columns: usize,
    left: Option<usize>,
    ghost within: { used ≤ 1024 },
    ghost stands: { before ≤ 1024 },
    ghost narrow: { columns ≤ 1024 },
}

impl RecordSheet {
    ghost use Rattle.formatted_records.specs.Sheets.{making_in, Acts, Arrives, Begins, BeginsIn, HasPlus};

    /// The first record of a unit, of 1,024 columns.
    pub fn on_unit() -> RecordSheet
        ensures { Begins unit_sheet result }
    {
        RecordSheet {
            line: [b' '; COLUMNS],
            used: 0,
            before: 0,
            plus: false,
            columns: COLUMNS,
            left: None,
        }
    }

    /// The first record of an internal file of so many records, each of so many columns, of which 1,024 are used.
    ///
    /// # Errors
    /// `EndOfRecords` where the file has no record.
    pub fn in_file(records: usize, columns: usize) -> Result<RecordSheet, Halt>
        ensures { BeginsIn (internal_sheet records columns) result }
    {
        if records == 0 {
            return Err(Halt::EndOfRecords);
        }
        Ok(RecordSheet {
            line: [b' '; COLUMNS],
            used: 0,
            before: 0,
            plus: false,
            columns: columns.min(COLUMNS),
            left: Some(records),
        })
    }

    /// The record in the making, up to the last column that was written. Behind the last edit it is the last record of the output.
    pub fn record(&self) -> &[u8]
        ensures { result.now ≡ making_in self.now }
    {
        &self.line[..self.used]
    }

    /// Whether plus signs are written.
    pub(crate) fn shows_plus(&self) -> bool
        ensures { result ≡ self.now.plus }
    {
        self.plus
    }

    /// Writes a text at the position, which moves behind it.
    ///
    /// # Errors
    /// `PastColumns` where the text goes past the last column; the sheet stays as it was.
    pub fn literal(&mut self, text: &[u8]) -> Result<(), Halt>
        ensures { (sheet : Sheet) → Acts sheet (with_control sheet (Literal text.now)) self.old self.new result }
    {
        if text.len() > self.columns || self.before > self.columns - text.len() {
            return Err(Halt::PastColumns);
        }
        self.used = write_at(&mut self.line, self.used, self.before, text);
        self.before += text.len();
        Ok(())
    }

    /// Moves the position behind so many columns.
    fn move_behind(&mut self, columns: usize) -> Result<(), Halt>
        ensures { (sheet : Sheet) → Acts sheet (moved_to columns) self.old self.new result }
    {
        if columns > COLUMNS {
            return Err(Halt::PastColumns);
        }
        self.before = columns;
        Ok(())
    }

    /// Moves the position to a column (Tn).
    ///
    /// # Errors
    /// `PastColumns` past column 1,025; the sheet stays as it was.
    pub fn to_column(&mut self, column: usize) -> Result<(), Halt>
        ensures { (sheet : Sheet) → Acts sheet (with_control sheet (ToColumn column)) self.old self.new result }
    {
        self.move_behind(column.saturating_sub(1))
    }

    /// Moves the position to the left by so many columns, to the first one at most (TLn).
    ///
    /// # Errors
    /// None: the position is never past column 1,025.
    pub fn left_by(&mut self, columns: usize) -> Result<(), Halt>
        ensures { (sheet : Sheet) → Acts sheet (with_control sheet (LeftBy columns)) self.old self.new result }
    {
        self.move_behind(self.before.saturating_sub(columns))
    }

    /// Moves the position to the right by so many columns (TRn and nX).
    ///
    /// # Errors
    /// `PastColumns` past column 1,025; the sheet stays as it was.
    pub fn right_by(&mut self, columns: usize) -> Result<(), Halt>
        ensures { (sheet : Sheet) → Acts sheet (with_control sheet (RightBy columns)) self.old self.new result }
    {
        if columns > COLUMNS {
            return Err(Halt::PastColumns);
        }
        self.move_behind(self.before + columns)
    }

    /// Says whether plus signs are written from here on (SP, and S or SS).
    pub fn plus_signs(&mut self, plus: bool)
        ensures { HasPlus plus self.old self.new }
    {
        self.plus = plus;
    }

    /// Begins the next record behind one that is complete and was read.
    ///
    /// # Errors
    /// `EndOfRecords` where the internal file has no further record.
    pub fn next_record(&mut self) -> Result<(), Halt>
        ensures { (sheet : Sheet) → Arrives sheet self.old self.new result }
    {
        self.used = 0;
        self.before = 0;
        self.left = self.left.map(|left| left.saturating_sub(1));
        if self.left == Some(0) {
            Err(Halt::EndOfRecords)
        } else {
            Ok(())
        }
    }
}
