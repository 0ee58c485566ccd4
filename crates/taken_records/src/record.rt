//! The record that is being read.

ghost use Rattle.std.specs.Prelude.{◌≡◌, ◌-◌, ◌≤◌, ◌∷◌, [], List, ℕ, Some, length, take, drop, replicate};
ghost use Rattle.edit_rules.specs.edit_meaning.Formats.{Act, Control, Literal, ToColumn, LeftBy, RightBy, ZeroBlanks};
ghost use Rattle.edit_rules.specs.edit_meaning.TakenRecords.{with_control, moved_to};
ghost use Rattle.edit_rules.specs.PartPlaces.{edit_in};

use crate::halt::Halt;
use edit_rules::Edit;

/// The columns of a record.
pub(crate) const COLUMNS: usize = 1024;

/// The record that is being read, which is the front of a line with blanks behind it, the position in it, and whether blanks in numbers
/// are zeros.
#[derive(Clone, Copy, Debug)]
pub struct RecordInput {
    pub(crate) line: [u8; COLUMNS],
    pub(crate) used: usize,
    pub(crate) before: usize,
    pub(crate) zeros: bool,
    ghost whole: { length line ≡ 1024 },
    ghost within: { used ≤ 1024 },
    ghost stands: { before ≤ 1024 },
    ghost blank: { drop used line ≡ replicate (1024 - used) 32 },
}

/// A line whose front is a record.
fn line_of(record: &[u8]) -> [u8; COLUMNS]
    requires { length record.now ≤ 1024 }
    ensures front { take (length record.now) result ≡ record.now }
    ensures blank { drop (length record.now) result ≡ replicate (1024 - length record.now) 32 }
{
    let mut line = [b' '; COLUMNS];
    line[..record.len()].copy_from_slice(record);
    line
}

impl RecordInput {
    ghost use Rattle.taken_records.specs.Records.{Acts, Begins, ComesTo, CountsZeros, TakesNone, characters_in};

    /// An input at its start, in its first record; `zeros` says that blanks in numbers are zeros.
    pub fn begin(record: &[u8], zeros: bool) -> RecordInput
        requires { length record.now ≤ 1024 }
        ensures { Begins record.now zeros result }
    {
        RecordInput {
            line: line_of(record),
            used: record.len(),
            before: 0,
            zeros,
        }
    }

    /// Comes to the next record.
    pub fn next_record(&mut self, record: &[u8])
        requires { length record.now ≤ 1024 }
        ensures { ComesTo record.now self.old self.new }
    {
        *self = RecordInput {
            line: line_of(record),
            used: record.len(),
            before: 0,
            zeros: self.zeros,
        };
    }

    /// The characters of the record from behind so many columns up to behind others, as if blanks stood behind it.
    pub fn characters(&self, from: usize, to: usize) -> &[u8]
        requires order { from ≤ to }
        requires within { to ≤ 1024 }
        ensures { result.now ≡ characters_in self.now from to }
    {
        &self.line[from..to]
    }

    /// A text in the format, which has no place on input.
    ///
    /// # Errors
    /// `TextInFormat`.
    pub fn literal(&mut self) -> Result<(), Halt>
        ensures { (text : List ℕ) → Acts (with_control (Literal text)) self.old self.new result }
    {
        Err(Halt::TextInFormat)
    }

    /// Moves the position behind so many columns.
    fn move_behind(&mut self, columns: usize) -> Result<(), Halt>
        ensures { Acts (moved_to columns) self.old self.new result }
    {
        if columns > COLUMNS {
            return Err(Halt::PastColumns);
        }
        self.before = columns;
        Ok(())
    }

    /// Moves the position to a column (Tn).
    ///
    /// # Errors
    /// `PastColumns` past column 1,025; the position stays as it was.
    pub fn to_column(&mut self, column: usize) -> Result<(), Halt>
        ensures { Acts (with_control (ToColumn column)) self.old self.new result }
    {
        self.move_behind(column.saturating_sub(1))
    }

    /// Moves the position to the left by so many columns, to the first one at most (TLn).
    ///
    /// # Errors
    /// None: the position is never past column 1,025.
    pub fn left_by(&mut self, columns: usize) -> Result<(), Halt>
        ensures { Acts (with_control (LeftBy columns)) self.old self.new result }
    {
        self.move_behind(self.before.saturating_sub(columns))
    }

    /// Moves the position to the right by so many columns (TRn and nX).
    ///
    /// # Errors
    /// `PastColumns` past column 1,025; the position stays as it was.
    pub fn right_by(&mut self, columns: usize) -> Result<(), Halt>
        ensures { Acts (with_control (RightBy columns)) self.old self.new result }
    {
        if columns > COLUMNS {
            return Err(Halt::PastColumns);
        }
        self.move_behind(self.before + columns)
    }

    /// Says whether blanks in numbers are zeros from here on (BZ and BN).
    pub fn zero_blanks(&mut self, zeros: bool)
        ensures { CountsZeros zeros self.old self.new }
    {
        self.zeros = zeros;
    }

    /// Does an edit that takes no item and stays in the record.
    ///
    /// # Errors
    /// `PastColumns` where the record has no such column, `TextInFormat` for a text; the input stays as it was.
    pub fn act(&mut self, edit: Edit) -> Result<(), Halt>
        ensures { (text : List ℕ) → (control : Control) → edit_in text edit ≡ Some (Act control) → TakesNone edit → Acts (with_control control) self.old self.new result }
    {
        match edit {
            Edit::Literal { .. } => self.literal(),
            Edit::Column(column) => self.to_column(column),
            Edit::Left(columns) => self.left_by(columns),
            Edit::Right(columns) => self.right_by(columns),
            Edit::ZeroBlanks(zeros) => {
                self.zero_blanks(zeros);
                Ok(())
            }
            _ => Ok(()),
        }
    }
}
