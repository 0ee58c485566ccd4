//! Values from their fields (ANSI X3.9-1978, sections 13.5.8 to 13.5.11).

ghost use Rattle.std.specs.Prelude.{◌≡◌, ◌+◌, ◌++◌, drop, replicate, ℕ, Option};
ghost use Rattle.edit_rules.specs.TakeErrors.{numbered};
ghost use Rattle.edit_rules.specs.edit_meaning.Formats.{IntIn, LogicalIn, TextIn};
ghost use Rattle.edit_rules.specs.edit_meaning.TakenFields.{logical_in};
ghost use Rattle.edit_rules.specs.edit_meaning.TakenRecords.{WantInt, WantLogical, WantText, columns_of};
ghost use Rattle.formatted_records.specs.Sheets.{descriptor_of};
ghost use Rattle.taken_records.specs.Records.{Fits, ReadsInt, Takes, line_in, want_of};

use crate::halt::Halt;
use crate::record::{COLUMNS, RecordInput};
use edit_rules::{TakeError, take_int, take_logical};
use formatted_records::Field;

/// What an item wants.
#[derive(Clone, Copy, Debug, PartialEq, Eq)]
pub enum Want {
    /// An integer.
    Int,
    /// A logical.
    Logical,
    /// A text of so many characters.
    Text(usize),
}

/// What an item is given.
#[derive(Clone, Copy, Debug, PartialEq, Eq)]
pub enum Taken {
    /// An integer.
    Int(i32),
    /// A logical.
    Logical(bool),
    /// A text: characters of the record, and blanks behind them.
    Text {
        /// Behind so many columns it begins.
        from: usize,
        /// Behind so many columns its characters end.
        to: usize,
        /// So many blanks follow.
        blanks: usize,
    },
}

/// The columns of a field that are looked at, with blanks behind the last column of a record. More blanks change neither whether a number
/// stands there nor why not.
const WIDEST: usize = 2048;

impl RecordInput {
    /// The columns from the position on, with blanks behind them.
    fn columns_on(&self) -> [u8; WIDEST]
        ensures { result ≡ drop self.now.before self.now.line ++ replicate (1024 + self.now.before) 32 }
    {
        let mut columns = [b' '; WIDEST];
        columns[..COLUMNS - self.before].copy_from_slice(&self.line[self.before..]);
        columns
    }

    /// The integer in a field at the position. Where the field goes past the last column, it does not matter which one.
    fn int_here(&self, width: usize) -> Result<i32, TakeError>
        ensures { ReadsInt self.now width (numbered result) }
    {
        let columns = self.columns_on();
        take_int(&columns[..width.min(WIDEST)], self.zeros)
    }

    /// The logical in a field at the position.
    fn logical_here(&self, width: usize) -> Result<bool, TakeError>
        ensures { numbered result ≡ logical_in (columns_of self.now.before width (line_in self.now)) }
    {
        let columns = self.columns_on();
        take_logical(&columns[..width.min(WIDEST)])
    }

    /// Takes an integer.
    fn take_int(&mut self, width: usize) -> Result<Taken, Halt>
        ensures takes { (least : Option ℕ) → Takes (IntIn width least) WantInt self.old self.new result }
        ensures fits { Fits Want.Int result }
    {
        match self.int_here(width) {
            Ok(number) => match self.right_by(width) {
                Ok(()) => Ok(Taken::Int(number)),
                Err(halt) => Err(halt),
            },
            Err(error) => Err(Halt::BadField(error)),
        }
    }

    /// Takes a logical.
    fn take_logical(&mut self, width: usize) -> Result<Taken, Halt>
        ensures takes { Takes (LogicalIn width) WantLogical self.old self.new result }
        ensures fits { Fits Want.Logical result }
    {
        match self.logical_here(width) {
            Ok(truth) => match self.right_by(width) {
                Ok(()) => Ok(Taken::Logical(truth)),
                Err(halt) => Err(halt),
            },
            Err(error) => Err(Halt::BadField(error)),
        }
    }

    /// Takes a text of so many characters from a field: the rightmost ones of a longer field.
    fn take_text(&mut self, width: usize, size: usize) -> Result<Taken, Halt>
        ensures takes { Takes (TextIn (Some width)) (WantText size) self.old self.new result }
        ensures fits { Fits (Want.Text size) result }
    {
        if width > COLUMNS - self.before {
            return Err(Halt::PastColumns);
        }
        let from = self.before + width.saturating_sub(size);
        self.before += width;
        Ok(Taken::Text {
            from,
            to: self.before,
            blanks: size.saturating_sub(width),
        })
    }

    /// Takes the field of an item at the position, which moves behind it.
    ///
    /// # Errors
    /// `OtherType` where the descriptor is for another type; `BadField` where the field has no such value; `PastColumns` where it goes past the
    /// last column. The input stays as it was.
    pub fn take(&mut self, field: Field, want: Want) -> Result<Taken, Halt>
        ensures takes { Takes (descriptor_of field) (want_of want) self.old self.new result }
        ensures fits { Fits want result }
    {
        match (field, want) {
            (Field::Int { width, .. }, Want::Int) => self.take_int(width),
            (Field::Logical { width }, Want::Logical) => self.take_logical(width),
            (Field::Text { width }, Want::Text(size)) => {
                self.take_text(width.unwrap_or(size), size)
            }
            _ => Err(Halt::OtherType),
        }
    }
}
