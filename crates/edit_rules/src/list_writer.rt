//! List-directed output (ANSI X3.9-1978, section 13.6.2): values into records of 80 columns.
ghost use Rattle.std.specs.Prelude.{◌≡◌, ℕ, ◌+◌, ◌<◌, ◌≤◌, List, [], ◌∷◌, ◌++◌, length, take, drop};
ghost use Rattle.std.specs.Fmt.{signed_decimal};

use crate::columns::place;
use itoa::Buffer;

/// The columns of a record.
const COLUMNS: usize = 80;

/// The columns of a record behind its first blank.
const PIECE: usize = 79;

/// The bytes of one blank and the longest integer.
const NUMBER: usize = 12;

/// A value of an output list.
#[derive(Clone, Copy, Debug)]
pub enum ListValue<'a> {
    Int(i32),
    Logical(bool),
    Text(&'a [u8]),
}

/// What a put did.
#[derive(Clone, Copy, Debug, PartialEq, Eq)]
pub enum ListPut {
    /// The whole item stands in the record in the making.
    Placed,
    /// The record is complete, with so many bytes. It is written first, and the same item is put again.
    Full(usize),
}

/// The place in the record in the making, in bytes, and the bytes of the item that complete records hold.
#[derive(Clone, Copy, Debug)]
pub struct ListWriter {
    used: usize,
    done: usize,
    ghost begins: { 1 ≤ used },
    ghost within: { used ≤ 80 },
}

impl ListWriter {
    ghost use Rattle.edit_meaning.specs.Listed.{ListedValue};
    ghost use Rattle.edit_rules.specs.Writer.{used_by, done_by, value_of, text_of, Puts, Stands, GoesOn};

    /// Stands at the start of an output: the record in the making holds its first blank.
    pub fn start() -> ListWriter
        ensures used { used_by result ≡ 1 }
        ensures done { done_by result ≡ 0 }
    {
        ListWriter { used: 1, done: 0 }
    }

    /// The length in bytes of the record in the making.
    pub fn used(&self) -> usize
        ensures { result ≡ used_by self.now }
    {
        self.used
    }

    /// Places the item in the record in the making, which is the front of `line`.
    ///
    /// `line` has 80 bytes and begins with a blank. After `Full` the same item is put again, with this line.
    pub fn put(&mut self, item: ListValue<'_>, line: &mut [u8]) -> ListPut
        requires columns { length line.old ≡ 80 }
        requires blank { take 1 line.old ≡ 32 ∷ [] }
        requires within { done_by self.old ≤ length (text_of item) }
        ensures puts { Puts self.old line.old (text_of item.entry) result self.new line.new }
        ensures blank { take 1 line.new ≡ 32 ∷ [] }
        ensures listed { (values : List ListedValue) → (complete : List (List ℕ)) → Stands values (value_of item.entry) complete self.old line.old
            → GoesOn values (value_of item.entry) complete result self.new line.new }
    {
        self.put_item(item, line)
    }
}

impl ListWriter {
    ghost use Rattle.edit_meaning.specs.Listed.{shown, Int};
    ghost use Rattle.edit_rules.specs.Writer.{done_by, text_of, Puts};

    /// Puts the text of an item.
    #[tactic(auto, unfolding(edit_meaning::specs::Listed::shown))]
    fn put_item(&mut self, item: ListValue<'_>, line: &mut [u8]) -> ListPut
        requires columns { length line.old ≡ 80 }
        requires blank { take 1 line.old ≡ 32 ∷ [] }
        requires within { done_by self.old ≤ length (text_of item) }
        ensures puts { Puts self.old line.old (text_of item.entry) result self.new line.new }
        ensures blank { take 1 line.new ≡ 32 ∷ [] }
    {
        match item {
            ListValue::Int(number) => self.put_int(number, line),
            ListValue::Logical(true) => self.put_text(b" T", line),
            ListValue::Logical(false) => self.put_text(b" F", line),
            ListValue::Text(text) => self.put_text(text, line),
        }
    }

    #[tactic(auto, unfolding(edit_meaning::specs::Listed::shown))]
    /// Puts one blank and the number's shortest text.
    fn put_int(&mut self, number: i32, line: &mut [u8]) -> ListPut
        requires columns { length line.old ≡ 80 }
        requires blank { take 1 line.old ≡ 32 ∷ [] }
        requires within { done_by self.old ≤ length (shown (Int number)) }
        ensures puts { Puts self.old line.old (shown (Int number)) result self.new line.new }
        ensures blank { take 1 line.new ≡ 32 ∷ [] }
    {
        let mut text = [b' '; NUMBER];
        let used = show_int(number, &mut text);
        self.put_text(&text[..used], line)
    }

    /// Puts a text that stands as it is.
    fn put_text(&mut self, text: &[u8], line: &mut [u8]) -> ListPut
        requires columns { length line.old ≡ 80 }
        requires blank { take 1 line.old ≡ 32 ∷ [] }
        requires within { done_by self.old ≤ length text.now }
        ensures puts { Puts self.old line.old text.now result self.new line.new }
        ensures blank { take 1 line.new ≡ 32 ∷ [] }
    {
        let left = text.len() - self.done;
        if left <= COLUMNS - self.used {
            place(&text[self.done..], line, self.used);
            self.used += left;
            self.done = 0;
            return ListPut::Placed;
        }
        let used = self.used;
        if used > 1 {
            self.used = 1;
            return ListPut::Full(used);
        }
        place(&text[self.done..self.done + PIECE], line, 1);
        self.done += PIECE;
        ListPut::Full(COLUMNS)
    }
}

/// One blank and the number's shortest text, at the front of `into`; gives their length.
fn show_int(number: i32, into: &mut [u8]) -> usize
    requires { length into.old ≡ 12 }
    ensures within { result ≤ 12 }
    ensures text { take result into.new ≡ 32 ∷ signed_decimal number }
{
    let mut buffer = Buffer::new();
    let digits = buffer.format(number).as_bytes();
    into[0] = b' ';
    place(digits, into, 1);
    digits.len() + 1
}
