//! List-directed input (ANSI X3.9-1978, section 13.6.1): the values of records, item by item.
ghost use Rattle.std.specs.Prelude.{◌≡◌, ℕ, ◌+◌, ◌<◌, ◌≤◌, List, [], ◌∷◌, false, true, length, take, drop};
ghost use Rattle.edit_meaning.specs.ListInput.{Kind, Between, Wrong, sought, word_length, run_length, behind_constant, given_number, given_truth, piece_before, piece, text_constant, constant_as, nulls, repeated_as, value_as, given_behind, inside, given};
ghost use Rattle.edit_meaning.specs.ListItems.{items_from, Follows};
ghost use Rattle.edit_rules.specs.Reader.{given_as, place_in, kind_of, StandsIn, IsWithin, KeepsPlace};
ghost use Rattle.edit_rules.specs.Answers.{Answers};
ghost use Rattle.edit_rules.specs.TakeErrors.{error_number, numbered};

use crate::list_scan::{
    Sought, TextEnd, digits_len, is_quoted, read_int, read_logical, repeat_count, run_len, seek,
    text_end, word_len,
};
use crate::take::TakeError;

/// The kind of an item.
#[derive(Clone, Copy, Debug, PartialEq, Eq)]
pub enum ItemKind {
    Int,
    Logical,
    Text,
}

/// What an item is given.
#[derive(Clone, Copy, Debug, PartialEq, Eq)]
pub enum ListItem {
    Int(i32),
    Logical(bool),
    /// The bytes of the line from `from` up to `to`; the text goes on under `more`.
    Text { from: usize, to: usize, more: bool },
    /// The item keeps its value.
    Null,
    /// This item and the later ones keep their values.
    Slash,
    /// The line is used up: the same item is asked for with the next line.
    NeedLine,
    /// An error by its number, as IOSTAT= gives it.
    Bad(u8),
}

// Where the reader stands.
#[derive(Clone, Copy, Debug)]
enum Doing {
    // Between values; whether there was one since the last comma or the start.
    Between { valued: bool },
    // Before a constant that stands for so many values more after the next one.
    Repeated { more: usize },
    // So many nulls more after the next one.
    Nulls { more: usize },
    // Inside a text in apostrophes that stands for so many values more, from the constant's place.
    Inside { more: usize, constant: usize },
}

/// The place in the line, in bytes, and what is being done there.
#[derive(Clone, Copy, Debug)]
pub struct ListReader {
    place: usize,
    doing: Doing,
}

// An item and the reader behind it.
#[derive(Clone, Copy)]
struct Next {
    item: ListItem,
    reader: ListReader,
}

impl ListReader {
    /// Stands before the first value of a transfer, in every line.
    pub fn start() -> ListReader
        ensures between { place_in [] result ≡ Between false [] }
        ensures stands { (line : List ℕ) → StandsIn result line }
    {
        ListReader {
            place: 0,
            doing: Doing::Between { valued: false },
        }
    }

    /// What the next item of this kind is given by the line.
    ///
    /// After `NeedLine` the reader stands at the start of any line, and the same item is asked for again. A text comes in pieces; the
    /// same item is asked for while there is more of it.
    pub fn next(&mut self, line: &[u8], kind: ItemKind) -> ListItem
        requires { StandsIn self.old line.now }
        ensures given { given_as line.now result self.new ≡ given (place_in line.now self.old) (kind_of kind) }
        ensures items { (later : List (List ℕ)) → (kinds : List Kind) → Follows
            (items_from (place_in line.now self.old) later (kind_of kind ∷ kinds)) later (kind_of kind) kinds (given_as line.now result self.new) }
        ensures stands { StandsIn self.new line.now }
        ensures within { IsWithin line.now result }
        ensures anywhere { KeepsPlace result self.old self.new }
    {
        let next = self.after(line, kind);
        *self = next.reader;
        next.item
    }
}

impl ListReader {
    /// What comes next in the line, where the last value left off.
    #[tactic(auto, unfolding(edit_meaning::specs::ListInput::given))]
    fn after(&self, line: &[u8], kind: ItemKind) -> Next
        requires { StandsIn self.now line.now }
        ensures { Answers self.now line.now (given (place_in line.now self.now) (kind_of kind)) result }
    {
        match self.doing {
            Doing::Between { valued } => self.behind_separators(line, kind, valued),
            Doing::Repeated { more } => self.constant(line, kind, self.place, more),
            Doing::Nulls { more } => self.nulls(line, self.place, more),
            Doing::Inside { more, constant } => self.inside(line, more, constant),
        }
    }

    /// The value behind the separators at the place.
    fn behind_separators(&self, line: &[u8], kind: ItemKind, valued: bool) -> Next
        requires { self.now.place ≤ length line.now }
        ensures { Answers self.now line.now (given_behind (kind_of kind) (sought valued (drop self.now.place line.now))) result }
    {
        match seek(&line[self.place..], valued) {
            Sought::End { valued } => Next {
                item: ListItem::NeedLine,
                reader: between(valued, 0),
            },
            Sought::Null(behind) => Next {
                item: ListItem::Null,
                reader: between(false, self.place + behind),
            },
            Sought::Slash => Next {
                item: ListItem::Slash,
                reader: *self,
            },
            Sought::Value(from) => self.value(line, kind, self.place + from),
        }
    }

    /// The value at a place: a constant, or one behind a repeat count, or nulls.
    fn value(&self, line: &[u8], kind: ItemKind, at: usize) -> Next
        requires { at ≤ length line.now }
        ensures { Answers self.now line.now (value_as (kind_of kind) (drop at line.now)) result }
    {
        match repeat_count(&line[at..]) {
            Some(count) => self.repeated(line, kind, at + digits_len(&line[at..]) + 1, count - 1),
            None => self.constant(line, kind, at, 0),
        }
    }

    /// A constant that stands for `more` values more, or so many nulls.
    fn repeated(&self, line: &[u8], kind: ItemKind, at: usize, more: usize) -> Next
        requires { at ≤ length line.now }
        ensures { Answers self.now line.now (repeated_as (kind_of kind) more (drop at line.now)) result }
    {
        if word_len(&line[at..]) > 0 {
            self.constant(line, kind, at, more)
        } else {
            self.nulls(line, at, more)
        }
    }

    /// The constant at a place.
    fn constant(&self, line: &[u8], kind: ItemKind, at: usize, more: usize) -> Next
        requires { at ≤ length line.now }
        ensures { Answers self.now line.now (constant_as (kind_of kind) more (drop at line.now)) result }
    {
        let end = at + word_len(&line[at..]);
        match kind {
            ItemKind::Int => self.number(line, read_int(&line[at..end]), behind(more, at, end)),
            ItemKind::Logical => self.truth(
                line,
                read_logical(&line[at..end]),
                behind(more, at, end),
            ),
            ItemKind::Text => self.text(line, at, end, more),
        }
    }

    /// The text of a constant at a place, up to its end or, in apostrophes, its first piece.
    fn text(&self, line: &[u8], at: usize, end: usize, more: usize) -> Next
        requires at { at ≤ length line.now }
        requires end { end ≡ at + word_length (drop at line.now) }
        ensures { Answers self.now line.now (text_constant more (drop at line.now) (drop at line.now)) result }
    {
        if is_quoted(&line[at..]) {
            return self.piece(line, at + 1, more, at);
        }
        Next {
            item: ListItem::Text {
                from: at,
                to: end,
                more: false,
            },
            reader: behind(more, at, end),
        }
    }

    /// What an item gets inside a text in apostrophes.
    fn inside(&self, line: &[u8], more: usize, constant: usize) -> Next
        requires place { self.now.place ≤ length line.now }
        requires constant { constant ≤ length line.now }
        ensures { Answers self.now line.now (inside more (drop constant line.now) (drop self.now.place line.now)) result }
    {
        if self.place < line.len() {
            return self.piece(line, self.place, more, constant);
        }
        if more > 0 {
            return self.bad(TakeError::BadInteger);
        }
        let doing = Doing::Inside {
            more: 0,
            constant: 0,
        };
        Next {
            item: ListItem::NeedLine,
            reader: ListReader { place: 0, doing },
        }
    }

    /// A piece of a text in apostrophes, from a place on.
    fn piece(&self, line: &[u8], from: usize, more: usize, constant: usize) -> Next
        requires from { from ≤ length line.now }
        requires constant { constant ≤ length line.now }
        ensures { Answers self.now line.now (piece more (drop constant line.now) (drop from line.now)) result }
    {
        match text_end(&line[from..]) {
            TextEnd::Well => self.run(line, from, more, constant),
            TextEnd::Badly => self.bad(TakeError::BadInteger),
            TextEnd::Open => {
                if more == 0 {
                    self.run(line, from, more, constant)
                } else {
                    self.bad(TakeError::BadInteger)
                }
            }
        }
    }

    /// The characters up to the next apostrophe, with one of two.
    fn run(&self, line: &[u8], from: usize, more: usize, constant: usize) -> Next
        requires from { from ≤ length line.now }
        requires constant { constant ≤ length line.now }
        ensures { Answers self.now line.now
            (piece_before more (drop constant line.now) (take (run_length (drop from line.now)) (drop from line.now))
            (drop (run_length (drop from line.now)) (drop from line.now))) result }
    {
        let to = from + run_len(&line[from..]);
        let inside = Doing::Inside { more, constant };
        if to + 1 < line.len() && line[to + 1] == b'\'' {
            let reader = ListReader {
                place: to + 2,
                doing: inside,
            };
            return Next {
                item: ListItem::Text {
                    from,
                    to: to + 1,
                    more: true,
                },
                reader,
            };
        }
        if to < line.len() {
            let reader = behind(more, constant, to + 1);
            return Next {
                item: ListItem::Text {
                    from,
                    to,
                    more: false,
                },
                reader,
            };
        }
        let reader = ListReader {
            place: to,
            doing: inside,
        };
        Next {
            item: ListItem::Text {
                from,
                to,
                more: true,
            },
            reader,
        }
    }

    /// A null, and `more` nulls more.
    fn nulls(&self, line: &[u8], at: usize, more: usize) -> Next
        requires { at ≤ length line.now }
        ensures { Answers self.now line.now (nulls more (drop at line.now)) result }
    {
        let reader = if more == 0 {
            between(true, at)
        } else {
            ListReader {
                place: at,
                doing: Doing::Nulls { more: more - 1 },
            }
        };
        let item = ListItem::Null;
        Next { item, reader }
    }

    /// An error by its number.
    fn bad(&self, error: TakeError) -> Next
        ensures { (line : List ℕ) → Answers self.now line (Wrong (error_number error)) result }
    {
        Next {
            item: ListItem::Bad(error.number()),
            reader: *self,
        }
    }

    /// The item of an integer, and the reader behind it.
    fn number(&self, line: &[u8], word: Result<i32, TakeError>, reader: ListReader) -> Next
        requires { StandsIn reader line.now }
        ensures { Answers self.now line.now (given_number (numbered word) (place_in line.now reader)) result }
    {
        match word {
            Ok(number) => Next {
                item: ListItem::Int(number),
                reader,
            },
            Err(error) => self.bad(error),
        }
    }

    /// The item of a logical, and the reader behind it.
    fn truth(&self, line: &[u8], word: Result<bool, TakeError>, reader: ListReader) -> Next
        requires { StandsIn reader line.now }
        ensures { Answers self.now line.now (given_truth (numbered word) (place_in line.now reader)) result }
    {
        match word {
            Ok(truth) => Next {
                item: ListItem::Logical(truth),
                reader,
            },
            Err(error) => self.bad(error),
        }
    }
}

/// Between values at a place.
fn between(valued: bool, place: usize) -> ListReader
    ensures place { (line : List ℕ) → place_in line result ≡ Between valued (drop place line) }
    ensures stands { (line : List ℕ) → place ≤ length line → StandsIn result line }
{
    ListReader {
        place,
        doing: Doing::Between { valued },
    }
}

/// Behind a constant that stands for `more` values more.
fn behind(more: usize, constant: usize, end: usize) -> ListReader
    ensures place { (line : List ℕ) → place_in line result ≡ behind_constant more (drop constant line) (drop end line) }
    ensures stands { (line : List ℕ) → constant ≤ length line → end ≤ length line → StandsIn result line }
{
    if more == 0 {
        between(true, end)
    } else {
        ListReader {
            place: constant,
            doing: Doing::Repeated { more: more - 1 },
        }
    }
}
