//! How a command ended.

ghost use Rattle.std.specs.Prelude.{◌≡◌};
ghost use Rattle.outcomes.specs.Outcomes.{status_of};

use f_tree::{Refusal, Text};
use f2c_outside::shelves::Place;

/// How a command ended, one variant for each cause.
#[derive(Drop)]
pub enum Outcome {
    /// The command did its work.
    Done,
    /// The command did its work, and a call, one at least, disagrees with what it calls.
    Disagree,
    /// The command did its work, and a prototype file, one at least, is not as it was.
    Changed,
    /// The source has this first refusal, in the file with this name, or in Input.
    Refused(Refusal, Option<Text>),
    /// The file of this name is no prototype file, and this, counted from 1, is its first line such that the lines up to it are none.
    NotPrototype(Text, usize),
    /// With the word of this number, counted from 1, no command goes on.
    BadWord(usize),
    /// The file of this name is to be read and is not on the shelf.
    NotThere(Text),
    /// The shelf failed while this place was being read, or asked for.
    Unread(Place),
    /// The shelf failed while this place was being written.
    Unwritten(Place),
    /// No number is free for the name of the piece with this number, counted from 1.
    NoFreeName(usize),
    /// Memory ran out.
    NoMemory,
}

impl Outcome {
    /// The exit status: 0, 1 for a refusal, 2 for bad words, 3 for a file that is not there or a shelf
    /// that failed, 4 where a prototype file is not as it was, 5 where memory ran out, 11 where a call disagrees, 13 where a piece gets no name.
    pub fn status(&self) -> u8
        ensures { result ≡ status_of self.now }
    {
        match self {
            Outcome::Done => 0,
            Outcome::Refused(_, _) | Outcome::NotPrototype(_, _) => 1,
            Outcome::BadWord(_) => 2,
            Outcome::NotThere(_) | Outcome::Unread(_) | Outcome::Unwritten(_) => 3,
            Outcome::Changed => 4,
            Outcome::NoMemory => 5,
            Outcome::Disagree => 11,
            Outcome::NoFreeName(_) => 13,
        }
    }
}
