//! Why the calls of a source were not checked.

ghost use Rattle.std.specs.Prelude.{◌≡◌};
ghost use Rattle.check_command.specs.Fails.{IsFailOfReading};
ghost use Rattle.check_command.specs.declared.failing.CheckFail.TheVariants as check_fail;

use f_tree::{Refusal, Text};
use f2c_outside::shelves::Place;
use source_files::SourceFail;
use std::alloc::AllocError;

/// Why the calls of a source were not checked. Of `Unwritten` alone something was written.
#[derive(Drop)]
pub enum CheckFail {
    /// The file of this name is to be read and is not there.
    NotThere(Text),
    /// The shelf failed while this place was being read.
    Unread(Place),
    /// The source has this first refusal, in the file with this name.
    Refused(Refusal, Option<Text>),
    /// The file of this name is no prototype file, and this, counted from 1, is its first line such that the lines up to it are none.
    NotPrototype(Text, usize),
    /// The shelf failed while this place was being written.
    Unwritten(Place),
    /// Memory ran out.
    NoMemory,
}

impl From<SourceFail> for CheckFail {
    ghost from_gives = { λ why fail. IsFailOfReading why fail };

    fn from(why: SourceFail) -> CheckFail {
        match why {
            SourceFail::NotThere(name) => CheckFail::NotThere(name),
            SourceFail::Unread(place) => CheckFail::Unread(place),
            SourceFail::NoMemory => CheckFail::NoMemory,
        }
    }
}

impl From<AllocError> for CheckFail {
    ghost from_gives = { λ _ fail. fail ≡ check_fail.NoMemory };

    fn from(_refused: AllocError) -> CheckFail {
        CheckFail::NoMemory
    }
}
