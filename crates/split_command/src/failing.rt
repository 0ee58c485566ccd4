//! Why a file was not split.

ghost use Rattle.std.specs.Prelude.{◌≡◌};
ghost use Rattle.split_command.specs.declared.failing.SplitFail.TheVariants as split_fail;
ghost use Rattle.split_command.specs.Fails.{IsFailOfCut, IsFailOfNames};

use f_tree::{Fail, Refusal};
use f2c_outside::shelves::Place;
use f2c_outside::texts::{Name, NoMemory};
use piece_choice::NamesFail;

/// Why a file was not split. Of `Unwritten` alone something was written.
#[derive(Drop)]
pub enum SplitFail {
    /// Memory ran out.
    NoMemory,
    /// The file is not there.
    NotThere,
    /// The shelf failed while the file was being read.
    Unread,
    /// The file is too long.
    Refused(Refusal),
    /// The shelf failed when it was asked whether there is a file of this name.
    Unasked(Name),
    /// No number is free for the name of the piece with this number, counted from 1.
    NoFreeName(usize),
    /// The shelf failed while this place was being written.
    Unwritten(Place),
}

impl From<NoMemory> for SplitFail {
    ghost from_gives = { λ _ fail. fail ≡ split_fail.NoMemory };

    fn from(_refused: NoMemory) -> SplitFail {
        SplitFail::NoMemory
    }
}

impl From<Fail> for SplitFail {
    ghost from_gives = { λ why fail. IsFailOfCut why fail };

    fn from(why: Fail) -> SplitFail {
        match why {
            Fail::NoMemory => SplitFail::NoMemory,
            Fail::Refused(refusal) => SplitFail::Refused(refusal),
        }
    }
}

impl From<NamesFail> for SplitFail {
    ghost from_gives = { λ why fail. IsFailOfNames why fail };

    fn from(why: NamesFail) -> SplitFail {
        match why {
            NamesFail::NoMemory => SplitFail::NoMemory,
            NamesFail::Failed(name) => SplitFail::Unasked(name),
            NamesFail::NoneFree(number) => SplitFail::NoFreeName(number),
        }
    }
}
