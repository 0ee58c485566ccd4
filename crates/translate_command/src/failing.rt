//! Why a source was not translated.

ghost use Rattle.std.specs.Prelude.{◌≡◌};
ghost use Rattle.translate_command.specs.Fails.{IsFailOfReading};
ghost use Rattle.translate_command.specs.declared.failing.TranslateFail.TheVariants as translate_fail;

use f_tree::{Refusal, Text};
use f2c_outside::shelves::Place;
use source_files::SourceFail;
use std::alloc::AllocError;

/// Why a source was not translated. Of `Unwritten` alone something was written.
#[derive(Drop)]
pub enum TranslateFail {
    /// The file of this name is to be read and is not there.
    NotThere(Text),
    /// The shelf failed while this place was being read.
    Unread(Place),
    /// The source has this first refusal, in the file with this name, or in Input.
    Refused(Refusal, Option<Text>),
    /// The file of this name is no prototype file, and this, counted from 1, is its first line such that the lines up to it are none.
    NotPrototype(Text, usize),
    /// The shelf failed while this place was being written.
    Unwritten(Place),
    /// Memory ran out.
    NoMemory,
}

impl From<SourceFail> for TranslateFail {
    ghost from_gives = { λ why fail. IsFailOfReading why fail };

    fn from(why: SourceFail) -> TranslateFail {
        match why {
            SourceFail::NotThere(name) => TranslateFail::NotThere(name),
            SourceFail::Unread(place) => TranslateFail::Unread(place),
            SourceFail::NoMemory => TranslateFail::NoMemory,
        }
    }
}

impl From<AllocError> for TranslateFail {
    ghost from_gives = { λ _ fail. fail ≡ translate_fail.NoMemory };

    fn from(_refused: AllocError) -> TranslateFail {
        TranslateFail::NoMemory
    }
}
