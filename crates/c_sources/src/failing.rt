//! Why C files were not read.

ghost use Rattle.std.specs.Prelude.{◌≡◌};
ghost use Rattle.c_sources.specs.Fails.{IsFailOfReading};
ghost use Rattle.c_sources.specs.declared.failing.CSourceFail.TheVariants as c_source_fail;

use f_tree::Text;
use f2c_outside::shelves::Place;
use source_files::SourceFail;
use std::alloc::AllocError;

/// Why C files were not read. Nothing was written.
#[derive(Drop)]
pub enum CSourceFail {
    /// The file of this name is to be read and is not there.
    NotThere(Text),
    /// The shelf failed while this place was being read.
    Unread(Place),
    /// The file of this name is not in the C subset, and this, counted from 1, is the line of the first token such that the tokens up to it begin no file,
    /// or the line of its end.
    NotC(Text, usize),
    /// Memory ran out.
    NoMemory,
}

impl From<SourceFail> for CSourceFail {
    ghost from_gives = { λ why fail. IsFailOfReading why fail };

    fn from(why: SourceFail) -> CSourceFail {
        match why {
            SourceFail::NotThere(name) => CSourceFail::NotThere(name),
            SourceFail::Unread(place) => CSourceFail::Unread(place),
            SourceFail::NoMemory => CSourceFail::NoMemory,
        }
    }
}

impl From<AllocError> for CSourceFail {
    ghost from_gives = { λ _ fail. fail ≡ c_source_fail.NoMemory };

    fn from(_refused: AllocError) -> CSourceFail {
        CSourceFail::NoMemory
    }
}
